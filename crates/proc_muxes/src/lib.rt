//! What the statements of a process add to a netlist that is being built: muxes and puts, with the effect of IEEE
//! 1364-2005, 9.2 to 9.5.
//!
//! There are definitions of what statements become, with their laws, and the calls that build it. `specs/Builds` is a relation
//! between a builder before and after: for each kind of step of `vlog_effects` the cells that are added, in their order, with
//! their ports and places, and the bits that signals have then. `specs/Laid` says the same as a function of what is there before,
//! and the law `statements_are_laid` that both agree; in its proofs, `Laying` goes from the relation to the function, and `Alike`
//! shows that of the bits that wait the variables' own alone count. `specs/Shows` says when what a builder has are the values of
//! an effect, and what building keeps.
//!
//! In its proofs, `Gates` and `Puts` say what a mux, a `ror`, an `eq`, a `lor` and a `put` compute as bits, `Keeping` what each
//! kind of step keeps, and `Simulates` goes from what is built to the effect in every run.
//!
//! In the code, `Variables` has the bits that wait for variables with nonblocking assignments, and `Changes` what a statement has
//! assigned, with the bits from before. `condition` gives the bit of a condition. After the first part of a choice `set_aside`
//! takes what each changed variable has and gives back what it had, and after the second `choose` makes the muxes; so the work of
//! a choice goes by what its parts change, and nothing is copied for a variable that they leave. `specs/Working` has the words
//! for these, `Joining` the changes of statements one after the other, `Merging`, `Muxing` and `Fitting` those of a choice and
//! its muxes.
//!
//! `assignment` builds an assignment in which nothing is refused (`specs/Clear`): `piece` makes of each part of the left side a
//! piece (`specs/Pieces`), with the cells of its index, and `put` writes the pieces from the last one on. `specs/Counts` says how
//! many cells steps make. In the proofs, `Piecing` goes over the parts of a left side, `Placing` over the bits of a piece,
//! `Putting` and `Assigning` from what was written to the relation, and `Counting` shows the counts.
//!
//! `statement` builds statements within one another, where nothing is refused and variables have their bits (`IsReady` of
//! `specs/Clear`). `matching` makes the bit of an item's labels, with an `eq` for each label of which some bit matters. The arms
//! of a case are opened in the order of its items: the labels and the body of each are built, and what it changed is set aside on
//! a stack (`open_arms`); then the muxes are made from the last arm back, so that no call nests as deep as a case has items.
//! `specs/Cases` says what open arms are.
//!
//! In its proofs `Walking` goes from one statement to the next, `Branching` from one call for an `if` to the next, `Labelling`
//! from one label to the next, and `Opening` and `Closing` over the arms of a case. A loop is built turn by turn (`specs/Turns`):
//! its variable is declared as a constant for each, and as what it was after the last one; `Turning` goes from one turn to the
//! next. `Refusing` shows that other statements are refused.
#![tactic(auto)]

mod assignment;
mod change;
mod choice;
mod condition;
mod laws;
mod matching;
mod open_arms;
mod piece;
mod put;
mod statement;
mod variables;

pub use assignment::build_assignment;
pub use change::{Change, Changes};
pub use choice::{Choice, choose, set_aside};
pub use condition::build_test;
pub use laws::{parts_are_built, statements_are_laid, statements_build_their_effect};
pub use statement::build_statement;
pub use variables::Variables;
