//! What is refused in sources, and which of several refusals is answered: the first by place.
//!
//! Who refuses something gives it a `Precedence`: its place in the source, the order of its kind at one place, and that of what is
//! told of it, for which `rank` has the orders of causes and of features. `Order` says by it which of several stands first, and
//! `earlier` has the first of two lists from the firsts of both.
//!
//! `Expressions` says what is wrong in expressions, on their own or as the sides of an assignment, and `Cases` the same of the
//! selector and labels of a case. What is not supported in them rests on what they are for, which `Purpose` stands for. `sides`,
//! `sizes` and `cases` find the first of it, and `labels` says which bits of a label are no matter.
//!
//! In its proofs, `Firsts` has the first of joined lists and of what is wrong in expressions, `Order` that just one of several
//! stands first where no two have one precedence, `Ranks` that a cause and a feature are told by their ranks, and `SizeLemmas` the
//! sizes of expressions that are brought together.
#![tactic(auto)]

mod cases;
mod labels;
mod precedence;
mod purpose;
mod rank;
mod sides;
mod sizes;

pub use cases::case_fault;
pub use labels::dont_care;
pub use precedence::{Placed, Precedence, earlier};
pub use purpose::Purpose;
pub use rank::{cause_rank, feature_rank};
pub use sides::{own_fault, sides_fault, wrong_in};
pub use sizes::{case_size, size_with};
