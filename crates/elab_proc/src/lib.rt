//! Processes become muxes and registers: what is refused in their statements, and where.
//!
//! `specs/Refusals` lists what is refused in the steps of `vlog_effects`, each at its place, and `specs/Order` says which of
//! several is answered. `sides` and `cases` look at expressions, each at the width and sign at which it is evaluated, `left_side`
//! at the names that are written, and `turns` at a loop's condition and step.
//! `statement` goes over the statements: it takes a loop turn by turn, with its variable as a constant of the scope, and an item
//! of a case only where none before it always matches.
//!
//! In its proofs, `Order` shows that just one of several refusals stands first, `Forms` that left sides of one form are one,
//! `StepLemmas` and `TurnLemmas` what is left of a block, of the items of a case and of the turns of a loop.
#![tactic(auto)]

mod cases;
mod laws;
mod left_side;
mod refusal;
mod sides;
mod statement;
mod turns;

pub use cases::{always, case_fault, case_size, is_default, ones};
pub use laws::{first_is_one, left_sides_are_one};
pub use left_side::same_form;
pub use refusal::{Refusal, earlier, wrong};
pub use sides::{own_fault, wrong_in};
pub use statement::{MAX_TURNS, ProcessRules, statement_refusal};
pub use turns::{Header, holds, next_word};
pub use vlog_refusals::dont_care;
