//! What statements of a process assign and read, of which latches and second kinds of assignments are told (IEEE 1364-2005, 9).
//!
//! `specs/Refused` lists what is refused in a process, `Initial` what is refused in an `initial`, `Latching` and `Mixed` what the
//! assignments of an `always` tell, and `Sound` which of its steps count there: an expression that is refused reads nothing.
//! `marks` has what is known after some of the statements, `walk` goes over these as `statement` of `elab_proc` does, `left` and
//! `assignments` over an assignment. A part of a choice has marks of its own, which are met and added. `latches` then looks at
//! each bit of each variable that is assigned, `mixed` keeps a map of the first places of each kind, and `process` takes the
//! earliest of all. `initial` goes over the statements of an `initial`.
#![tactic(auto)]

mod assignments;
mod initial;
mod latches;
mod left;
mod marks;
mod mixed;
mod process;
mod walk;

pub use assignments::mark_assignment;
pub use initial::initial_refusal;
pub use latches::latch_of;
pub use marks::{Marks, Write};
pub use mixed::mixed_refusal;
pub use process::process_refusal;
pub use walk::mark;
