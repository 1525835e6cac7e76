//! A guess at a model of a miter's clauses, by a conflict-driven search over all of their variables.
//!
//! The search learns clauses of its own, and nothing rests on them: whoever asks has to test what is guessed.
//!
//! It takes the clauses of the cone, each watched at two of its literals (`clauses`), decides the variable that a conflict
//! touched last (`queue`) to the value that it had last (`trail`), learns from a conflict the clause at the first literal of the
//! last level through which all of it goes (`conflict`), and begins anew after numbers of conflicts that go by Luby's sequence
//! (`guide`). Its clauses are over gates too, so none of them can be a lemma, and no clause of its call says what a guess is
//! worth.
#![tactic(auto)]

mod clauses;
mod conflict;
mod guide;
mod queue;
mod trail;

pub use guide::guess;
