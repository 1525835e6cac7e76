//! What expressions, assignments and system tasks of a testbench mean to its processes. Where a statement has a plan, it is
//! evaluated by that.
//!
//! `PhaseEvaluator` is the `Evaluator` of a phase: `Meanings` puts together what the crates of values, cases, assignments and
//! tasks say, as a `Meaning` over worlds. A statement with a plan is evaluated by that (`planned`), any other by its expressions
//! (`phase`); it answers what has shapes, where the plan of the statement is one of what is asked (`CanAnswer`). A world serves
//! it whose signals are the declared ones, of their widths (`HasSignals`).
//!
//! In its proofs `Evaluating` takes what is drawn from a scene's values to its world, `Planning` what plans come to, and `Served`
//! has that updates of declared signals fit a world.
#![tactic(auto)]

mod evaluator;
mod phase;
mod planned;

pub use phase::PhaseEvaluator;
