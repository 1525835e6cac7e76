//! The law of rows: what the rows of a good book say of the mutants.
//!
//! There are laws alone: a row of a good book has its true word, which tells of one step, and so of all runs, or is UNKNOWN, and
//! then the attempt that its clauses have is as long as the limit, which `Bound` of `sat_solver` bounds.
#![tactic(auto)]

mod laws;

pub use laws::rows_tell_of_all_runs;
