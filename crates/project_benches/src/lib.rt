//! The testbenches of a project's tests: which module of its files each is, and the bench that it is, or why there is none.
//!
//! `choice` finds the module of a test's name in its files (`Choice`), and `bench` reads its bench or tells why it has none, with
//! the name of the file (`Benches`). In its proofs, `Finding` is about one module more, and `OneAnswer` has the laws by those of
//! `tb_reading`.
#![tactic(auto)]

mod bench;
mod choice;

pub use bench::{benches_are_alike, one_answer, read_bench_of};
pub use choice::{Found, find_bench};
pub use project_sources::CheckedNetlist;
