//! The project that two numbers make, for a campaign without any file: a design of so many cells, drawn from a seed, its testbench,
//! and the project file with a simulation and an equivalence test; and the summary of its campaign.
//!
//! Each cell of the design has its operator and its operands by a word of `rand_pcg`'s `Lcg128Xsl64`.
#![tactic(auto)]

mod design;
mod files;
mod told;

pub use files::made_files;
pub use told::summary;
