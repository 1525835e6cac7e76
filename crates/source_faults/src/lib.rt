//! What is wrong with the sources of a design and of its testbenches, in which file, and the line that tells it.
//!
//! `fault` gives a fault of `source_trees`, `elab_items` or `tb_faults` the name of its file, and `line` makes its line, with the
//! names of `feature`.
#![tactic(auto)]

mod fault;
mod feature;
mod line;

pub use fault::{
    SourceError, SourceFault, bench_error, elab_error, no_sites, read_error, too_many,
};
pub use line::{kind_name, source_line};
