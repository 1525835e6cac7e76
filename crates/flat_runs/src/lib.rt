//! Flattened designs: their runs, and the law that a netlist built item by item has these runs.
//!
//! An item of a flattened design is an assignment or a connection, a combinational process, or a clocked one (`specs/Meanings`),
//! each with its value or effect as a function of the signals' values; so the laws know neither expressions nor statements.
//! `specs/Designs` has the equations of a cycle and the runs of a source, `specs/Adding` what the call that builds an item owes:
//! the runs of the new builder are those of the old one in which what the item says holds, and each such run of the old one goes
//! on to one of the new. `specs/Parts` says from which cells, joints and registers an item is built, and what stands of a builder
//! from item to item, `specs/Writing` which bits have a writer, and `specs/Finishing` what the netlist is in the end: each joined
//! net is replaced by the one bit that it leads to, the registers stand in the design's order, and when a builder is ready for
//! that.
//!
//! In its proofs, `Growing` shows that added cells extend each run, `Writing` that no bit has two writers, `Joining`, `Storing`
//! and `Combining` that the three kinds of items are added, `Chain` that one step and the rest are the whole, `Led` and
//! `Registers` what is read in the finished netlist, `Law` the law, and `Ends` that nets lead where `finish` of `elab_expr` lets
//! them lead. `specs/Examples` has small designs with their runs, and two with their netlists, worked out by hand.
#![tactic(auto)]

mod examples;
mod laws;

pub use examples::{netlists_of_examples, runs_of_examples};
pub use laws::{
    bits_have_one_writer, builders_keep, built_netlists_have_the_source_runs, items_are_added,
    ready_builders_finish,
};
