//! The nets of a testbench: which bits each of them reads and writes, and the order in which they settle.
//!
//! `lefts` has the bits that a left side can write, `node` those that an assign or the design reads and writes, as masks; `table`
//! keeps for each signal which nodes write which bits of it, so that `graph` finds for each node those that write what it reads,
//! and `nets` has them ordered by `net_order`. In its specs, `Lefts` and `Nets` say what is read and written, `Writers` what the
//! table holds, and `Netted` what comes of nodes.
//!
//! In its proofs, `Opens` is about left sides, `Tables` and `Sharing` about the table, `Graphs` about the lists of nodes that
//! each reads, and `Answering` takes what is told of these lists to the nodes.
#![tactic(auto)]

mod graph;
mod lefts;
mod nets;
mod node;
mod table;

pub use lefts::written_by;
pub use nets::{Nets, Netted};
pub use node::NetNode;
