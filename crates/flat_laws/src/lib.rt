//! The laws of flattened designs: what the builder of a netlist may rely on.
//!
//! There are definitions and laws alone. `Sound` says that names are those of signals with the same bits and that items speak of
//! signals and scopes that there are, `Ports` what the ports of a top are. In its proofs, `Growing` is about signals that become
//! more, `Opening` about each declaration and `Opened` about items and modules, where a scope is opened: what it keeps of the
//! scope before (`Keeps`). `Items` is about what instances list, `Parts` about parts that are replaced (`Moves`), `Entering`
//! about those that open a scope, and `Flattened` about a whole design, part by part; `Ports` follows the names in a head.
#![tactic(auto)]

mod laws;

pub use laws::{flattened_designs_are_sound, tops_have_their_ports};
