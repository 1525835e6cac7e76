//! What the items of a testbench give its bench: hidden signals at the ports of its instance, the values with which signals
//! start, and nets.
//!
//! For each of these the items (`tb_items`) are gone over once: `hide_ports` declares the hidden signals of the design's ports
//! behind those of the module, `start_all` gives signals the constants of their declarations, and `nodes_of` lists the nets in
//! the order of the source, with the design's node where its instance stands.
#![tactic(auto)]

mod design;
mod hidden;
mod nets;
mod starts;

pub use design::design_of;
pub use hidden::hide_ports;
pub use nets::nodes_of;
pub use starts::start_all;
