//! The nets and processes of a testbench whose items have no fault.
//!
//! In its proofs `Told` has that the parts of an assign without a fault can be told, `Places` which bits a part can write, `Meeting`
//! that what a net writes without a fault was not written before, `Listed` a list of nodes, one more, `Apart` goes over the items, and
//! `Clean` has what each holds by itself.
#![tactic(auto)]

mod laws;

pub use laws::{items_are_clean, nets_are_apart};
