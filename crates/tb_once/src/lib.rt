//! Laws of benches: their simulations come to one outcome and end in one phase, and what they share with different designs.
//!
//! What the nets of a bench settle to is determined where values stay below 2 to the widths of their signals (`AreValues`):
//! `Staying` has that processes keep this, `Settled` that settling does, and `Outcomes` goes over the phases.
#![tactic(auto)]

mod laws;

pub use laws::{benches_end_once, benches_have_one_outcome, designs_in_benches};
