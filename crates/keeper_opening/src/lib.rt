//! The keeper of a campaign's book in a database that is opened at its first load.
#![tactic(auto)]

mod opening;

pub use opening::{DatabaseFault, OpenError, Opener, OpeningKeeper, opening_keepers_tell};
