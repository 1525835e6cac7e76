//! The keeper of a campaign's book, as a trait, and two that keep theirs in memory.
#![tactic(auto)]

mod book;
mod clean;
mod formats;
mod keeper;
mod laws;
mod memory;

pub use book::{Book, BoundList, Entry, Journal};
pub use clean::CleanKeeper;
pub use formats::{are_of_first_format, with_bounds};
pub use keeper::{KeepError, Keeper};
pub use laws::{clean_keepers_always_tell, memory_keepers_always_tell};
pub use memory::MemoryKeeper;
