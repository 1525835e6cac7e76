//! What the calls of a table find and leave: files, a keeper and a sink in memory, as statements prepare them, and what is printed of them.
//!
//! A `Stage` is what the next call finds, and `World` the objects that it is given.
#![tactic(auto)]

mod content;
mod stage;
mod telling;
mod world;

pub use stage::Stage;
pub use telling::{tell_book, tell_bytes, tell_items, tell_row, tell_text};
pub use world::World;
