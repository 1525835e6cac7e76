//! A keeper of a campaign's book that tells what it keeps to a watcher, who can do nothing to it.
#![tactic(auto)]

mod watched;

pub use watched::{WatchedKeeper, Watcher, watched_keepers_tell};
