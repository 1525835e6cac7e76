//! What `mcy` takes from its words and tells on a terminal beside the call itself: no promise of the call rests on it.
#![tactic(auto)]

mod look;
mod marks;
mod meter;
mod next;
mod words;

pub use look::Look;
pub use meter::{Asked, Meter};
pub use words::{asked_of, words_of};
