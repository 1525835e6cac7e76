//! The parts of trees: a box and a list that contracts see as what they hold.
//!
//! A type that contains itself through these is plain data to a contract: two trees are equal where their parts are, wherever
//! they lie.
#![tactic(auto)]

mod boxed;
mod listed;

pub use boxed::Boxed;
pub use listed::Listed;
