//! The order of nodes that read one another, each behind all that it reads, or the first node that reads itself.
//!
//! A node that is not ready waits for one that it reads, so each entry is looked at once (`listing`); where not all come to be
//! listed, `loops` looks for the first that reads itself. Nodes are given by a list for each of those that it reads. In its specs,
//! `Orders` says what an order is and what is on a loop, of any relation between numbers, and `Answers` what `order` answers;
//! `Listing` and `Reaching` say what the code's steps compute.
#![tactic(auto)]

mod answer;
mod listing;
mod loops;

pub use answer::{Ordered, order};
