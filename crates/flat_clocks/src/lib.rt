//! The clock of a flattened design: which input of the top it is, by what names it is passed on, and what is refused in an item
//! for its use of the clock (IEEE 1364-2005, 9.7 and 12.3.9).
//!
//! `clocks` goes over the items once, and keeps a table of the inputs of instances to which a signal of one bit is passed on by
//! its name alone, each with its source: since an instance's connections stand before the items of its module, the source of what
//! is passed on is known by then. The clock is the source of what clocks the first clocked process. `names` tells which names of
//! a scope are the clock, `reads` and `statements` look for the first read of one of these, and `refusals` for what is refused
//! first in an item.
#![tactic(auto)]

mod clocks;
mod names;
mod reads;
mod refusals;
mod statements;

pub use clocks::Clocks;
