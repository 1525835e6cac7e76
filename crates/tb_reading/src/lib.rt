//! Testbenches that are read: the bench of a module for a design, or the first reason why there is none.
//!
//! `read` opens the module, declares the hidden signals and takes the items apart (`IsRead` of `Readings`), `reason` tells why it
//! is refused (`Reasons`): the first fault of its first item that has one, or a `generate` region before it, else that there is
//! no instance of the design, else that no clock is generated. Where there is no such reason, `wire` of `tb_wired` puts the nets
//! in an order, or tells the first on a loop, and `assemble` makes the bench: `list_processes` adds the bodies of processes to
//! the code, `clock_in` has the clock, and `tb_plans` makes the plans of code and nets.
//!
//! In its specs, `Benches` says what the bench of a module is (`IsBenchOf`) and which refusals there are (`IsRefusal`). In its
//! proofs, `Assembling` shows that the parts can run, `Accepting` what holds of items without a fault, and `Making` puts the
//! answers together.
#![tactic(auto)]

mod bench;
mod clock;
mod judge;
mod laws;
mod processes;
mod reading;

pub use bench::read_bench;
pub use laws::{benches_are_alike, one_refusal};
