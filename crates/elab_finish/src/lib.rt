//! The end of elaboration: a builder in which all items of a design are built becomes a netlist that can be run.
//!
//! `finish` has the public call. `left` looks for the first left side that writes a net which leads back to itself: `search`
//! follows each net once, from joint to joint, and `nets` tells how many there may be. `ending` makes the netlist by `finish` of
//! the builder, with the ports of `ports`, and puts its registers in the order in which their signals are declared: `ordering`
//! makes them without what they take, and fills that in from the register that has the same lowest bit, which `heads` tells.
//! `limits` counts bits, `names` looks for registers of one name, and `checking` checks the netlist. `laws` says how what is asked
//! of the builder follows from what its items leave.
//!
//! In its specs, `Endings` says what is asked of the builder and what its netlist is, `Loops` which left side is the first on a
//! loop, `Names` which register has the name of another, and `Refusals` why there is no netlist; `Searching`, `Heads`, `Ordering`
//! and `Checking` are about the code's parts. In its proofs, `Searching` shows that a net was met on the way just where it is on a
//! loop, `Joined` and `Lefts` are about joined nets and left sides, `Orders` and `Registering` about registers, `Naming` about their
//! names, `Finishing` and `Ended` go to the finished netlist of a design, `Leading` is about bits, ports and cells that are led, and
//! `Sound` shows that the check refuses the netlist for nothing but loops.
#![tactic(auto)]

mod checking;
mod ending;
mod error;
mod finish;
mod heads;
mod laws;
mod left;
mod limits;
mod names;
mod nets;
mod ordering;
mod ports;
mod search;

pub use error::DesignError;
pub use finish::finish_design;
pub use laws::builders_can_finish;
pub use left::Left;
