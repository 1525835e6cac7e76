//! Flattened designs become netlists: their signals are declared, and their items are built one after the other.
//!
//! `signals` declares the signals of a flattened design in a builder, in the order of their numbers, and `start` gives them start
//! values, one item after the other. `item` builds one item: `sides` finds the two scopes of an assignment, `connection` builds
//! inputs of instances, `left` makes the left side of what an output is connected to, which stands in the tree as an expression,
//! and `run` builds a process. A `Desk` has what processes take besides: copies of scopes, since a loop's variable is a
//! constant in its turns, the bits that wait for variables, and a flag for each signal, which tells whether it has a writer
//! already. `writers` tells the flags of a new desk, and where an item is built `notes` tells those again of the signals that it
//! gives values, which `numbers` lists: the bits and variables that `assigned` finds in it. So no item looks at all signals.
//! `timed` joins the first refusal of an item and its first misuse of the clock, which `flat_clocks` tells, and `items` builds
//! items in order, up to the first one that is refused or for which there is no room. `answer` says which answer each refusal is,
//! with the names of signals, and `full` what is refused first in a design with more bits than a builder can have. Before items are
//! built, `turns` counts the turns of their loops, and finds the first item with which there are too many.
//!
//! In its specs, `Meanings` says what an item means, `Starts` what signals start with, `Designs` which design a flattened design
//! is, `Items` which cells an item adds, why it is refused and what is left, `Timed` the same with the clock, `Laid` the builder
//! in which items were laid, wiring included, `Writers` which signals have a writer, `Assigned` what an item assigns, `Desks`
//! what is at hand, `Turns` how many turns loops take, and `Signals` what is declared.
//!
//! In its proofs, `Declaring` is about declared signals, `Starting` about start values, `Building` about each kind of item,
//! `Running` about processes, `Counting` about how many cells an item adds, `Assigning` about what items assign, `Renewing` and
//! `Noting` about flags, `Turning` about the turns of the first items, `Standing` about what stands from item to item, and `Sounding` goes from sound designs to what is asked
//! of the builder.
#![tactic(auto)]

mod answer;
mod assigned;
mod connection;
mod desk;
mod error;
mod full;
mod item;
mod items;
mod laws;
mod left;
mod notes;
mod numbers;
mod run;
mod sides;
mod signals;
mod start;
mod timed;
mod turns;
mod writers;

pub use answer::{ElabError, item_answer, reason_answer};
pub use assigned::{assigned_bits, process_writes};
pub use desk::{Desk, copy_scopes};
pub use error::{BuildError, Reason};
pub use full::listed_before;
pub use item::build_item;
pub use items::build_items;
pub use laws::{items_are_added, sound_designs_are_declared};
pub use signals::declare_signals;
pub use start::set_starts;
pub use turns::first_past;
