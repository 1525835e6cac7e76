//! A campaign as a machine: tests in slots take turns on one thread, and each word becomes a row of the book.
//!
//! A `Core` is told by events what to do: to start a test in a free slot, to let a job take a turn, to add the row of a word, or to
//! stop. It takes any allowed event, over any tester and any keeper; `next` is the order of a program (`Orders`), and `run` takes the
//! events in it (`Running`). Which events are allowed and what each does is said by `Events`, what holds between them by `UnderWay`, and
//! what follows for every list of allowed events by `Laws`. In its proofs, `Orderly` shows that each event keeps what holds, and `Rooms`
//! that the room suffices; of a run, `Runs` has its events, `RunCounts` what they count, `RunBooks` what they leave of the keeper's
//! book, and `RunEnds` how it ends.
#![tactic(auto)]

mod event;
pub mod laws;
mod running;
mod seat;
mod taking;
mod tester;
mod under_way;
mod waiting;

pub use event::{CoreError, Event};
pub use tester::Tester;
pub use under_way::Core;
