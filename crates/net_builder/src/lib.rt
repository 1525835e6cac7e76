//! The builder of a netlist: its cells, joined nets, registers and signals, and the netlist that it ends with.
//!
//! A `Builder` numbers nets in order: those of a signal when it is declared, those of a cell's Y when it is added, so a cell
//! reads nets that stand there before. `Building` says what each call adds and what a run of a builder is, `Written` by what a
//! net is written, a joint or a register, of which `writers` keeps a table by nets. `Finished` says what bit each net leads to,
//! and what netlist is made of a builder: `steps` keeps a table of where each net goes next, `tracing` follows each net once to
//! where it ends or to a loop, `loops` looks for the least net on a loop, and `finishing` puts into the place of each net that is
//! read the bit it leads to. `Errors` says as what a fault of an expression is refused, `Refusals` when cells are too many.
#![tactic(auto)]

mod bits;
mod builder;
mod error;
mod finishing;
mod loops;
mod steps;
mod tracing;
mod writers;

pub use bits::copied_bits;
pub use builder::{Builder, Joint, MAX_CELLS, Signal};
pub use error::ElabError;
pub use finishing::FinishError;
pub use steps::Step;
