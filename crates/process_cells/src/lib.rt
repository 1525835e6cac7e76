//! Processes: the cells of their statements, the joints and registers of their variables, and the start values of an `initial`.
//!
//! `process` looks first for what is refused in a process, takes the numbers of its variables from what `process_latches` marks,
//! and builds the statement behind its list of events; `specs/Items` says what a process means and what is added, and
//! `specs/Laid` the netlist of it as a function of the builder before (`Laying` in the proofs). `starts` goes over the statements
//! of an `initial`, which give start values (`specs/Starts`): these are set before any process is built, since a register takes
//! the one that its signal has. `specs/Ready` says what variables have before the statements are built, and `specs/Processes`
//! what a process adds besides their cells. `combinational` builds the body of a combinational process: `kept` keeps the own bits
//! of its variables and gives them zeros, and after the statements `joints` gives them their own bits back, each joined to what
//! the variable had last. `clocked` builds that of a clocked one: before the statements the own bits of its variables wait
//! (`waiting`), and after them `registers` adds a register for each. `variables` lists the variables of a process from what
//! `process_latches` marks.
//!
//! In the proofs, `Lefts` shows that a left side can be written in which nothing is refused, part by part beside the expression
//! of the same form, and `Accepted` the same of statements; `Sounding` compares such statements with those that latches are
//! looked for in, for which `Labels` shows that the labels of arms are those of their case, and `Firsts` is about the order of
//! variables; `Blanking` is about variables that have zeros, `Begun` about what the statements of a combinational process begin
//! with, `Rejoining` and `Finished` about the joints after them, `Holding` about bits that wait, `Storing` about registers,
//! `Fits` and `Items` about whole processes, `Starting` about start values, and `Clocking` about what stands before and after the
//! statements of a clocked process; `Assigned` is about the kinds of assignments, `OneKind` shows that each variable has one
//! where no second one is refused, and `Bodies` that a body can be built in which nothing is refused, `Widths` shows that signals
//! keep their widths, and `Adding` goes from what statements build to items of a design.
#![tactic(auto)]

mod clocked;
mod combinational;
mod joints;
mod kept;
mod laws;
mod process;
mod registers;
mod starts;
mod variables;
mod waiting;

pub use clocked::build_clocked;
pub use combinational::build_combinational;
pub use laws::{
    accepted_bodies_can_be_built, accepted_statements_are_ready, accepted_statements_are_sound,
    mixed_assignments_are_refused, processes_are_added, processes_are_laid,
};
pub use process::build_process;
pub use starts::{start_process, start_signal};
pub use variables::variables_of;
pub use waiting::nothing_waits;
