//! The parts of a bench.
use mcy_base::{Items, Word, WordList};
use tb_code::Code;
use tb_machine::{Event, Numbers};
use tb_plans::{Plan, Transfer};
use tb_settling::Nets;
use vlog_meaning::Scope;

/// A process before it runs: what it waits for, and the number of its statement. An `always` process waits for an edge of the
/// clock, each time that it runs, and an `initial` one for the start.
#[derive(Clone, Copy, Debug, PartialEq, Eq)]
pub struct Waiting {
    pub event: Event,
    pub body: u32,
}

/// Processes before they run.
pub type WaitingList = Items<Waiting>;

/// The clock: the number of its signal, and its value where it is high.
#[derive(Clone, Copy)]
pub struct Clock {
    pub signal: u32,
    pub high: Word,
}

/// The parts of a bench.
pub struct Parts {
    /// The names of its module, and those of the signals at the ports of its instance.
    pub scope: Scope,
    /// The value of each signal before the first phase, by its number.
    pub starts: WordList,
    /// The statements of its processes.
    pub code: Code,
    /// How each of them is evaluated, by its number.
    pub plans: Items<Plan>,
    /// The `always` processes in the order of the source.
    pub always: WaitingList,
    /// The `initial` processes in the order of the source. The clock is none of them.
    pub initial: WaitingList,
    pub clock: Clock,
    /// The signals at the inputs and outputs of the design, in the order of its netlist.
    pub inputs: Numbers,
    pub outputs: Numbers,
    /// The assigns and the instance, in an order in which they settle.
    pub nets: Nets,
    /// How each of their nodes is evaluated, by its number, if it is an assign that has a plan.
    pub net_plans: Items<Option<Transfer>>,
}

impl Drop for Parts {
    fn drop(self) {
        let Parts {
            scope: _scope,
            starts: _starts,
            code: _code,
            plans: _plans,
            always: _always,
            initial: _initial,
            clock: _clock,
            inputs: _inputs,
            outputs: _outputs,
            nets: _nets,
            net_plans: _net_plans,
        } = self;
    }
}
