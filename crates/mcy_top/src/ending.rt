//! How the writing of a text ends, and how a call ends by it or by an error of the keeper.
ghost use Rattle.std.specs.Prelude.{◌≡◌, ◌≤◌};
ghost use Rattle.mcy_base.specs.Causes.{Rose};
ghost use Rattle.mcy_top.specs.Endings.{ended_outcome, failed_outcome, Delivers};

use campaign_outcomes::Outcome;
use mcy_keeper::KeepError;
use mcy_outside::Sink;

/// How the writing of a text ended.
#[derive(Clone, Copy, Debug, PartialEq, Eq)]
pub(crate) enum Ending {
    /// The whole text was written.
    Written,
    /// The sink failed.
    Refused,
    /// There was no memory for the text.
    NoMemory,
}

impl Ending {
    /// How the call ends, from how it ends where the text is written.
    pub(crate) fn outcome(self, written: Outcome) -> Outcome
        ensures { result ≡ ended_outcome written self }
    {
        match self {
            Ending::Written => written,
            Ending::Refused => Outcome::WriteFault,
            Ending::NoMemory => Outcome::Memory,
        }
    }
}

/// How a call ends that an error of the keeper ended.
pub(crate) fn failed(error: KeepError) -> Outcome
    ensures { result ≡ failed_outcome error }
{
    match error {
        KeepError::Fault => Outcome::KeeperFault,
        KeepError::Memory => Outcome::Memory,
    }
}

/// Writes a whole text.
pub(crate) fn deliver<O: Sink>(text: &[u8], out: &mut O) -> Ending
    ensures wrote { Delivers (O.written out.old) (O.written out.new) text.now result }
    ensures later { O.faults out.old ≤ O.faults out.new }
    ensures cause { result ≡ Ending.Refused → Rose (O.faults out.old) (O.faults out.new) }
{
    match out.write_all(text) {
        Ok(()) => Ending::Written,
        Err(_) => Ending::Refused,
    }
}
