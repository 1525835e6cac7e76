//! The events of a campaign: what a core is told to do next, and how it is refused.
ghost use Rattle.std.specs.Prelude.{◌≡◌};
ghost use Rattle.campaign_core.specs.declared.event.CoreError.TheVariants.{Keeper as Failed, Memory as NoMemory};
ghost use Rattle.campaign_core.specs.Refusals.{refused_as};

use mcy_keeper::KeepError;
use std::alloc::AllocError;

/// One step of a campaign. Slots, mutations and tests count from 0.
#[derive(Clone, Copy, Debug, PartialEq, Eq)]
pub enum Event {
    /// A free slot starts the test of a mutation under a bound.
    Start {
        slot: u32,
        mutation: u32,
        test: u32,
        bound: u32,
    },
    /// The job of a slot takes a turn.
    Turn {
        slot: u32,
    },
    /// The word of a slot's job becomes a row of the book, and the slot is free.
    Commit {
        slot: u32,
    },
    /// Nothing else happens after this.
    Stop,
}

/// Why an event did not take place.
#[derive(Clone, Copy, Debug, PartialEq, Eq)]
pub enum CoreError {
    /// The keeper failed. Its count of faults has risen.
    Keeper,
    /// There was no memory.
    Memory,
}

impl From<AllocError> for CoreError {
    ghost from_gives = { λ _ e. e ≡ NoMemory };

    fn from(_: AllocError) -> CoreError {
        CoreError::Memory
    }
}

impl From<KeepError> for CoreError {
    ghost from_gives = { λ refused e. e ≡ refused_as refused };

    fn from(refused: KeepError) -> CoreError {
        match refused {
            KeepError::Fault => CoreError::Keeper,
            KeepError::Memory => CoreError::Memory,
        }
    }
}
