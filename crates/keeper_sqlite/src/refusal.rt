//! Why the tables were not read or written.
//!
//! A statement that finds no memory rolls back, and the rollback may meet a fault of its own that shuts the
//! database. So want of memory is told only after a probe: a statement that is prepared says that the
//! connection is open and changes nothing.
ghost use Rattle.std.specs.Prelude.{◌≡◌, ◌⊎◌};
ghost use Rattle.sqlite.specs.Held.{state};
ghost use Rattle.sqlite.specs.State.{HasCleanDisk, IsUnchanged, Survives};
ghost use Rattle.keeper_sqlite.specs.declared.refusal.Refusal.TheVariants.{Memory as NoMemory};
ghost use Rattle.keeper_sqlite.specs.Refusals.{refusal_of, IsNotProbed};

use crate::statements::PROBE;
use sqlite::{Alter, Connection, Error, ErrorCode};
use std::alloc::{AllocError, AllocFailed};

#[derive(Clone, Copy, Debug, PartialEq, Eq)]
pub(crate) enum Refusal {
    /// There was no memory.
    Memory,
    /// The database refused for another cause, or it holds no book.
    Database,
}

impl From<Error> for Refusal {
    ghost from_gives = { λ error refusal. refusal ≡ refusal_of error };

    fn from(error: Error) -> Refusal {
        match error {
            Error::SqliteFailure(ErrorCode::OutOfMemory) => Refusal::Memory,
            _ => Refusal::Database,
        }
    }
}

impl From<AllocError> for Refusal {
    ghost from_gives = { λ _ e. e ≡ NoMemory };

    fn from(_: AllocError) -> Refusal {
        Refusal::Memory
    }
}

impl<T: Drop> From<AllocFailed<T>> for Refusal {
    ghost from_gives = { λ _ e. e ≡ NoMemory };

    fn from(_: AllocFailed<T>) -> Refusal {
        Refusal::Memory
    }
}

/// The refusal of a write. It is want of memory only where the connection is still open.
pub(crate) fn probed<S: Alter>(connection: &mut Connection<S>, refusal: Refusal) -> Refusal
    ensures memory { result ≡ Refusal.Memory → refusal ≡ Refusal.Memory }
    ensures fault { HasCleanDisk (state S.Store connection.new) → result ≡ Refusal.Database → (refusal ≡ Refusal.Database) ⊎ IsNotProbed (state S.Store connection.old) (state S.Store connection.new) }
    ensures same { HasCleanDisk (state S.Store connection.new) → result ≡ Refusal.Memory → IsUnchanged (state S.Store connection.old) (state S.Store connection.new) }
    ensures crash { Survives (state S.Store connection.old) (state S.Store connection.new) (λ _. ⊥) }
{
    match connection.prepare(PROBE) {
        Ok(_) => refusal,
        Err(_) => Refusal::Database,
    }
}
