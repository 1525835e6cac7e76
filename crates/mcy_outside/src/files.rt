//! Files that are read by name, a whole file at a time.
//!
//! `held` is what is there under each name, where the files tell it; no read changes it. `faults` counts
//! the reads that failed: it never falls, and rises in each read that answers `Failed`.
ghost use Rattle.std.specs.Prelude.{◌≡◌, ◌≤◌, ℕ, Option, IfOk, IsErrOf, length};
ghost use Rattle.mcy_base.specs.Causes.{IsCaused};
ghost use Rattle.mcy_outside.specs.Files.{Held, Reads};

/// Why a file was not read.
#[derive(Clone, Copy, Debug, PartialEq, Eq)]
pub enum FileError {
    /// The read failed. The count of faults has risen.
    Failed,
    /// There is no file of this name.
    Missing,
    /// The file has more bytes than were asked for.
    TooLarge,
    /// There was no memory.
    Memory,
}

/// Files that are read by name.
pub trait SourceFiles {
    /// What is held under each name, where the files tell it.
    ghost held: { Self → Option Held };

    /// How often a read has failed.
    ghost faults: { Self → ℕ };

    /// All bytes of the file of this name, of which there may be `max`.
    fn read(&mut self, name: &str, max: u32) -> Result<Vec<u8>, FileError>
        ensures same { held self.new ≡ held self.old }
        ensures reads { Reads (held self.old) name.now max result }
        ensures few { IfOk result (λ bytes. length bytes.items ≤ max) }
        ensures cause { IsCaused (faults self.old) (faults self.new) (IsErrOf result FileError.Failed) };
}
