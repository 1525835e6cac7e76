//! Files in memory whose reads fail by a list, so that tests can make each read fail in turn.
//!
//! `files` are the files; `failing` has the numbers of the calls that fail; `next` is the number of the
//! next call, `None` once no `u64` numbers it; `faults` is how many calls have failed.
ghost use Rattle.std.specs.Prelude.{◌≡◌, ◌≤◌, IfOk, Some, length};
ghost use Rattle.mcy_outside.specs.Files.{look_up};
ghost use Rattle.mcy_outside.specs.MemoryFiles.{ReadsOnce, is_listed};

use crate::clean_files::{copy_within, look_up};
use crate::files::{FileError, SourceFiles};
use mcy_base::{FileList, call_after};
use std::alloc::Global;
use std::marker::Model;

/// Files in memory whose reads fail by a list: a call that the list numbers, counted from 0, answers
/// `Failed`, and no other call does.
#[derive(Drop)]
pub struct MemoryFiles {
    alloc: Global,
    files: FileList,
    failing: Vec<u64>,
    next: Option<u64>,
    faults: u64,
}

impl Model for MemoryFiles {
    ghost use Rattle.mcy_outside.specs.MemoryFiles.{ScriptedFiles};

    ghost Value = { ScriptedFiles };

    ghost view = { λ f. record { files = f.files; failing = f.failing.items; next = f.next; faults = f.faults } };
}

impl MemoryFiles {
    /// These files. Where a name stands twice, the first counts.
    pub fn new(alloc: Global, files: FileList, failing: Vec<u64>) -> MemoryFiles
        ensures { result ≡ record { files = files; failing = failing.items; next = Some 0; faults = 0 } }
    {
        MemoryFiles {
            alloc,
            files,
            failing,
            next: Some(0),
            faults: 0,
        }
    }
}

/// Whether a list numbers this call.
fn is_listed(calls: &[u64], call: Option<u64>) -> bool
    ensures { result ≡ is_listed calls.now call }
{
    match call {
        Some(call) => calls.contains(&call),
        None => false,
    }
}

impl SourceFiles for MemoryFiles {
    ghost held = { λ f. Some (look_up f.files) };

    ghost faults = { λ f. f.faults };

    fn read(&mut self, name: &str, max: u32) -> Result<Vec<u8>, FileError>
        ensures once { ReadsOnce self.old self.new name.now max result }
        ensures few { IfOk result (λ bytes. length bytes.items ≤ max) }
    {
        let fails = is_listed(self.failing.as_slice(), self.next);
        self.next = call_after(self.next);
        if fails {
            self.faults = self.faults.saturating_add(1);
            return Err(FileError::Failed);
        }
        match look_up(self.files.as_slice(), name) {
            None => Err(FileError::Missing),
            Some(bytes) => copy_within(self.alloc, bytes, max),
        }
    }
}
