//! The real files, through the runtime.
//!
//! Nothing is known of what they hold, so they do not tell it: contracts see the count of faults alone.
//! What is read from a reader whose bytes are known is proved of `read_within`.
ghost use Rattle.std.specs.Prelude.{◌≡◌, ◌↔◌, ◌≤◌, None, [], IfOk, length, option_map, Some};
ghost use Rattle.mcy_outside.specs.Files.{Reads};

use crate::disk::{Disk, read_from};
use crate::files::{FileError, SourceFiles};
use std::alloc::Global;
use std::fs::{self, File};
use std::io::{ErrorKind, Read};
use std::marker::Model;
use std::rt::Files;

/// The real files. A name is a path from the current folder. What is there and is no regular file, as a
/// folder, a FIFO or a device, is a failed read.
#[derive(Drop)]
pub struct RealFiles<R> {
    alloc: Global,
    files: R,
    faults: u64,
}

impl<R> Model for RealFiles<R> {
    ghost use Rattle.std.specs.Prelude.{ℕ};

    ghost Value = { ℕ };

    ghost view = { λ f. f.faults };
}

impl<R: Files> RealFiles<R> {
    /// The files of this runtime, none of whose reads has failed yet.
    pub fn new(alloc: Global, files: R) -> RealFiles<R>
        ensures { result ≡ 0 }
    {
        RealFiles {
            alloc,
            files,
            faults: 0,
        }
    }
}

/// The disk of a runtime, which tells nothing of what it holds.
#[derive(Drop)]
struct RealDisk<'a, R> {
    files: &'a R,
}

impl<R: Files> Disk<R::File> for RealDisk<'_, R> {
    ghost entries = { λ _. None };

    fn is_regular(&self, name: &str) -> Result<bool, FileError> {
        match fs::metadata(self.files, name) {
            Ok(metadata) => Ok(metadata.is_file()),
            Err(error) => Err(open_error(error.kind())),
        }
    }

    fn open(&self, name: &str) -> Result<R::File, FileError> {
        File::open(self.files, name).map_err(|error| open_error(error.kind()))
    }
}

/// Why a file cannot be opened.
fn open_error(kind: ErrorKind) -> FileError
    ensures missing { (result ≡ FileError.Missing) ↔ (kind ≡ ErrorKind.NotFound) }
    ensures memory { (result ≡ FileError.Memory) ↔ (kind ≡ ErrorKind.OutOfMemory) }
{
    match kind {
        ErrorKind::NotFound => FileError::Missing,
        ErrorKind::OutOfMemory => FileError::Memory,
        _ => FileError::Failed,
    }
}

/// All bytes that a reader gives, of which there may be `max`. It takes at most one more from the reader,
/// which tells whether there are too many.
pub fn read_within<R: Read + Drop>(alloc: Global, reader: R, max: u32) -> Result<Vec<u8>, FileError>
    ensures reads { Reads (option_map (λ xs _. Some xs) (R.remaining reader)) [] max result }
    ensures few { IfOk result (λ bytes. length bytes.items ≤ max) }
{
    let mut bytes = Vec::new(alloc);
    match reader.take(u64::from(max) + 1).read_to_end(&mut bytes) {
        Ok(_) if bytes.len() <= max as usize => Ok(bytes),
        Ok(_) => Err(FileError::TooLarge),
        Err(error) if error.kind() == ErrorKind::OutOfMemory => Err(FileError::Memory),
        Err(_) => Err(FileError::Failed),
    }
}

impl<R: Files> SourceFiles for RealFiles<R> {
    ghost held = { λ _. None };

    ghost faults = { λ f. f };

    fn read(&mut self, name: &str, max: u32) -> Result<Vec<u8>, FileError> {
        let disk = RealDisk { files: &self.files };
        let result = read_from(self.alloc, &disk, name, max);
        if let Err(FileError::Failed) = result {
            self.faults = self.faults.saturating_add(1);
        }
        result
    }
}
