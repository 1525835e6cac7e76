//! Files in memory whose reads never fail.
ghost use Rattle.std.specs.Prelude.{◌≡◌, ◌≤◌, Some, [], IfOk, IsErrOf, length, option_map};
ghost use Rattle.mcy_outside.specs.Files.{Reads, look_up};

use crate::files::{FileError, SourceFiles};
use mcy_base::{FileList, SourceFile};
use std::alloc::Global;
use std::marker::Model;

/// Files in memory whose reads never fail: only memory can be wanting.
#[derive(Drop)]
pub struct CleanFiles {
    alloc: Global,
    files: FileList,
}

impl Model for CleanFiles {
    ghost use Rattle.std.specs.Prelude.{List};
    ghost use Rattle.mcy_base.specs.declared.file.SourceFile.{SourceFile};

    ghost Value = { List SourceFile };

    ghost view = { λ f. f.files };
}

impl CleanFiles {
    /// These files. Where a name stands twice, the first counts.
    pub fn new(alloc: Global, files: FileList) -> CleanFiles
        ensures { result ≡ files }
    {
        CleanFiles { alloc, files }
    }
}

/// The bytes of the first file of this name.
pub(crate) fn look_up<'a>(files: &'a [SourceFile], name: &str) -> Option<&'a [u8]>
    ensures { option_map (λ b. b.now) result ≡ look_up files.now name.now }
{
    let mut rest = files;
    while let [file, more @ ..] = rest {
        if file.name.as_str() == name {
            return Some(file.bytes.as_slice());
        }
        rest = more;
    }
    None
}

/// A copy of the bytes, if there are no more than `max`.
pub(crate) fn copy_within(alloc: Global, bytes: &[u8], max: u32) -> Result<Vec<u8>, FileError>
    ensures reads { Reads (Some (λ name. Some bytes.now)) [] max result }
    ensures few { IfOk result (λ copy. length copy.items ≤ max) }
    ensures works { IsErrOf result FileError.Failed → ⊥ }
{
    if bytes.len() > max as usize {
        return Err(FileError::TooLarge);
    }
    match bytes.to_vec(alloc) {
        Ok(copy) => Ok(copy),
        Err(_) => Err(FileError::Memory),
    }
}

impl SourceFiles for CleanFiles {
    ghost held = { λ files. Some (look_up files) };

    ghost faults = { λ _. 0 };

    fn read(&mut self, name: &str, max: u32) -> Result<Vec<u8>, FileError> {
        match look_up(self.files.as_slice(), name) {
            None => Err(FileError::Missing),
            Some(bytes) => copy_within(self.alloc, bytes, max),
        }
    }
}
