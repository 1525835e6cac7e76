//! One read of a file, over a disk whose files are looked at and opened by name.
//!
//! What stands under a name is nothing, what is no regular file (a folder, a FIFO, a device), or a regular file. A disk may
//! tell it; what a read makes of the disk's answers is proved for every disk that does.
ghost use Rattle.std.specs.Prelude.{◌≤◌, Option, IfOk, length};
ghost use Rattle.mcy_outside.specs.Disks.{Entries, Looks, Opens, ReadsFrom};

use crate::files::FileError;
use crate::real_files::read_within;
use std::alloc::Global;
use std::io::Read;

/// A disk whose files are readers.
pub trait Disk<F: Read + Drop> {
    /// What stands under each name, where the disk tells it.
    ghost entries: { Self → Option Entries };

    /// Whether a regular file stands under the name. `Missing` where nothing does.
    fn is_regular(&self, name: &str) -> Result<bool, FileError>
        ensures { Looks (entries self.now) name.now result };

    /// A reader of the regular file under the name. `Missing` where nothing stands there.
    fn open(&self, name: &str) -> Result<F, FileError>
        ensures { Opens (entries self.now) name.now F.remaining result };
}

/// All bytes of the regular file of this name, of which there may be `max`. What is no regular file is not opened, and is a
/// read that failed: a FIFO would wait for its writer, and a device may have no end.
pub fn read_from<F: Read + Drop, D: Disk<F>>(
    alloc: Global,
    disk: &D,
    name: &str,
    max: u32,
) -> Result<Vec<u8>, FileError>
    ensures reads { ReadsFrom (D.entries disk.now) name.now max result }
    ensures few { IfOk result (λ bytes. length bytes.items ≤ max) }
{
    if !disk.is_regular(name)? {
        return Err(FileError::Failed);
    }
    read_within(alloc, disk.open(name)?, max)
}
