//! The end of a call: the log is copied into the file, so that the file alone has all rows.
ghost use Rattle.std.specs.Prelude.{◌≡◌, IfErr, IfOk, IfSome, is_some};
ghost use Rattle.sqlite_wal.specs.Reads.{AreClean};
ghost use Rattle.keeper_opening.specs.Places.{connection_in};
ghost use Rattle.keeper_file.specs.Contents.{FailsToCopy, FindsAgain};

use keeper_opening::{Opener, OpeningKeeper};
use mcy_keeper::Keeper;
use sqlite::{Error, FileStore, Files};
use sqlite_disk::Disk;

/// Ends with the keeper: copies the log into the database file, and gives the two files back, if they were opened. Where that
/// fails the log stays beside the file, and the next call finds its rows there.
pub fn close_keeper<D: Disk + Drop, O: Opener<FileStore<D>>>(
    keeper: OpeningKeeper<FileStore<D>, O>,
) -> Result<Option<Files<D>>, Error>
    // Whatever a crash leaves of the files from then on, an open finds no book in it that the keeper did not leave.
    ensures again { IfOk result (λ found. IfSome found (λ files. AreClean D.Disk files.log files.db → FindsAgain D.Disk files (⟦<OpeningKeeper<FileStore<D>, O> as Keeper>⟧.leaves keeper))) }
    ensures opened { IfOk result (λ found. is_some found ≡ is_some (connection_in keeper)) }
    ensures cause { IfErr result (FailsToCopy (connection_in keeper)) }
{
    let Some(connection) = keeper.into_connection() else {
        return Ok(None);
    };
    match connection.close_files() {
        Ok(files) => Ok(Some(files)),
        Err((error, store)) => {
            drop(store);
            Err(error)
        }
    }
}
