//! What opens the database in the file at a path.
//!
//! `S` stands for what the file and its log hold when they are opened: a type of which no code can read anything. What is proved
//! over each `S` holds of every content, and the program names one of which nothing is known.
ghost use Rattle.sqlite_wal.specs.Files.{image_at};
ghost use Rattle.keeper_file.specs.Contents.{IsFoundIn};

use keeper_opening::{DatabaseFault, OpenError, Opener};
use mcy_outside::{RealFiles, SourceFiles};
use sqlite::{Connection, Error, ErrorCode, FileFrom, FileStore, Start};
use std::rt::HostRuntime;

/// The database in a file, which is opened at the first load, so that a call which ends before it touches no file.
#[derive(Drop)]
pub struct Database<S: Start> {
    rt: HostRuntime,
    path: &'static str,
    start: S,
}

impl<S: Start> Database<S> {
    /// The database in the file at this path, which is not opened yet.
    pub fn new(rt: HostRuntime, path: &'static str, start: S) -> Database<S> {
        Database { rt, path, start }
    }
}

impl<S: Start> Opener<FileStore<FileFrom<S>>> for Database<S> {
    /// What an open finds in files that hold this.
    ghost found = { λ _. IsFoundIn (image_at S.Start) };

    /// What the file system answers is not known.
    ghost gives = { λ _ _. Unit {0} };

    fn open(self) -> Result<Connection<FileStore<FileFrom<S>>>, OpenError> {
        let Database { rt, path, start } = self;
        if is_stray_byte(rt, path) {
            return Err(OpenError::Refused(DatabaseFault::NoBook));
        }
        match Connection::open_from(&rt, path, false, start) {
            Ok(connection) => Ok(connection),
            Err((error, _)) => Err(open_error(error)),
        }
    }
}

/// Whether the file is a single byte other than 0. SQLite takes it for an empty database, and would write over it; a byte of
/// 0 is left where a call is killed while it makes the database.
fn is_stray_byte(rt: HostRuntime, path: &str) -> bool {
    let mut files = RealFiles::new(rt.alloc(), rt);
    match files.read(path, 1) {
        Ok(bytes) => matches!(bytes.as_slice(), [byte] if *byte != 0),
        Err(_) => false,
    }
}

/// Why the database was not opened.
fn open_error(error: Error) -> OpenError {
    match error {
        Error::SqliteFailure(ErrorCode::OutOfMemory) => OpenError::Memory,
        Error::SqliteFailure(ErrorCode::DatabaseBusy) => OpenError::Refused(DatabaseFault::Locked),
        Error::SqliteFailure(ErrorCode::NotADatabase | ErrorCode::DatabaseCorrupt) => {
            OpenError::Refused(DatabaseFault::NoBook)
        }
        _ => OpenError::Refused(DatabaseFault::NoAccess),
    }
}
