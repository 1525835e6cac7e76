//! Campaigns over files in memory that stop at a call of the disk.
//!
//! What makes, runs and ends a keeper is generic in the store, and what opens a database in the disk, so that each is proved over one of
//! which nothing is known, and no function lets a keeper go: it is ended, and gives its database back. All tests are over one disk,
//! `Stopping`, since a test program holds all of SQLite once for each disk that it names.
use keeper_sqlite::SqlKeeper;
use mcy_base::{Bytes, FileList, SourceFile, Text};
use mcy_keeper::{KeepError, Keeper};
use mcy_outside::{CleanFiles, MemorySink};
use mcy_top::{Outcome, mcy_call};
use sqlite::{Alter, Connection, FileStore, Files, Options};
use sqlite_disk::{Crash, Disk, Fuse, Memory};
use std::alloc::{AllocError, Global};
use std::process::Abort;
use std::test::Fail;

const PROJECT: &str =
    "[options]\nsize 10\nmodes inv\ntags CHANGED NOCHANGE\n[script]\nread_verilog g.v\nprep -top g\n[files]\ng.v\n[logic]\nif result(\"same\") == \"PASS\":\n    tag(\"NOCHANGE\")\nelse:\n    tag(\"CHANGED\")\n[test same]\neq\nexpect PASS FAIL\n";

const AND_GATE: &str = "module g(input a, input b, output y);\n  assign y = a & b;\nendmodule\n";

/// The text of the finished campaign.
const FINISHED: &str =
    "Mutations: 3\nFinished: 3\nTest same: PASS 0 FAIL 3 UNKNOWN 0\nTag CHANGED: 3\nTag NOCHANGE: 0\nAsserts: 0\nUnexpected: 0\n";

fn file(alloc: Global, name: &str, text: &str) -> Result<SourceFile, AllocError> {
    Ok(SourceFile {
        name: Text::copy(alloc, name)?,
        bytes: Bytes::copy(alloc, text.as_bytes())?,
    })
}

/// The project and the and gate.
fn campaign(alloc: Global) -> Result<CleanFiles, AllocError> {
    let mut files = Vec::new(alloc);
    files.push(file(alloc, "config.mcy", PROJECT)?)?;
    files.push(file(alloc, "g.v", AND_GATE)?)?;
    Ok(CleanFiles::new(alloc, FileList::from_vec(files)))
}

/// The outcome and the text of a run with this option.
fn run<K: Keeper>(
    alloc: Global,
    slots: &str,
    keeper: &mut K,
) -> Result<(Outcome, MemorySink), AllocError> {
    let mut words = Vec::new(alloc);
    words.push("run".to_owned(alloc)?)?;
    words.push(slots.to_owned(alloc)?)?;
    let mut files = campaign(alloc)?;
    let mut out = MemorySink::new(Vec::new(alloc), Vec::with_capacity(alloc, 1000)?);
    let outcome = mcy_call(alloc, &words, &mut files, keeper, &mut out);
    Ok((outcome, out))
}

/// Runs the campaign over this keeper. Whether it was done, with its whole text; else the keeper has failed.
fn finishes<K: Keeper>(
    rt: &impl Abort,
    alloc: Global,
    slots: &str,
    keeper: &mut K,
) -> Result<bool, AllocError> {
    let (outcome, out) = run(alloc, slots, keeper)?;
    let is_done = matches!(&outcome, Outcome::Done);
    assert!(rt; is_done || matches!(&outcome, Outcome::KeeperFault));
    assert!(rt; !is_done || out.seen() == FINISHED.as_bytes());
    Ok(is_done)
}

/// The database in these files; where it is not opened, the files.
pub(crate) fn opened<D: Disk + Drop>(
    rt: &impl Abort,
    alloc: Global,
    files: Files<D>,
) -> Result<Connection<FileStore<D>>, Files<D>> {
    assert!(rt; files.may_be_used());
    match Connection::open_files(alloc, files, Options::new(7)) {
        Ok(connection) => Ok(connection),
        Err((_, left)) => Err(left.into_files()),
    }
}

/// Runs the campaign over this database. Whether it was done, and the database.
fn worked<S: Alter + Drop>(
    rt: &impl Abort,
    alloc: Global,
    slots: &str,
    connection: Connection<S>,
) -> (Result<bool, AllocError>, Option<Connection<S>>) {
    let mut keeper = SqlKeeper::adopt(alloc, Some(connection));
    let is_done = finishes(rt, alloc, slots, &mut keeper);
    (is_done, keeper.into_connection())
}

/// The files of this database, as they are.
fn left_of<D: Disk + Drop>(
    connection: Option<Connection<FileStore<D>>>,
) -> Result<Files<D>, KeepError> {
    match connection {
        Some(connection) => Ok(connection.into_store().close()),
        None => Err(KeepError::Fault),
    }
}

/// Runs the campaign over these files, in so many slots as the option says. Whether it was done, with its whole text, and what is left of
/// the files.
pub(crate) fn run_over<D: Disk + Drop>(
    rt: &impl Abort,
    alloc: Global,
    slots: &str,
    files: Files<D>,
) -> Result<(bool, Files<D>), Fail> {
    let connection = match opened(rt, alloc, files) {
        Ok(connection) => connection,
        Err(left) => return Ok((false, left)),
    };
    let (is_done, connection) = worked(rt, alloc, slots, connection);
    let left = left_of(connection)?;
    Ok((is_done?, left))
}

/// A file in memory whose calls fail once so many were made.
pub(crate) type Stopping = Fuse<Memory>;

/// New files: the log and the database, each of which stops after so many calls.
pub(crate) fn stopping_files(alloc: Global, log_calls: u64, db_calls: u64) -> Files<Stopping> {
    Files {
        log: Fuse::new(Memory::new(alloc), log_calls),
        db: Fuse::new(Memory::new(alloc), db_calls),
    }
}

/// The files after a crash: what was not synced is lost, and the calls no longer stop.
pub(crate) fn crashed<D: Crash>(mut files: Files<D>) -> Files<D> {
    files.log.crash();
    files.db.crash();
    files
}

/// Runs the campaign over the files after a crash, in so many slots as the option says, to its end. What is left of them.
pub(crate) fn gone_on<D: Crash + Drop>(
    rt: &impl Abort,
    alloc: Global,
    slots: &str,
    files: Files<D>,
) -> Result<Files<D>, Fail> {
    let (is_done, left) = run_over(rt, alloc, slots, crashed(files))?;
    assert!(rt; is_done);
    Ok(left)
}

/// Stops a campaign's first run after so many calls of the log and of the database. After the crash the
/// next run, with another number of slots, ends it, and a third one finds it as it is. Whether the first one did.
fn stop_and_go_on(
    rt: &impl Abort,
    alloc: Global,
    log_calls: u64,
    db_calls: u64,
) -> Result<bool, Fail> {
    let files = stopping_files(alloc, log_calls, db_calls);
    let (is_done, left) = run_over(rt, alloc, "-j3", files)?;
    let left = gone_on(rt, alloc, "-j1", left)?;
    drop(gone_on(rt, alloc, "-j64", left)?);
    Ok(is_done)
}

/// More calls than a run makes of one file.
pub(crate) const MOST_CALLS: u64 = 2000;

#[test]
fn a_campaign_stopped_at_any_call_of_the_disk_goes_on(rt: HostRuntime) -> Result<(), Fail> {
    let alloc = rt.alloc();
    for (of_log, least) in [(true, 20), (false, 2)] {
        let mut is_done = false;
        for calls in 0..MOST_CALLS {
            let (log_calls, db_calls) = if of_log {
                (calls, u64::MAX)
            } else {
                (u64::MAX, calls)
            };
            is_done = stop_and_go_on(&rt, alloc, log_calls, db_calls)?;
            if is_done {
                assert!(rt; calls > least);
                break;
            }
        }
        assert!(rt; is_done);
    }
    Ok(())
}
