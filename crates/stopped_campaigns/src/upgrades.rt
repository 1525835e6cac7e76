//! Campaigns over a database of the first format that stop in the midst of the migration to the second.
use crate::tests::{MOST_CALLS, Stopping, crashed, gone_on, opened, run_over, stopping_files};
use mcy_keeper::KeepError;
use sqlite::Files;
use sqlite_disk::{Disk, Fuse, Memory};
use std::alloc::Global;
use std::io;
use std::process::Abort;
use std::test::Fail;

/// What makes a database of the first format of one of the second: that of an older program has these three tables alone.
const TO_FIRST: &str =
    "BEGIN; INSERT INTO journal SELECT seq, mutation, test, word, mark, tags FROM journal2; DROP TABLE journal2; UPDATE meta SET body = x'31' WHERE item = 0; COMMIT";

/// The rows of the second format that have the project's limit.
const BOUNDED: &str =
    "SELECT count(*) FROM journal2 WHERE bound = 20000 AND (SELECT count(*) FROM journal) = 0 AND (SELECT body FROM meta WHERE item = 0) = x'32'";

/// The database in these files made one of the first format. What is left of them.
fn to_first<D: Disk + Drop>(
    rt: &impl Abort,
    alloc: Global,
    files: Files<D>,
) -> Result<Files<D>, KeepError> {
    let Ok(mut connection) = opened(rt, alloc, files) else {
        return Err(KeepError::Fault);
    };
    assert!(rt; connection.execute_batch(TO_FIRST).is_ok());
    Ok(connection.into_store().close())
}

/// A file of the same bytes, which stops after so many calls.
fn stopping_copy(alloc: Global, file: &Stopping, calls: u64) -> io::Result<Stopping> {
    let mut copy = Memory::new(alloc);
    copy.write_at(0, file.inner().bytes())?;
    copy.sync()?;
    Ok(Fuse::new(copy, calls))
}

/// The files of a finished campaign of the first format, each of which stops after so many calls.
fn first_files(
    rt: &impl Abort,
    alloc: Global,
    log_calls: u64,
    db_calls: u64,
) -> Result<Files<Stopping>, Fail> {
    let files = stopping_files(alloc, u64::MAX, u64::MAX);
    let (is_done, left) = run_over(rt, alloc, "-j1", files)?;
    assert!(rt; is_done);
    let first = to_first(rt, alloc, left)?;
    Ok(Files {
        log: stopping_copy(alloc, &first.log, log_calls)?,
        db: stopping_copy(alloc, &first.db, db_calls)?,
    })
}

/// How many rows of these files have the project's limit, in the second format.
fn bounded_rows<D: Disk + Drop>(
    rt: &impl Abort,
    alloc: Global,
    files: Files<D>,
) -> Result<i64, KeepError> {
    let Ok(mut connection) = opened(rt, alloc, files) else {
        return Err(KeepError::Fault);
    };
    let rows = match connection.query_row(BOUNDED, &[]) {
        Ok(row) => row.get(0).unwrap_or(0),
        Err(_) => 0,
    };
    Ok(rows)
}

/// Stops a run over a database of the first format after so many calls. After the crash the next run ends, with the text of the
/// finished campaign and each row under its bound. Whether the first one did.
fn stop_and_upgrade(
    rt: &impl Abort,
    alloc: Global,
    log_calls: u64,
    db_calls: u64,
) -> Result<bool, Fail> {
    let files = first_files(rt, alloc, log_calls, db_calls)?;
    let (is_done, left) = run_over(rt, alloc, "-j1", files)?;
    let left = gone_on(rt, alloc, "-j3", left)?;
    assert_eq!(rt; bounded_rows(rt, alloc, crashed(left))?, 3);
    Ok(is_done)
}

#[test]
fn a_migration_stopped_at_any_call_of_the_disk_leaves_the_old_book_or_the_new_one(
    rt: HostRuntime,
) -> Result<(), Fail> {
    let alloc = rt.alloc();
    for of_log in [true, false] {
        let mut is_done = false;
        for calls in 0..MOST_CALLS {
            let (log_calls, db_calls) = if of_log {
                (calls, u64::MAX)
            } else {
                (u64::MAX, calls)
            };
            is_done = stop_and_upgrade(&rt, alloc, log_calls, db_calls)?;
            if is_done {
                break;
            }
        }
        assert!(rt; is_done);
    }
    Ok(())
}
