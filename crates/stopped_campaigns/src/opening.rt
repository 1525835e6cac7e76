//! A keeper that opens its database at its first load.
use crate::tests::{Stopping, stopping_files};
use keeper_opening::{DatabaseFault, OpenError, Opener, OpeningKeeper};
use mcy_keeper::{KeepError, Keeper};
use sqlite::{Alter, Connection, FileStore, Options};
use std::alloc::Global;
use std::process::Abort;
use std::test::Fail;

/// A database in memory, or one that is refused.
#[derive(Drop)]
struct InMemory {
    alloc: Global,
    refused: Option<DatabaseFault>,
}

impl Opener<FileStore<Stopping>> for InMemory {
    ghost found = { λ _ trees. Unit {0} };

    ghost gives = { λ _ _. Unit {0} };

    fn open(self) -> Result<Connection<FileStore<Stopping>>, OpenError> {
        if let Some(fault) = self.refused {
            return Err(OpenError::Refused(fault));
        }
        let files = stopping_files(self.alloc, u64::MAX, u64::MAX);
        if !files.may_be_used() {
            return Err(OpenError::Memory);
        }
        match Connection::open_files(self.alloc, files, Options::new(7)) {
            Ok(connection) => Ok(connection),
            Err(refused) => {
                drop(refused);
                Err(OpenError::Memory)
            }
        }
    }
}

/// A keeper over what this opener opens has a connection just where it `loads`.
fn connects<S: Alter + Drop, O: Opener<S>>(
    rt: &impl Abort,
    alloc: Global,
    opener: O,
    loads: bool,
) -> Result<(), KeepError> {
    let mut keeper: OpeningKeeper<S, O> = OpeningKeeper::new(alloc, opener);
    if loads {
        assert!(rt; keeper.load()?.is_blank());
        assert!(rt; keeper.load()?.is_blank());
    }
    assert_eq!(rt; keeper.settled(), loads);
    assert_eq!(rt; keeper.fault(), None);
    assert_eq!(rt; keeper.into_connection().is_some(), loads);
    Ok(())
}

/// The loads of a keeper over what this opener opens are faults for this cause.
fn fails<S: Alter + Drop, O: Opener<S>>(
    rt: &impl Abort,
    alloc: Global,
    opener: O,
    cause: DatabaseFault,
) {
    let mut keeper: OpeningKeeper<S, O> = OpeningKeeper::new(alloc, opener);
    for _ in [1, 2] {
        assert!(rt; matches!(keeper.load(), Err(KeepError::Fault)));
        assert_eq!(rt; keeper.fault(), Some(cause));
    }
}

#[test]
fn a_keeper_has_a_connection_after_its_first_load_alone(rt: HostRuntime) -> Result<(), Fail> {
    let alloc = rt.alloc();
    for loads in [false, true] {
        let opener = InMemory {
            alloc,
            refused: None,
        };
        connects(&rt, alloc, opener, loads)?;
    }
    Ok(())
}

#[test]
fn a_refused_database_is_a_fault_with_its_cause(rt: HostRuntime) -> Result<(), Fail> {
    let alloc = rt.alloc();
    let cause = DatabaseFault::Locked;
    let opener = InMemory {
        alloc,
        refused: Some(cause),
    };
    fails(&rt, alloc, opener, cause);
    Ok(())
}
