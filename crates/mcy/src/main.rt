//! `mcy`: one call over the real files, standard output and the database of the current folder.
//!
//! The words, the files, the sink and the database are made here and nowhere else. What the call does is
//! `call_on_file`'s. Where standard error is a terminal, a `Meter` tells there how far the campaign is and what to do next, and
//! `hint_text` where a refusal is, with a hint.
#![tactic(auto)]

use file_calls::{Outcome, call_on_file, exit_status, failing_baselines, fault_line};
use keeper_file::{Database, close_keeper};
use keeper_opening::DatabaseFault;
use mcy_base::Bytes;
use mcy_outside::{RealFiles, RealSink, Sink};
use mcy_terminal::{Look, Meter, asked_of, words_of};
use outcome_hints::hint_text;
use sqlite::{Start, Unknown};
use std::io::{self, IsTerminal};
use std::process::ExitCode;

/// The file of the database, in the current folder.
const DATABASE: &str = "mcy.db";

/// The line that tells why the database has failed, behind the one of the outcome.
fn database_line(fault: DatabaseFault) -> &'static str {
    match fault {
        DatabaseFault::Locked => "mcy: mcy.db: locked\n",
        DatabaseFault::NoBook => "mcy: mcy.db: another program's, or damaged\n",
        DatabaseFault::NoAccess => "mcy: mcy.db: cannot be read or written\n",
    }
}

/// The benches that do not pass with the design itself, over the real files.
#[derive(Drop)]
struct Benches {
    rt: HostRuntime,
}

impl Look for Benches {
    fn lines(&mut self) -> Option<Bytes> {
        let alloc = self.rt.alloc();
        failing_baselines(alloc, &mut RealFiles::new(alloc, self.rt)).ok()
    }
}

/// How a call has ended.
#[derive(Drop)]
struct Ended {
    outcome: Outcome,
    /// Why the database has failed, if it has.
    fault: Option<DatabaseFault>,
}

/// The call over the real files, standard output and the database. It then copies the database's log into
/// its file, so that the file alone has all rows. `S` stands for what the database holds when the call begins: what is proved of
/// the call is so for every content.
fn call_here<S: Start>(rt: HostRuntime, words: &[String], start: S) -> Ended {
    let alloc = rt.alloc();
    let asked = asked_of(alloc, words);
    let meter = Meter::new(rt, alloc, Benches { rt }, rt.stderr().is_terminal(), asked);
    let mut out = RealSink::new(rt.stdout());
    let mut files = RealFiles::new(alloc, rt);
    let database = Database::new(rt, DATABASE, start);
    let (outcome, keeper, mut meter) = call_on_file(
        alloc, database, words, &mut files, meter, &mut out,
    );
    match &outcome {
        // The line was cleared after the last row; what stands now is the text.
        Outcome::Done | Outcome::RequirementMissed | Outcome::Unfinished(_) => {
            meter.tell_next(&mut files)
        }
        _ => meter.end(),
    }
    let fault = keeper.fault();
    // A log that was not copied stays beside the file, and the next call finds its rows.
    drop(close_keeper(keeper));
    Ended { outcome, fault }
}

/// The call over the words that the program was called with. Of what the database holds nothing is known (`Unknown`).
fn call_of_words(rt: HostRuntime) -> Ended {
    let outcome = match words_of(&rt) {
        Ok(words) => return call_here(rt, &words, Unknown),
        Err(error) if error.kind() == io::ErrorKind::OutOfMemory => Outcome::Memory,
        Err(_) => Outcome::Usage,
    };
    Ended {
        outcome,
        fault: None,
    }
}

/// Writes what a terminal is told behind the line of an outcome.
fn tell_hint<O: Sink>(rt: HostRuntime, errors: &mut O, outcome: &Outcome) {
    let alloc = rt.alloc();
    if let Ok(text) = hint_text(alloc, &mut RealFiles::new(alloc, rt), outcome) {
        let _written = errors.write_all(text.as_slice());
    }
}

fn main(rt: HostRuntime) -> ExitCode {
    let mut errors = RealSink::new(rt.stderr());
    let Ended { outcome, fault } = call_of_words(rt);
    // The status tells the outcome where a line cannot be written.
    if let Ok(line) = fault_line(rt.alloc(), &outcome) {
        let _written = errors.write_all(line.as_slice());
    }
    if let Some(fault) = fault {
        let _written = errors.write_all(database_line(fault).as_bytes());
    }
    if rt.stderr().is_terminal() {
        tell_hint(rt, &mut errors, &outcome);
    }
    ExitCode::from(exit_status(&outcome))
}
