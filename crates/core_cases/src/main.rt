//! Runs campaigns whose tests give their words after so many turns, and prints the rows in the order in which they were added.
//!
//! A line is a word and five numbers, `rows MUTATIONS TESTS SLOTS TURNS STOP`. The script asks all tests of each mutation, one after the
//! other. Test t of mutation m takes TURNS - m - t turns that give no word, where that is more than 0, and then its word is FAIL. The run
//! ends at STOP rows, or where STOP is 0 with the last one. Each row is printed as MUTATION.TEST, and behind them how many tests were started.
//! `count` in place of `rows` prints how many rows there are. The lines and what has to be printed come from `tests/slots.py`.
#![tactic(auto)]

mod making;
mod ready;
mod running;

use anyhow::{Context, Result, bail};
use making::{MAX_MUTATIONS, MAX_TESTS, make_campaign};
use mcy_keeper::Entry;
use ready::Ready;
use running::run;
use std::alloc::Global;
use std::marker::Brand;
use std::sync::ledger::Blank;

/// A campaign, and where its run ends.
#[derive(Clone, Copy)]
struct Case {
    mutations: u32,
    tests: u32,
    slots: u32,
    turns: u32,
    stop: u32,
}

/// The case whose numbers the words of a text are.
fn case_of(text: &str) -> Option<Case> {
    let mut words = text.split_ascii_whitespace();
    Some(Case {
        mutations: words.next()?.parse::<u32>().ok()?,
        tests: words.next()?.parse::<u32>().ok()?,
        slots: words.next()?.parse::<u32>().ok()?,
        turns: words.next()?.parse::<u32>().ok()?,
        stop: words.next()?.parse::<u32>().ok()?,
    })
}

/// Prints the rows.
fn tell_rows<R: Print>(rt: &R, rows: &[Entry]) -> Result<()> {
    for row in rows {
        print!(rt; "{}.{} ", row.mutation, row.test)?;
    }
    Ok(())
}

/// Runs the campaign of these numbers, and prints its rows or their number.
fn answer<R: Print + AllocGlobal>(rt: &R, counts: bool, of: &Case) -> Result<()> {
    if of.mutations > MAX_MUTATIONS || of.tests > MAX_TESTS || of.slots < 1 || of.slots > 64 {
        bail!("too many");
    }
    let alloc = rt.alloc();
    let campaign = make_campaign(alloc, of.mutations, of.tests)?.context("no script")?;
    let tester = Ready {
        mutations: of.mutations,
        tests: of.tests,
        turns: of.turns,
    };
    let stop = if of.stop == 0 { None } else { Some(of.stop) };
    let Ok(ran) = run::<Brand>(alloc, &campaign, tester, of.slots, stop, Blank::new(1)) else {
        bail!("no memory");
    };
    let rows = ran.keeper.held().journal.as_slice();
    if counts {
        print!(rt; "{} rows, ", rows.len())?;
    } else {
        tell_rows(rt, rows)?;
    }
    println!(rt; "started {}", ran.started)?;
    Ok(())
}

fn main(rt: HostRuntime) -> Result<()> {
    for line in rt.lines(rt.alloc()) {
        let line = line?;
        let (word, rest) = line.as_str().split_once(' ').context("no numbers")?;
        let of = case_of(rest).context("no numbers")?;
        answer(&rt, word == "count", &of)?;
    }
    Ok(())
}
