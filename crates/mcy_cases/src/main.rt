//! Calls of `mcy_call` over files, a keeper and a sink in memory, as the lines of standard input list them.
//!
//! A line is a statement: a word, and what belongs to it, with one blank between words.
//!
//! | statement | what it does |
//! |---|---|
//! | `call WORD ..` | Makes the call, and prints its exit status and line, the text, and what the book has then. |
//! | `book` | Prints the items of the book. |
//! | `command WORD ..` | Prints the command that the words give. |
//! | `events SLOTS WORD ..` | Makes the call over an empty book, and drives the same campaign in so many slots by the events of a core. Prints how many rows the call left and how many the events, and how many are the same from the first one on. |
//!
//! `call_stage` has the statements that prepare the next call. `''` is the empty word. A line that begins with `#` is printed, and an empty one is left out.
#![tactic(auto)]

mod events;
mod telling;

use call_stage::{Stage, World, tell_book, tell_items, tell_text};
use events::run_by_events;
use mcy_top::{Outcome, exit_status, mcy_call, read_words};
use std::alloc::{AllocError, Global};
use std::io;
use telling::{tell_alike, tell_outcome};

/// The words of a line.
fn words_of(alloc: Global, line: &str) -> Result<Vec<String>, AllocError> {
    let mut words = Vec::new(alloc);
    for word in line.split_whitespace() {
        let word = if word == "''" { "" } else { word };
        words.push(word.to_owned(alloc)?)?;
    }
    Ok(words)
}

/// Prints how a call went, and the text and the book that it left.
fn tell_call<R: Print + AllocGlobal>(rt: &R, world: &World, outcome: &Outcome) -> io::Result<()> {
    tell_outcome(rt, outcome)?;
    tell_text(rt, world.out.seen())?;
    tell_book(rt, world.keeper.held())
}

/// Makes the call with these words, and prints how it went.
fn make<R: Print + AllocGlobal>(rt: &R, world: &mut World, words: &[String]) -> io::Result<()> {
    let outcome = mcy_call(
        rt.alloc(),
        words,
        &mut world.files,
        &mut world.keeper,
        &mut world.out,
    );
    tell_call(rt, world, &outcome)
}

/// Makes the call with these words over what the stage has, prints how it went, and keeps the book that it left.
fn make_on<R: Print + AllocGlobal>(rt: &R, stage: &mut Stage, words: &[String]) -> io::Result<()> {
    let mut world = stage.world()?;
    make(rt, &mut world, words)?;
    stage.keep(world.keeper.held())?;
    Ok(())
}

/// Makes the call that a line gives behind a number of slots, and drives the campaign in so many by events. Prints how alike they are.
fn compare_events<R: Print + AllocGlobal>(rt: &R, stage: &Stage, line: &str) -> io::Result<()> {
    let (slots, words) = line.split_once(' ').unwrap_or((line, ""));
    let words = words_of(rt.alloc(), words)?;
    let mut called = stage.world()?;
    let outcome = mcy_call(
        rt.alloc(),
        words.as_slice(),
        &mut called.files,
        &mut called.keeper,
        &mut called.out,
    );
    let mut driven = stage.world()?;
    let end = run_by_events(
        rt.alloc(),
        &mut driven.files,
        &mut driven.keeper,
        slots.parse::<u32>().unwrap_or(0),
    );
    println!(rt; "> events {line}: {} {end:?}", exit_status(&outcome))?;
    tell_alike(rt, called.keeper.held(), driven.keeper.held())
}

/// Makes the call that a line gives.
fn make_call<R: Print + AllocGlobal>(rt: &R, stage: &mut Stage, line: &str) -> io::Result<()> {
    let words = words_of(rt.alloc(), line)?;
    println!(rt; "> {line}")?;
    make_on(rt, stage, words.as_slice())
}

/// Prints the command that the words give, and the mutations that they name.
fn tell_command<R: Print + AllocGlobal>(rt: &R, line: &str) -> io::Result<()> {
    let words = words_of(rt.alloc(), line)?;
    let asked = read_words(rt.alloc(), &words)?;
    let command = asked.as_ref().map(|asked| asked.command);
    match &asked {
        Some(asked) if !asked.mutations.as_slice().is_empty() => {
            println!(rt; "{line}: {command:?} of {:?}", asked.mutations.as_slice())
        }
        _ => println!(rt; "{line}: {command:?}"),
    }
}

/// Carries out a statement.
fn carry_out<R: Print + AllocGlobal>(rt: &R, stage: &mut Stage, line: &str) -> io::Result<()> {
    let (verb, rest) = line.split_once(' ').unwrap_or((line, ""));
    match verb {
        "" => Ok(()),
        "#" => println!(rt; "# {rest}"),
        "call" => make_call(rt, stage, rest),
        "book" => tell_items(rt, stage.book()),
        "command" => tell_command(rt, rest),
        "events" => compare_events(rt, stage, rest),
        _ => {
            if !stage.prepare(verb, rest)? {
                println!(rt; "no statement: {line}")?;
            }
            Ok(())
        }
    }
}

/// Carries out the statements of all lines.
fn carry_out_all<R: Print + Input + AllocGlobal>(rt: &R, stage: &mut Stage) -> io::Result<()> {
    for line in rt.lines(rt.alloc()) {
        carry_out(rt, stage, line?.as_str())?;
    }
    Ok(())
}

fn main(rt: HostRuntime) -> io::Result<()> {
    let mut stage = Stage::new(rt.alloc());
    carry_out_all(&rt, &mut stage)
}
