//! What a tag script says, and what it asks by some words of its tests, or why it is refused. The tests are `t`, `u` and `t`, the tags
//! `X` and `Y`.
use crate::statements::push_statements;
use crate::texts::{lines, texts};
use anyhow::Result;
use std::alloc::{AllocError, Global};
use tag_script::{Results, Script, ScriptError, ask, read_script};

/// The words of two tests, as far as they have some.
fn results(first: Option<u32>, second: Option<u32>) -> Results {
    let mut results = Results::empty();
    if let Some(word) = first
        && word < 4
    {
        results = results.set_word(0, word);
    }
    if let Some(word) = second
        && word < 4
    {
        results = results.set_word(1, word);
    }
    results
}

/// Adds what a script asks by these words of its tests, or how it ends, behind a blank but at the start.
fn push_asked(
    alloc: Global,
    told: &mut String,
    script: &Script,
    results: &Results,
) -> Result<(), AllocError> {
    if !told.as_str().is_empty() {
        told.push(' ')?;
    }
    let asked = ask(script, &[11, 15, 15], results);
    let said = format!(in alloc; "{asked:?}")?;
    told.push_str(said.as_str())
}

/// Adds what a script asks by this word of its first test.
fn push_asks(
    alloc: Global,
    told: &mut String,
    script: &Script,
    first: Option<u32>,
) -> Result<(), AllocError> {
    for second in [None, Some(0), Some(1), Some(3)] {
        push_asked(alloc, told, script, &results(first, second))?;
    }
    Ok(())
}

/// Adds what a script asks by the words of its tests. HANG is not expected of the first.
fn push_all(alloc: Global, told: &mut String, script: &Script) -> Result<(), AllocError> {
    for first in [None, Some(0), Some(1), Some(2)] {
        push_asks(alloc, told, script, first)?;
    }
    Ok(())
}

/// What a script asks, or how it ends, by the words of its tests.
fn asks(alloc: Global, script: &Script) -> Result<String, AllocError> {
    let mut told = String::new(alloc);
    push_all(alloc, &mut told, script)?;
    Ok(told)
}

/// The statements of a script.
fn said(alloc: Global, script: &Script) -> Result<String, AllocError> {
    let mut told = String::from_str(alloc, "script")?;
    push_statements(alloc, &mut told, script.statements.as_slice())?;
    Ok(told)
}

/// Prints the statements of a script, and what it asks.
fn tell_said<R: Print + AllocGlobal>(rt: &R, script: &Script) -> Result<()> {
    let said = said(rt.alloc(), script)?;
    let asks = asks(rt.alloc(), script)?;
    println!(rt; "{}", said.as_str())?;
    Ok(println!(rt; "{}", asks.as_str())?)
}

/// Prints a script, or why it is refused.
fn tell_read<R: Print + AllocGlobal>(rt: &R, read: &Result<Script, ScriptError>) -> Result<()> {
    match read {
        Ok(script) => tell_said(rt, script),
        Err(fault) => Ok(println!(rt; "{fault:?}")?),
    }
}

/// The script of a text.
fn read(alloc: Global, text: &str) -> Result<Result<Script, ScriptError>, AllocError> {
    let lines = lines(alloc, text)?;
    let tests = texts(alloc, &["t", "u", "t"])?;
    let tags = texts(alloc, &["X", "Y"])?;
    Ok(read_script(alloc, &lines, &tests, &tags))
}

/// Prints what a script is.
pub(crate) fn tell_script<R: Print + AllocGlobal>(rt: &R, text: &str) -> Result<()> {
    let read = read(rt.alloc(), text)?;
    tell_read(rt, &read)
}
