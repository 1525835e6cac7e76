//! Adds lemmas to the logs that the rows list, and prints what came of each.
//!
//! A row is a statement: a word, and numbers, with one blank between them. A literal is a variable's number, or for its
//! negation the negative number; a clause has its number by its place in the list, from 1 on.
//!
//! | statement | what it does |
//! |---|---|
//! | `clause LITERAL ..` | There is a clause more. |
//! | `log VARIABLES FREE` | Begins a log over the clauses so far, and lets go of an earlier one. |
//! | `lemma LITERAL .. by HINT ..` | Adds a lemma, whose hints are numbers of clauses. Prints its number, and whether the clauses are refuted, or why the lemma is refused. |
//!
//! A row that begins with `#` is printed, and an empty one is left out. The rows and what has to be printed come from
//! `tests/lemmas.py`.
ghost use Rattle.std.specs.Prelude.{IsTrue};
ghost use Rattle.clause_store.specs.Clauses.{AreOver};

use crate::literals::{MANY, add_clause, has_room, is_over, literals};
use anyhow::{Context, Result, bail};
use clause_store::{ClauseStore, Lit};
use lrat_checker::{CheckError, Checker};
use std::alloc::Global;
use std::{io, mem};

/// The clauses that wait for a log, and the log that was begun last.
#[derive(Drop)]
pub(crate) struct Case {
    clauses: ClauseStore,
    log: Option<Checker>,
}

impl Case {
    /// No clause waits, and no log was begun.
    pub(crate) fn new(alloc: Global) -> Case {
        Case {
            clauses: ClauseStore::new(alloc),
            log: None,
        }
    }
}

/// Whether all clauses name variables from 1 to this one.
fn are_over(clauses: &ClauseStore, count: u32) -> bool
    ensures { IsTrue result → AreOver count clauses.now }
{
    for place in 0..clauses.len() {
        if !is_over(clauses.clause(place + 1), count) {
            return false;
        }
    }
    true
}

/// The hints that the words of a text are.
fn hints(alloc: Global, text: &str) -> Result<Vec<u32>> {
    let mut list = Vec::new(alloc);
    for word in text.split_ascii_whitespace() {
        list.push(word.parse::<u32>().ok().context("no hint")?)?;
    }
    Ok(list)
}

/// Begins a log over the clauses that wait.
fn begin_log(alloc: Global, case: &mut Case, variables: u32, free: u32) -> Result<()> {
    let clauses = mem::replace(&mut case.clauses, ClauseStore::new(alloc));
    if free > variables || !are_over(&clauses, variables) {
        bail!("no such variables");
    }
    case.log = Some(Checker::new(alloc, clauses, variables, free)?);
    Ok(())
}

/// Adds a lemma to a log.
fn add_lemma(log: &mut Checker, lemma: &[Lit], hints: &[u32]) -> Result<Result<(), CheckError>> {
    if !has_room(log.store(), lemma.len()) || hints.len() >= MANY as usize {
        bail!("too many lemmas");
    }
    Ok(log.add(lemma, hints))
}

/// Prints what came of a lemma.
fn tell<R: Print>(rt: &R, log: &Checker, added: Result<(), CheckError>) -> io::Result<()> {
    match added {
        Ok(()) if log.refuted() => println!(rt; "{} refuted", log.store().len()),
        Ok(()) => println!(rt; "{}", log.store().len()),
        Err(refusal) => println!(rt; "{refusal:?}"),
    }
}

/// The two numbers of a text.
fn pair_of(text: &str) -> Option<(u32, u32)> {
    let (first, second) = text.split_once(' ')?;
    Some((first.parse::<u32>().ok()?, second.parse::<u32>().ok()?))
}

/// Carries out a statement.
pub(crate) fn carry_out<R: Print + AllocGlobal>(rt: &R, case: &mut Case, line: &str) -> Result<()> {
    let (verb, rest) = line.split_once(' ').unwrap_or((line, ""));
    match verb {
        "" => Ok(()),
        "#" => Ok(println!(rt; "{line}")?),
        "clause" => add_clause(&mut case.clauses, literals(rt.alloc(), rest)?.as_slice()),
        "log" => {
            let (variables, free) = pair_of(rest).context("no numbers")?;
            begin_log(rt.alloc(), case, variables, free)
        }
        "lemma" => {
            let (lemma, named) = rest.split_once("by").context("no hints")?;
            let lemma = literals(rt.alloc(), lemma)?;
            let hints = hints(rt.alloc(), named)?;
            let log = case.log.as_mut().context("no log")?;
            let added = add_lemma(log, lemma.as_slice(), hints.as_slice())?;
            Ok(tell(rt, log, added)?)
        }
        _ => bail!("no statement"),
    }
}
