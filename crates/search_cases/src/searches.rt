//! Searches for models of the miters that the rows list, and prints what came of each.
//!
//! A row is a statement: a word, and numbers, with one blank between them. A literal is a variable's number, or for its
//! negation the negative number (DIMACS CNF).
//!
//! | statement | what it does |
//! |---|---|
//! | `clause LITERAL ..` | There is a clause more. |
//! | `search VARIABLES FREE LIMIT CONFLICTS` | Makes a miter of the clauses so far, or prints why they make none, and lets go of them. Searches by turns of so many conflicts, with a line for each that found nothing. Prints the model's literals, or the lemmas and whether the last one refutes the clauses or the limit is spent. |
//!
//! A row that begins with `#` is printed, and an empty one is left out. The rows and what has to be printed come from
//! `tests/searches.py`.
mod miter;
mod settling;

ghost use Rattle.std.specs.Prelude.{◌≡◌, ◌<◌, IfOk};
ghost use Rattle.sat_solver.specs.Found.{IsRunning, Finds};

use crate::literals::{add_clause, literals};
use crate::searches::miter::miter;
use anyhow::{Context, Result, bail};
use clause_encoder::Miter;
use clause_store::{ClauseStore, Lit};
use sat_solver::{Assignment, Attempt, Found, Refutation, Search};
use std::{io, mem};

/// A search that is asked for.
#[derive(Drop)]
struct Question {
    variables: u32,
    free: u32,
    limit: u32,
    conflicts: u32,
}

/// The two texts about a blank.
fn parted(text: &str) -> Option<(u32, &str)> {
    let (word, rest) = text.split_once(' ')?;
    Some((word.parse::<u32>().ok()?, rest))
}

/// The question that the four numbers of a text ask.
fn read_question(text: &str) -> Option<Question> {
    let (variables, text) = parted(text)?;
    let (free, text) = parted(text)?;
    let (limit, text) = parted(text)?;
    let conflicts = text.parse::<u32>().ok()?;
    Some(Question {
        variables,
        free,
        limit,
        conflicts,
    })
}

/// Prints a lemma.
fn tell_lemma<R: Print>(rt: &R, lemma: &[Lit]) -> io::Result<()> {
    print!(rt; "lemma")?;
    for l in lemma {
        print!(rt; " {l}")?;
    }
    println!(rt; "")
}

/// Prints a refutation.
fn tell_refutation<R: Print>(rt: &R, refutation: &Refutation) -> io::Result<()> {
    for number in 0..refutation.len() {
        tell_lemma(rt, refutation.lemma(number))?;
    }
    println!(rt; "refuted")
}

/// Prints an attempt.
fn tell_attempt<R: Print>(rt: &R, attempt: &Attempt) -> io::Result<()> {
    for number in 0..attempt.len() {
        tell_lemma(rt, attempt.lemma(number))?;
    }
    println!(rt; "spent")
}

/// Prints a model by its literals.
fn tell_model<R: Print>(rt: &R, assignment: &Assignment, variables: u32) -> io::Result<()> {
    print!(rt; "model")?;
    for v in 1..=variables {
        print!(rt; " {}{v}", if assignment.is_true(v) { "" } else { "-" })?;
    }
    println!(rt; "")
}

/// Prints what a search found.
fn tell<R: Print>(rt: &R, search: Search, found: Found, asked: &Question) -> io::Result<()>
    requires found { Finds search found }
    requires limit { search.limit ≡ asked.now.limit }
{
    match found {
        Found::Model(assignment) => tell_model(rt, &assignment, asked.variables),
        Found::Refuted => tell_refutation(rt, &Refutation::new(search.into_checker())),
        Found::Spent => tell_attempt(rt, &Attempt::new(search.into_checker(), asked.limit)),
    }
}

/// Searches until something is found, and prints a line for each turn that found nothing.
fn find<R: Print>(rt: &R, search: &mut Search, asked: &Question) -> Result<Found>
    requires running { IsRunning search.old }
    requires some { 0 < asked.now.conflicts }
    ensures { IfOk result (λ found. Finds search.new found × (search.new.limit ≡ search.old.limit)) }
{
    for _turn in 0..asked.limit {
        if let Some(found) = search.turn(asked.conflicts)? {
            return Ok(found);
        }
        println!(rt; "searching")?;
    }
    bail!("no end")
}

/// Searches for a model of a miter.
fn search<R: Print + AllocGlobal>(rt: &R, miter: Miter, asked: &Question) -> Result<()> {
    if asked.limit == 0 || asked.limit > 100_000 || asked.conflicts == 0 {
        bail!("no such limit");
    }
    let mut search = Search::new(rt.alloc(), miter, asked.limit)?;
    let found = find(rt, &mut search, asked)?;
    Ok(tell(rt, search, found, asked)?)
}

/// Searches for a model of the clauses that wait.
fn ask<R: Print + AllocGlobal>(rt: &R, clauses: ClauseStore, asked: &Question) -> Result<()> {
    match miter(rt.alloc(), clauses, asked.variables, asked.free)? {
        Ok(miter) => search(rt, miter, asked),
        Err(reason) => Ok(println!(rt; "{reason:?}")?),
    }
}

/// Carries out a statement.
pub(crate) fn carry_out<R: Print + AllocGlobal>(
    rt: &R,
    clauses: &mut ClauseStore,
    line: &str,
) -> Result<()> {
    let (verb, rest) = line.split_once(' ').unwrap_or((line, ""));
    match verb {
        "" => Ok(()),
        "#" => Ok(println!(rt; "{line}")?),
        "clause" => add_clause(clauses, literals(rt.alloc(), rest)?.as_slice()),
        "search" => {
            let asked = read_question(rest).context("no numbers")?;
            let clauses = mem::replace(clauses, ClauseStore::new(rt.alloc()));
            ask(rt, clauses, &asked)
        }
        _ => bail!("no statement"),
    }
}
