//! Prints the clauses of pairs of netlists that the rows describe, or why there are none, and tests the pairs.
//!
//! A row is a statement: a word, and what belongs to it, with one blank between words. BITS are the bits at a port from
//! bit 0 on, with commas between them: a net by its number, `5..8` for the nets from 5 to 8, `low` and `high` for the
//! constants.
//!
//! | statement | what it does |
//! |---|---|
//! | `input NAME BITS`, `output NAME BITS` | There is an input or an output more. |
//! | `register NAME D Q` | There is a register more, with these bits at D and Q. |
//! | `KIND BITS ..`, `signed KIND BITS ..` | There is a cell more, with these bits at its ports, Y last. |
//! | `original`, `mutant` | The parts so far are the original's or the mutant's, and the next ones another netlist's. |
//! | `encode` | Prints the clauses of the pair in the format of DIMACS, or only how many they are where there are more than 400. |
//! | `test LIMIT TURN` | Tests the pair with at most so many lemmas, by turns of so many, and prints the word of its verdict. |
//! | `detail LIMIT TURN` | The same, with the inputs, registers and the place where the pair differs, or with the number of lemmas. |
//!
//! A row that begins with `#` is printed, and an empty one is left out. The rows and what has to be printed come from
//! `tests/pairs.py`.
mod parts;
mod verdict;

use crate::netlists::no_parts;
use crate::pairs::parts::add_part;
use crate::pairs::verdict::{effort_of, tell_test};
use anyhow::{Context, Result, bail};
use clause_store::ClauseStore;
use netlist_core::{Netlist, RawNetlist, is_formed};
use pair_gates::{EncodeError, encode};
use std::alloc::{AllocError, Global};
use std::{io, mem};

/// The original and the mutant, once they stand, and the parts of what follows.
#[derive(Drop)]
pub(crate) struct Case {
    original: Option<Netlist>,
    mutant: Option<Netlist>,
    raw: RawNetlist,
}

impl Case {
    /// No netlist stands, and there are no parts.
    pub(crate) fn new(alloc: Global) -> Result<Case, AllocError> {
        Ok(Case {
            original: None,
            mutant: None,
            raw: no_parts(alloc)?,
        })
    }
}

/// The netlist of the parts, which are taken.
fn taken(alloc: Global, raw: &mut RawNetlist) -> Result<Netlist> {
    let raw = mem::replace(raw, no_parts(alloc)?);
    if !is_formed(&raw) {
        bail!("not formed");
    }
    Netlist::check(alloc, raw).ok().context("no netlist")
}

/// Prints a clause.
fn tell_clause<R: Print>(rt: &R, clause: &[i32]) -> io::Result<()> {
    for literal in clause {
        print!(rt; "{literal} ")?;
    }
    println!(rt; "0")
}

/// Prints clauses, or only how many they are.
fn tell_clauses<R: Print>(
    rt: &R,
    variables: u32,
    free: u32,
    clauses: &ClauseStore,
) -> io::Result<()> {
    println!(rt; "c {free} free bits")?;
    println!(rt; "p cnf {variables} {}", clauses.len())?;
    if clauses.len() <= 400 {
        for place in 0..clauses.len() {
            tell_clause(rt, clauses.clause(place + 1))?;
        }
    }
    Ok(())
}

/// Prints why there are no clauses.
fn tell_refusal<R: Print>(rt: &R, error: EncodeError) -> io::Result<()> {
    match error {
        EncodeError::PortsDiffer(name) => println!(rt; "ports differ: {}", name.as_str()),
        EncodeError::RegistersDiffer(name) => println!(rt; "registers differ: {}", name.as_str()),
        EncodeError::TooManyFree(bits) => println!(rt; "too many free bits: {bits}"),
        EncodeError::TooManyGates => println!(rt; "too many gates"),
        EncodeError::Memory => println!(rt; "memory"),
    }
}

/// Prints what becomes of a pair.
fn tell<R: Print + AllocGlobal>(rt: &R, original: &Netlist, mutant: &Netlist) -> io::Result<()> {
    match encode(rt.alloc(), original, mutant) {
        Ok(miter) => tell_clauses(rt, miter.variables, miter.free, &miter.store),
        Err(error) => tell_refusal(rt, error),
    }
}

/// Carries out a statement.
pub(crate) fn carry_out<R: Print + AllocGlobal>(rt: &R, case: &mut Case, line: &str) -> Result<()> {
    let (verb, rest) = line.split_once(' ').unwrap_or((line, ""));
    match verb {
        "" => {}
        "#" => println!(rt; "{line}")?,
        "original" => case.original = Some(taken(rt.alloc(), &mut case.raw)?),
        "mutant" => case.mutant = Some(taken(rt.alloc(), &mut case.raw)?),
        "encode" => match (&case.original, &case.mutant) {
            (Some(original), Some(mutant)) => tell(rt, original, mutant)?,
            _ => bail!("no pair"),
        },
        "test" | "detail" => match (&case.original, &case.mutant) {
            (Some(original), Some(mutant)) => {
                tell_test(rt, original, mutant, effort_of(rest)?, verb == "detail")?;
            }
            _ => bail!("no pair"),
        },
        _ => add_part(rt.alloc(), &mut case.raw, verb, rest)?,
    }
    Ok(())
}
