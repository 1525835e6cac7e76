//! Makes the gates that the rows ask for, and prints what each becomes.
//!
//! A row is a statement: a word, and literals, with one blank between them. A literal is `F` or `T` for a constant, or a variable's
//! number, or for its negation the negative number.
//!
//! | statement | what it does |
//! |---|---|
//! | `free NUMBER` | Begins a list of gates over so many free bits. |
//! | `and A B`, `or A B`, `xor A B`, `mux S A B` | Makes the gate, and prints the literal that it becomes. |
//! | `gates` | Prints the gates, in order. |
//! | `miter LITERAL ..` | Prints how many variables and free bits there are, and the clauses of the gates and that one of the literals is true. |
//!
//! A row that begins with `#` is printed, and an empty one is left out. The rows and what has to be printed come from
//! `tests/gates.py`.
ghost use Rattle.std.specs.Prelude.{◌≤◌, ◌<◌, ◌^◌, IsTrue, All, length};
ghost use Rattle.gate_list.specs.Gates.{count, IsLit, IsLiteral};

use crate::literals::MANY;
use anyhow::{Context, Result, bail};
use gate_clauses::miter;
use gate_list::{Gate, GateList, GateLit};
use std::alloc::Global;
use std::io;

/// How many free bits a list has at most.
const MAX_FREE: u32 = 2048;

/// The literal that a word is.
fn literal_of(word: &str) -> Option<GateLit> {
    match word {
        "F" => Some(GateLit::Fixed(false)),
        "T" => Some(GateLit::Fixed(true)),
        _ => Some(GateLit::Var(word.parse::<i32>().ok()?)),
    }
}

/// The literals that the words of a text are.
fn literals(alloc: Global, text: &str) -> Result<Vec<GateLit>> {
    let mut list = Vec::new(alloc);
    for word in text.split_ascii_whitespace() {
        list.push(literal_of(word).context("no literal")?)?;
    }
    Ok(list)
}

/// Whether a literal is a constant or names a variable from 1 to this one.
fn is_lit(literal: GateLit, most: u32) -> bool
    ensures { IsTrue result → IsLit most literal }
{
    match literal {
        GateLit::Fixed(_) => true,
        GateLit::Var(literal) => (1..=most).contains(&literal.unsigned_abs()),
    }
}

/// Whether all literals are so.
fn are_lits(literals: &[GateLit], most: u32) -> bool
    ensures { IsTrue result → All (IsLit most) literals.now }
{
    literals.iter().all(|literal| is_lit(*literal, most))
}

/// Makes a gate.
fn made(gates: &mut GateList, verb: &str, inputs: &[GateLit]) -> Result<GateLit> {
    if gates.len() >= MANY {
        bail!("too many gates");
    }
    match (verb, inputs) {
        ("and", [a, b]) if gates.has(*a) && gates.has(*b) => Ok(gates.and(*a, *b)?),
        ("or", [a, b]) if gates.has(*a) && gates.has(*b) => Ok(gates.or(*a, *b)?),
        ("xor", [a, b]) if gates.has(*a) && gates.has(*b) => Ok(gates.xor(*a, *b)?),
        ("mux", [s, a, b]) if gates.has(*s) && gates.has(*a) && gates.has(*b) => {
            Ok(gates.mux(*s, *a, *b)?)
        }
        _ => bail!("no statement"),
    }
}

/// Prints a literal.
fn tell<R: Print>(rt: &R, literal: GateLit) -> io::Result<()> {
    match literal {
        GateLit::Fixed(false) => println!(rt; "F"),
        GateLit::Fixed(true) => println!(rt; "T"),
        GateLit::Var(literal) => println!(rt; "{literal}"),
    }
}

/// Prints the gates.
fn tell_gates<R: Print>(rt: &R, gates: &GateList) -> io::Result<()> {
    for number in 0..gates.len() {
        match gates.gate(number) {
            Gate::And { a, b } => println!(rt; "and {a} {b}")?,
            Gate::Xor { a, b } => println!(rt; "xor {a} {b}")?,
            Gate::Mux { s, a, b } => println!(rt; "mux {s} {a} {b}")?,
        }
    }
    Ok(())
}

/// Prints a clause.
fn tell_clause<R: Print>(rt: &R, clause: &[i32]) -> io::Result<()> {
    print!(rt; "clause")?;
    for literal in clause {
        print!(rt; " {literal}")?;
    }
    println!(rt; "")
}

/// Prints the clauses of a miter.
fn tell_miter<R: Print + AllocGlobal>(
    rt: &R,
    gates: &GateList,
    literals: &[GateLit],
) -> Result<()> {
    let most = gates.free() + gates.len();
    if gates.len() > MANY || literals.len() > MANY as usize || !are_lits(literals, most) {
        bail!("no such literals");
    }
    let miter = miter(rt.alloc(), gates, literals)?;
    println!(rt; "{} variables, {} free", miter.variables, miter.free)?;
    for place in 0..miter.store.len() {
        tell_clause(rt, miter.store.clause(place + 1))?;
    }
    Ok(())
}

/// Carries out a statement.
pub(crate) fn carry_out<R: Print + AllocGlobal>(
    rt: &R,
    gates: &mut GateList,
    line: &str,
) -> Result<()> {
    let (verb, rest) = line.split_once(' ').unwrap_or((line, ""));
    match verb {
        "" => Ok(()),
        "#" => Ok(println!(rt; "{line}")?),
        "free" => {
            let free = rest.parse::<u32>().ok().context("no number")?;
            if free > MAX_FREE {
                bail!("too many free bits");
            }
            *gates = GateList::new(rt.alloc(), free);
            Ok(())
        }
        "gates" => Ok(tell_gates(rt, gates)?),
        "miter" => tell_miter(rt, gates, literals(rt.alloc(), rest)?.as_slice()),
        _ => {
            let inputs = literals(rt.alloc(), rest)?;
            Ok(tell(rt, made(gates, verb, inputs.as_slice())?)?)
        }
    }
}
