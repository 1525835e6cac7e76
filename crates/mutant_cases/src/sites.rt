//! Lists the mutation sites of the netlists that the rows describe, their mutants, and what is selected of them.
//!
//! A row is a statement: a word, and what belongs to it, with one blank between words. BITS are the bits at a port from
//! bit 0 on, with commas between them: a net by its number, `5..8` for the nets from 5 to 8, `low` and `high` for the
//! constants.
//!
//! | statement | what it does |
//! |---|---|
//! | `input BITS` | There is an input more. |
//! | `output BITS` | There is an output more. |
//! | `register WIDTH D Q` | There is a register more, with a start value of this width and these bits at D and Q. |
//! | `KIND BITS ..` | There is a cell more, with these bits at its ports, Y last. |
//! | `at FILE LINE` | The cells and registers that follow stand there in the sources. |
//! | `sites MODE ..` | Prints how many sites the netlist has for these modes, and each of them; begins another netlist. |
//! | `count MODE ..` | Prints the count alone. |
//! | `texts MODE ..` | Prints the text of each site. |
//! | `plain SIZE SEED` | Prints the numbers of the selected sites, of all modes; begins another netlist. |
//! | `even SIZE SEED` | The same by an even pick. |
//! | `words COUNT SEED` | Prints the first words of the generator that picks are made by. |
//! | `mutants MODE ..` | Prints the text of each site, and the outputs, registers and cells of its mutant. |
//!
//! A row that begins with `#` is printed, and an empty one is left out.
ghost use Rattle.std.specs.List.{All};
ghost use Rattle.mutation_sites.specs.Mutants.{IsSite};

mod mutants;
mod parts;
mod picks;

use crate::netlists::no_parts;
use crate::sites::mutants::tell_mutants;
use crate::sites::parts::{add_part, files};
use crate::sites::picks::{place_of, tell_pick, tell_words};
use anyhow::{Context, Result};
use mcy_base::Span;
use mutation_select::Pick;
use mutation_sites::{ModeSet, Site, site_count, site_text, sites};
use netlist_core::{Netlist, RawNetlist, is_formed};
use std::alloc::{AllocError, Global};
use std::{io, mem, str};

/// A netlist to which statements add, and the place of the parts that follow.
#[derive(Drop)]
pub(crate) struct Sheet {
    raw: RawNetlist,
    place: Span,
}

impl Sheet {
    /// A netlist without parts.
    pub(crate) fn new(alloc: Global) -> Result<Sheet, AllocError> {
        Ok(Sheet {
            raw: no_parts(alloc)?,
            place: START,
        })
    }
}

/// Where parts stand before they are told to stand elsewhere.
const START: Span = Span {
    file: 0,
    line: 1,
    col: 1,
};

/// The modes that the words name.
fn modes_of(words: &str) -> ModeSet {
    let mut modes = ModeSet {
        inv: false,
        const0: false,
        const1: false,
        cnot0: false,
        cnot1: false,
    };
    for word in words.split(' ') {
        match word {
            "inv" => modes.inv = true,
            "const0" => modes.const0 = true,
            "const1" => modes.const1 = true,
            "cnot0" => modes.cnot0 = true,
            "cnot1" => modes.cnot1 = true,
            _ => {}
        }
    }
    modes
}

/// Prints a site.
fn tell_site<R: Print>(rt: &R, site: &Site) -> io::Result<()> {
    println!(rt;
        "{:?} {:?} {} {}",
        site.mode, site.place, site.port, site.bit
    )
}

/// What is asked of the sites.
#[derive(Clone, Copy, PartialEq, Eq)]
enum Question {
    Count,
    Sites,
    Texts,
    Mutants,
}

/// Prints the sites, or their texts, or their mutants.
fn tell_each<R: Print + AllocGlobal>(
    rt: &R,
    netlist: &Netlist,
    modes: ModeSet,
    question: Question,
) -> Result<()> {
    let list = sites(rt.alloc(), netlist, modes)?;
    match question {
        Question::Count => {}
        Question::Sites => tell_sites(rt, &list)?,
        Question::Texts => tell_texts(rt, netlist, &list)?,
        Question::Mutants => tell_mutants(rt, netlist, &list)?,
    }
    Ok(())
}

/// Prints the sites.
fn tell_sites<R: Print>(rt: &R, list: &[Site]) -> io::Result<()> {
    for site in list {
        tell_site(rt, site)?;
    }
    Ok(())
}

/// Prints the texts of sites.
fn tell_texts<R: Print + AllocGlobal>(rt: &R, netlist: &Netlist, list: &[Site]) -> Result<()>
    requires { All (IsSite netlist.now.raw) list.now }
{
    let files = files(rt.alloc())?;
    for site in list {
        let text = site_text(rt.alloc(), netlist, &files, site)?;
        let text = str::from_utf8(text.as_slice()).ok().context("no text")?;
        println!(rt; "{text}")?;
    }
    Ok(())
}

/// Prints the count of the sites, and what is asked of them.
fn answer<R: Print + AllocGlobal>(
    rt: &R,
    raw: RawNetlist,
    modes: ModeSet,
    question: Question,
) -> Result<()> {
    if !is_formed(&raw) {
        println!(rt; "not formed")?;
        return Ok(());
    }
    let netlist = Netlist::check(rt.alloc(), raw).ok().context("no netlist")?;
    println!(rt; "{} sites", site_count(&netlist, modes))?;
    tell_each(rt, &netlist, modes, question)
}

/// What the word asks, if it asks.
fn asked(verb: &str) -> Option<Question> {
    match verb {
        "count" => Some(Question::Count),
        "sites" => Some(Question::Sites),
        "texts" => Some(Question::Texts),
        "mutants" => Some(Question::Mutants),
        _ => None,
    }
}

/// Takes the netlist of a sheet, and begins another.
fn take_netlist<R: AllocGlobal>(rt: &R, sheet: &mut Sheet) -> Result<RawNetlist> {
    sheet.place = START;
    Ok(mem::replace(&mut sheet.raw, no_parts(rt.alloc())?))
}

/// Carries out a statement.
pub(crate) fn carry_out<R: Print + AllocGlobal>(
    rt: &R,
    sheet: &mut Sheet,
    line: &str,
) -> Result<()> {
    let (verb, rest) = line.split_once(' ').unwrap_or((line, ""));
    if let Some(question) = asked(verb) {
        let whole = take_netlist(rt, sheet)?;
        return answer(rt, whole, modes_of(rest), question);
    }
    match verb {
        "" => {}
        "#" => println!(rt; "{line}")?,
        "at" => sheet.place = place_of(rest)?,
        "words" => tell_words(rt, rest)?,
        "plain" => tell_pick(rt, take_netlist(rt, sheet)?, Pick::Plain, rest)?,
        "even" => tell_pick(rt, take_netlist(rt, sheet)?, Pick::Even, rest)?,
        _ => add_part(rt.alloc(), &mut sheet.raw, sheet.place, verb, rest)?,
    }
    Ok(())
}
