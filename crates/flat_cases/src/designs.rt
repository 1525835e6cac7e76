//! Flattens short Verilog sources, and prints their signals and items, or their clock and what is refused for the use of it.
//!
//! A row is a line of a source, but for these:
//!
//! | row | what it does |
//! |---|---|
//! | `flatten TOP` | Flattens the rows before it with this top, and prints the signals and the items. |
//! | `count TOP` | The same, but prints how many signals and items there are. |
//! | `clock TOP` | The same, but prints its clock, and in the order of the items the first refusal of each. |
//! | `# ..` | It is printed. |
//!
//! The next row behind one of the first three is the first of another source.
mod clocks;
mod items;
mod refused;

use case_lines::{END, Page, is_short};
use clocks::put_clocks;
use flat_items::{Flat, FlattenError, flatten};
use items::{put_counts, put_design};
use std::alloc::Global;
use std::io;
use vlog_parse::parse;
use vlog_token::tokens;

/// What is printed of a flattened design.
#[derive(Clone, Copy)]
enum Asked {
    Design,
    Counts,
    Clock,
}

/// What is asked of a design.
fn put_asked(alloc: Global, page: &mut Page, asked: Asked, flat: &Flat<'_>) {
    match asked {
        Asked::Design => put_design(page, flat),
        Asked::Counts => put_counts(page, flat),
        Asked::Clock => {
            if put_clocks(alloc, page, flat).is_err() {
                page.put("no memory\n");
            }
        }
    }
}

/// The same, or that there is no design.
fn put_flattened(
    alloc: Global,
    page: &mut Page,
    asked: Asked,
    flattened: Result<Flat<'_>, FlattenError>,
) {
    match flattened {
        Ok(flat) => put_asked(alloc, page, asked, &flat),
        Err(FlattenError::NoTop) => page.put("NoTop\n"),
        Err(FlattenError::Memory) => page.put("no memory\n"),
    }
}

/// The page for a source with this top.
fn page_of(alloc: Global, text: &str, top: &str, asked: Asked) -> Page {
    let mut page = Page::new(alloc);
    if !is_short(text) {
        page.put("too long\n");
        return page;
    }
    let Ok(list) = tokens(alloc, 0, text) else {
        page.put("no tokens\n");
        return page;
    };
    match parse(alloc, list.as_slice(), END) {
        Ok(modules) => {
            put_flattened(
                alloc,
                &mut page,
                asked,
                flatten(alloc, modules.as_slice(), top),
            )
        }
        Err(_) => page.put("no trees\n"),
    }
    page
}

/// Prints what is asked for of a source, and begins another one.
fn answer<R: Print + AllocGlobal>(
    rt: &R,
    source: &mut String,
    top: &str,
    asked: Asked,
) -> io::Result<()> {
    let page = page_of(rt.alloc(), source.as_str(), top, asked);
    print!(rt; "{}", page.text())?;
    *source = String::new(rt.alloc());
    Ok(())
}

/// Adds a line to a source.
fn add(source: &mut String, line: &str) -> io::Result<()> {
    source.push_str(line)?;
    source.push_str("\n")?;
    Ok(())
}

/// Carries out a row, behind the lines of a source.
pub(crate) fn carry_out<R: Print + AllocGlobal>(
    rt: &R,
    source: &mut String,
    line: &str,
) -> io::Result<()> {
    let (verb, rest) = line.split_once(' ').unwrap_or((line, ""));
    match verb {
        "flatten" => answer(rt, source, rest, Asked::Design),
        "count" => answer(rt, source, rest, Asked::Counts),
        "clock" => answer(rt, source, rest, Asked::Clock),
        "#" => Ok(println!(rt; "{line}")?),
        _ => add(source, line),
    }
}
