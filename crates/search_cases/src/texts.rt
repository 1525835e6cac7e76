//! Reads site texts, one in each row, and prints the fields of each, with a bar between them, or why there is none.
//!
//! In a row `\` stands before two hexadecimal digits, and with them for the byte of this number; every other byte stands for
//! itself. A row that begins with `#` is printed as it is.
use anyhow::Result;
use case_lines::unescaped;
use site_texts::{SiteText, read_site_text};
use std::io;

/// Prints the fields of a site.
fn tell<R: Print>(rt: &R, site: &SiteText) -> io::Result<()> {
    let place = if site.is_cell { "cell" } else { "reg" };
    let top = site.top.as_str();
    let name = site.name.as_str();
    let port = site.port.as_str();
    print!(rt; "{:?}|{top}|{place}|{name}|{port}|{}|", site.mode, site.bit)?;
    if let Some(control) = site.control {
        print!(rt; "{control}")?;
    }
    println!(rt; "|{}|{}", site.file.as_str(), site.line)
}

/// Prints what a site text says.
fn answer<R: Print + AllocGlobal>(rt: &R, line: &str) -> Result<()> {
    let text = unescaped(rt.alloc(), line)?;
    if text.len() >= MAX_LEN {
        println!(rt; "too long")?;
        return Ok(());
    }
    match read_site_text(rt.alloc(), &text) {
        Ok(site) => tell(rt, &site)?,
        Err(e) => println!(rt; "{e:?}")?,
    }
    Ok(())
}

/// The least length of a text that is not read.
const MAX_LEN: usize = 1 << 31;

/// Prints what a row says.
pub(crate) fn carry_out<R: Print + AllocGlobal>(rt: &R, line: &str) -> Result<()> {
    if line.starts_with('#') {
        println!(rt; "{line}")?;
        return Ok(());
    }
    answer(rt, line)
}
