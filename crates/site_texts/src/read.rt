//! Site texts, read.
ghost use Rattle.std.specs.Prelude.{◌<◌, ◌^◌, IfErr, IfOk, length};
ghost use Rattle.site_texts.specs.Rests.{AreOf};
ghost use Rattle.site_texts.specs.SiteTexts.{IsFault, IsSiteText};

use crate::parts::{Parts, read_parts};
use crate::site::{SiteText, SiteTextError};
use mcy_base::Text;
use std::alloc::{AllocError, Global};

/// The mutation site of a text of the form `MODE TOP cell NAME PORT BIT FILE:LINE`, with `reg` in place of `cell` at a
/// register. Where the mode reads a control bit, its number stands behind BIT. One space divides fields.
///
/// TOP, NAME and FILE are texts in UTF-8 of at least one byte and without blanks, the port is one of those of cells or of registers,
/// a bit is below 128, and a control bit is the next bit or, where the bit is not bit 0, bit 0. The line is at least 1. Numbers
/// have no leading zeros. The last colon divides the file and the line.
pub fn read_site_text(alloc: Global, text: &[u8]) -> Result<SiteText, SiteTextError>
    requires { length text.now < 2 ^ 32 }
    ensures site { IfOk result (λ site. IsSiteText site text.now) }
    ensures bad { IfErr result (IsFault text.now) }
{
    match read_parts(text) {
        Ok(parts) => match copied(alloc, parts) {
            Ok(site) => Ok(site),
            Err(_) => Err(SiteTextError::Memory),
        },
        Err(at) => Err(SiteTextError::Bad(at as u32)),
    }
}

/// The same with texts of its own.
fn copied(alloc: Global, parts: Parts<'_>) -> Result<SiteText, AllocError>
    ensures { IfOk result (AreOf parts.entry) }
{
    let place = parts.place;
    let bits = place.bits;
    Ok(SiteText {
        mode: parts.mode,
        top: Text::copy(alloc, parts.top)?,
        is_cell: place.is_cell,
        name: Text::copy(alloc, place.name)?,
        port: Text::copy(alloc, place.port)?,
        bit: bits.bit,
        control: bits.control,
        file: Text::copy(alloc, bits.source.file)?,
        line: bits.source.line,
    })
}
