//! What a terminal is told of an outcome, behind its line.
ghost use Rattle.std.specs.Prelude.{◌≡◌, ◌<◌, ◌^◌, IfOk, IfSome, OnOk, length};
ghost use Rattle.outcome_hints.specs.Filled.{IsFilled};
ghost use Rattle.outcome_hints.specs.Spots.{IsRefused};

use crate::book::changed_file;
use crate::excerpt::{add_excerpt, shown_bytes};
use crate::outcome::outcome_told;
use crate::place::place_of;
use crate::told::{Spot, Told};
use crate::unexpected::hint_at;
use campaign_outcomes::Outcome;
use mcy_base::Bytes;
use mcy_outside::SourceFiles;
use std::alloc::{AllocError, Global};

/// The project file, and how long a file may be.
const PROJECT: &str = "config.mcy";

const MAX: u32 = 1_048_576;

/// The name of the file in which a refusal is.
fn file_of(outcome: &Outcome, spot: Spot) -> &str {
    match (outcome, spot) {
        (Outcome::SourceBad(error), Spot::Source(_)) => error.file.as_str(),
        _ => PROJECT,
    }
}

/// The bytes of this file as they are now; nothing where it is not read.
fn bytes_of<F: SourceFiles>(files: &mut F, name: &str) -> Option<Vec<u8>>
    ensures same { F.held files.new ≡ F.held files.old }
    ensures few { IfSome result (λ bytes. length bytes.items < 2 ^ 31) }
{
    files.read(name, MAX).ok()
}

/// The line in which a refusal is, with a caret, where its file is read and has it; and the hint there.
fn shown<F: SourceFiles>(
    alloc: Global,
    files: &mut F,
    outcome: &Outcome,
    told: Told,
) -> Result<(Vec<u8>, &'static str), AllocError>
    ensures same { F.held files.new ≡ F.held files.old }
    ensures hint { IfOk result (λ both. IsFilled told.hint.now → IsFilled both.1.now) }
{
    let mut text = Vec::new(alloc);
    if told.spot == Spot::Nowhere {
        return Ok((text, told.hint));
    }
    let Some(bytes) = bytes_of(files, file_of(outcome, told.spot)) else {
        return Ok((text, told.hint));
    };
    let Some(place) = place_of(alloc, &bytes, told.spot)? else {
        return Ok((text, told.hint));
    };
    add_excerpt(alloc, &mut text, place.number, place.line, place.at)?;
    Ok((text, hint_at(outcome, place, told.hint)))
}

/// Adds the name of the file that has changed, where the database holds the campaign of another one.
fn add_changed(alloc: Global, text: &mut Vec<u8>, outcome: &Outcome) -> Result<(), AllocError> {
    let name = match outcome {
        Outcome::BookBad(error) => changed_file(error),
        _ => None,
    };
    if let Some(name) = name {
        let shown = shown_bytes(alloc, name)?;
        text.extend_from_slice(&shown)?;
        text.push(b' ')?;
    }
    Ok(())
}

/// Adds the line of a hint.
fn add_hint(
    alloc: Global,
    text: &mut Vec<u8>,
    outcome: &Outcome,
    hint: &str,
) -> Result<(), AllocError>
    ensures { OnOk result (IsFilled text.new.items) }
{
    text.extend_from_slice(b"mcy: ")?;
    add_changed(alloc, text, outcome)?;
    text.extend_from_slice(hint.as_bytes())?;
    text.push(b'\n')?;
    Ok(())
}

/// What a terminal is told of an outcome behind its line: the line in which it is, with a caret, and a hint. The line is read again, and
/// left out where it is not there any more. Nothing is told where the command was carried out.
pub fn hint_text<F: SourceFiles>(
    alloc: Global,
    files: &mut F,
    outcome: &Outcome,
) -> Result<Bytes, AllocError>
    ensures same { F.held files.new ≡ F.held files.old }
    ensures told { IfOk result (λ text. IsRefused outcome.now → IsFilled text) }
{
    let told = outcome_told(outcome);
    if told.hint.is_empty() {
        return Ok(Bytes::from_vec(Vec::new(alloc)));
    }
    let (mut text, hint) = shown(alloc, files, outcome, told)?;
    add_hint(alloc, &mut text, outcome, hint)?;
    Ok(Bytes::from_vec(text))
}
