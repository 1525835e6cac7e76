//! Site texts field by field. Each function reads one field and what stands behind it.
ghost use Rattle.std.specs.Prelude.{◌≡◌, ◌<◌, ℕ, List, MatchResult, Some, slice_get};
ghost use Rattle.mutation_sites.specs.SiteTexts.{mode_text};
ghost use Rattle.site_texts.specs.Choices.{mode_words, port_words};
ghost use Rattle.site_texts.specs.Rests.{AreOf, AreOfBits, AreOfControl, AreOfPlace, AreOfPort, HasBit, HasMode, HasPlace, IsAny, IsPart, IsStuck};
ghost use Rattle.site_texts.specs.SiteTexts.{bit_text, control_text, kind_text, name_text, port_text, reads_control, site_text, top_text};

use crate::choice::{Choice, port_word};
use crate::name::read_name;
use crate::source::{Source, read_source};
use mutation_sites::Mode;

/// What a site text says.
#[derive(Clone, Copy)]
pub(crate) struct Parts<'a> {
    pub mode: Mode,
    pub top: &'a str,
    pub place: PlaceText<'a>,
}

/// What it says from `cell` or `reg` on.
#[derive(Clone, Copy)]
pub(crate) struct PlaceText<'a> {
    pub is_cell: bool,
    pub name: &'a str,
    pub port: &'static str,
    pub bits: Bits<'a>,
}

/// What it says from the bit on.
#[derive(Clone, Copy)]
pub(crate) struct Bits<'a> {
    pub bit: u8,
    pub control: Option<u8>,
    pub source: Source<'a>,
}

/// What the text says, or the first byte after which no site text goes on.
pub(crate) fn read_parts(text: &[u8]) -> Result<Parts<'_>, usize>
    ensures { MatchResult result (λ parts. IsPart IsAny site_text (AreOf parts) text.now) (IsStuck IsAny site_text text.now) }
{
    let (number, rest) = Choice::Mode.read(text)?;
    match read_top(mode_of(number), rest) {
        Ok(parts) => Ok(parts),
        Err(at) => Err(text.len() - rest.len() + at),
    }
}

/// The mode with this number.
fn mode_of(number: u8) -> Mode
    ensures { (word : List ℕ) → slice_get mode_words number ≡ Some word → word ≡ mode_text result }
{
    match number {
        0 => Mode::Inv,
        1 => Mode::Const0,
        2 => Mode::Const1,
        3 => Mode::Cnot0,
        _ => Mode::Cnot1,
    }
}

/// What stands behind the mode.
fn read_top(mode: Mode, text: &[u8]) -> Result<Parts<'_>, usize>
    ensures { MatchResult result (λ parts. IsPart (HasMode mode) top_text (AreOf parts) text.now) (IsStuck (HasMode mode) top_text text.now) }
{
    let (top, rest) = read_name(text)?;
    match read_place(mode, rest) {
        Ok(place) => Ok(Parts { mode, top, place }),
        Err(at) => Err(text.len() - rest.len() + at),
    }
}

/// What stands behind the top module's name.
fn read_place(mode: Mode, text: &[u8]) -> Result<PlaceText<'_>, usize>
    ensures { MatchResult result (λ place. IsPart (HasMode mode) kind_text (AreOfPlace place) text.now) (IsStuck (HasMode mode) kind_text text.now) }
{
    let (number, rest) = Choice::Place.read(text)?;
    match read_named(mode, number == 0, rest) {
        Ok(place) => Ok(place),
        Err(at) => Err(text.len() - rest.len() + at),
    }
}

/// What stands behind `cell` or `reg`.
fn read_named(mode: Mode, is_cell: bool, text: &[u8]) -> Result<PlaceText<'_>, usize>
    ensures { MatchResult result (λ place. IsPart (HasPlace mode is_cell) name_text (AreOfPlace place) text.now) (IsStuck (HasPlace mode is_cell) name_text text.now) }
{
    let (name, rest) = read_name(text)?;
    match read_port(mode, is_cell, rest) {
        Ok((port, bits)) => Ok(PlaceText {
            is_cell,
            name,
            port,
            bits,
        }),
        Err(at) => Err(text.len() - rest.len() + at),
    }
}

/// What stands behind the name.
fn read_port(mode: Mode, is_cell: bool, text: &[u8]) -> Result<(&'static str, Bits<'_>), usize>
    ensures { MatchResult result (λ found. IsPart (HasPlace mode is_cell) port_text (AreOfPort found.0.now found.1) text.now) (IsStuck (HasPlace mode is_cell) port_text text.now) }
{
    let (number, rest) = Choice::Port { is_cell }.read(text)?;
    match read_bits(mode, rest) {
        Ok(bits) => Ok((port_of(is_cell, number), bits)),
        Err(at) => Err(text.len() - rest.len() + at),
    }
}

/// The port with this number, none where there is no such word.
fn port_of(is_cell: bool, number: u8) -> &'static str
    ensures { (word : List ℕ) → slice_get (port_words is_cell) number ≡ Some word → result.now ≡ word }
{
    match port_word(is_cell, number) {
        Some(word) => word,
        None => "",
    }
}

/// What stands behind the port.
fn read_bits(mode: Mode, text: &[u8]) -> Result<Bits<'_>, usize>
    ensures { MatchResult result (λ bits. IsPart (HasMode mode) bit_text (AreOfBits bits) text.now) (IsStuck (HasMode mode) bit_text text.now) }
{
    let (bit, rest) = Choice::Bit.read(text)?;
    match read_control(mode, bit, rest) {
        Ok((control, source)) => Ok(Bits {
            bit,
            control,
            source,
        }),
        Err(at) => Err(text.len() - rest.len() + at),
    }
}

/// What stands behind the bit.
fn read_control(mode: Mode, bit: u8, text: &[u8]) -> Result<(Option<u8>, Source<'_>), usize>
    requires { bit < 128 }
    ensures { MatchResult result (λ found. IsPart (HasBit mode bit) control_text (AreOfControl found.0 found.1) text.now) (IsStuck (HasBit mode bit) control_text text.now) }
{
    if !reads_control(mode) {
        return match read_source(text) {
            Ok(source) => Ok((None, source)),
            Err(at) => Err(at),
        };
    }
    let (control, rest) = Choice::Control { bit }.read(text)?;
    match read_source(rest) {
        Ok(source) => Ok((Some(control), source)),
        Err(at) => Err(text.len() - rest.len() + at),
    }
}

/// The mode reads a control bit.
fn reads_control(mode: Mode) -> bool
    ensures { result ≡ reads_control mode }
{
    match mode {
        Mode::Inv => false,
        Mode::Const0 => false,
        Mode::Const1 => false,
        Mode::Cnot0 => true,
        Mode::Cnot1 => true,
    }
}
