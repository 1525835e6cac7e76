//! The text of a mutation site, `MODE TOP cell NAME PORT BIT FILE:LINE`, with `reg` in place of `cell` at a register.
ghost use Rattle.std.specs.Prelude.{◌≡◌, [], ◌<◌, slice_index_or, string_bytes, IfOk};
ghost use Rattle.mutation_sites.specs.Mutants.{IsSite};
ghost use Rattle.mutation_sites.specs.SiteTexts as texts;

use crate::mode::Mode;
use crate::place::{port_at, span_at};
use crate::site::{Place, Site};
use mcy_base::{Bytes, Span, TextList};
use netlist_core::{CellKind, Netlist, RawNetlist, Shape};
use std::alloc::{AllocError, Global};

/// The text of a site of the netlist, whose sources have these names. One space divides its fields. Where the mode reads a
/// control bit, its number stands after the bit's.
///
/// `AllocError`: want of memory.
pub fn site_text(
    alloc: Global,
    netlist: &Netlist,
    files: &TextList,
    site: &Site,
) -> Result<Bytes, AllocError>
    requires { IsSite netlist.now.raw site.now }
    ensures { IfOk result (λ text. text ≡ texts.site_text netlist.now.raw files.now site.now) }
{
    let raw = netlist.raw();
    let mode = mode_text(site.mode);
    let top = raw.top.as_str();
    let place = place_text(alloc, raw, site.place, site.port)?;
    let width = port_at(raw, site.place, site.port).len();
    let bit = bit_text(alloc, site.mode, site.bit, width)?;
    let source = source_text(alloc, files, span_at(raw, site.place))?;
    let text = format!(in alloc; "{mode} {top} {place} {bit} {source}")?;
    Ok(Bytes::from_vec(text.into_bytes()))
}

/// What stands at the place, its name and the port's.
fn place_text(alloc: Global, raw: &RawNetlist, place: Place, port: u8) -> Result<String, AllocError>
    ensures { IfOk result (λ text. string_bytes text ≡ texts.place_text raw.now place port) }
{
    match place {
        Place::Cell(number) => match raw.cells.as_slice().get(number as usize) {
            Some(cell) => {
                let kind = kind_text(cell.kind);
                let port = port_text(cell.kind.shape(), port);
                format!(in alloc; "cell {kind}_{number} {port}")
            }
            None => Ok(String::new(alloc)),
        },
        Place::Register(number) => match raw.registers.as_slice().get(number as usize) {
            Some(register) => {
                let name = register.name.as_str();
                let port = register_port_text(port);
                format!(in alloc; "reg {name} {port}")
            }
            None => Ok(String::new(alloc)),
        },
    }
}

/// The number of the bit, and where the mode reads a control bit that one's.
fn bit_text(alloc: Global, mode: Mode, bit: u8, width: usize) -> Result<String, AllocError>
    requires { bit < width }
    ensures { IfOk result (λ text. string_bytes text ≡ texts.bit_text mode bit width) }
{
    match mode {
        Mode::Inv | Mode::Const0 | Mode::Const1 => format!(in alloc; "{bit}"),
        Mode::Cnot0 | Mode::Cnot1 => {
            let control = (bit as usize + 1) % width;
            format!(in alloc; "{bit} {control}")
        }
    }
}

/// The file's name and the line.
fn source_text(alloc: Global, files: &TextList, span: Span) -> Result<String, AllocError>
    ensures { IfOk result (λ text. string_bytes text ≡ texts.source_text files.now span) }
{
    let file = file_name(files, span.file);
    let line = span.line;
    format!(in alloc; "{file}:{line}")
}

/// The name of a file, none where there is no such file.
fn file_name(files: &TextList, file: u16) -> &str
    ensures { result.now ≡ slice_index_or files.now file [] }
{
    match files.as_slice().get(file as usize) {
        Some(name) => name.as_str(),
        None => "",
    }
}

/// The name of a mode.
fn mode_text(mode: Mode) -> &'static str
    ensures { result.now ≡ texts.mode_text mode }
{
    match mode {
        Mode::Inv => "inv",
        Mode::Const0 => "const0",
        Mode::Const1 => "const1",
        Mode::Cnot0 => "cnot0",
        Mode::Cnot1 => "cnot1",
    }
}

/// The name of a kind of cells, as a cell's text has it: in small letters, `rand` and `lnot` for reductions and logical operators.
pub fn kind_text(kind: CellKind) -> &'static str
    ensures { result.now ≡ texts.kind_text kind }
{
    match kind {
        CellKind::Not => "not",
        CellKind::Neg => "neg",
        CellKind::And => "and",
        CellKind::Or => "or",
        CellKind::Xor => "xor",
        CellKind::Xnor => "xnor",
        CellKind::Add => "add",
        CellKind::Sub => "sub",
        CellKind::Mul => "mul",
        CellKind::Lt => "lt",
        CellKind::Le => "le",
        CellKind::Gt => "gt",
        CellKind::Ge => "ge",
        CellKind::Eq => "eq",
        CellKind::Ne => "ne",
        CellKind::Shl => "shl",
        CellKind::Shr => "shr",
        CellKind::Sshr => "sshr",
        CellKind::Rand => "rand",
        CellKind::Ror => "ror",
        CellKind::Rxor => "rxor",
        CellKind::Rnand => "rnand",
        CellKind::Rnor => "rnor",
        CellKind::Rxnor => "rxnor",
        CellKind::Lnot => "lnot",
        CellKind::Land => "land",
        CellKind::Lor => "lor",
        CellKind::Mux => "mux",
        CellKind::Pick => "pick",
        CellKind::Put => "put",
    }
}

/// The name of a port of a cell, by the row of its kind.
fn port_text(shape: Shape, port: u8) -> &'static str
    ensures { result.now ≡ texts.port_text shape port }
{
    match shape {
        Shape::Unary | Shape::Reduction => one_input_text(port),
        Shape::Binary | Shape::Relation | Shape::Shift | Shape::Logical | Shape::Selection => {
            two_inputs_text(port)
        }
        Shape::Choice => choice_text(port),
        Shape::Insertion => insertion_text(port),
    }
}

/// The name of a port where there are A and Y.
fn one_input_text(port: u8) -> &'static str
    ensures { result.now ≡ texts.one_input_text port }
{
    match port {
        0 => "A",
        _ => "Y",
    }
}

/// The same where there are A, B and Y.
fn two_inputs_text(port: u8) -> &'static str
    ensures { result.now ≡ texts.two_inputs_text port }
{
    match port {
        0 => "A",
        1 => "B",
        _ => "Y",
    }
}

/// The same where there are S, A, B and Y.
fn choice_text(port: u8) -> &'static str
    ensures { result.now ≡ texts.choice_text port }
{
    match port {
        0 => "S",
        1 => "A",
        2 => "B",
        _ => "Y",
    }
}

/// The same where there are A, B, D and Y.
fn insertion_text(port: u8) -> &'static str
    ensures { result.now ≡ texts.insertion_text port }
{
    match port {
        0 => "A",
        1 => "B",
        2 => "D",
        _ => "Y",
    }
}

/// The name of a port of a register.
fn register_port_text(port: u8) -> &'static str
    ensures { result.now ≡ texts.register_port_text port }
{
    match port {
        0 => "D",
        _ => "Q",
    }
}
