//! The parts of a left side, from the left, as what is needed to write them (IEEE 1364-2005, A.8.5): a piece for each.
//!
//! An index that is no constant has its cells once its piece is there, so all indices are read before anything is written.
ghost use Rattle.std.specs.Prelude.{◌≡◌, ◌≤◌, ◌+◌, ◌+ℤ◌, ◌-ℤ◌, ℕ, pos, false, ◌++◌, [], ◌∷◌, map, Some, length, IfOk, IfErr, OnOk};
ghost use Rattle.vlog_meaning.specs.Integers.{natural, bound_integer};
ghost use Rattle.vlog_meaning.specs.Scopes.{names_of};
ghost use Rattle.vlog_meaning.specs.Senses.{sense, IsWhole};
ghost use Rattle.vlog_effects.specs.Expressions.{is_constant};
ghost use Rattle.vlog_effects.specs.LeftSides.{Whole, Bit as BitOf, Range, Indexed, Vector as Known, vector_of, parts_of, parts_width, concatenated};
ghost use Rattle.net_builder.specs.Building.{Building, HasSignals};
ghost use Rattle.elab_expr.specs.Expressions.{refusals};
ghost use Rattle.net_builder.specs.Refusals.{IsShort};
ghost use Rattle.proc_muxes.specs.Clear.{CanWrite, CanWriteAll};
ghost use Rattle.proc_muxes.specs.Counts.{index_cells, indices_cells};
ghost use Rattle.proc_muxes.specs.Pieces.{index_at, IsPlaced, MakesPiece, MakesPieces};

use elab_expr::{build_expr, index_bits};
use expr_plans::{bound_of, count_of, is_constant};
use mcy_base::Span;
use net_builder::{Builder, ElabError};
use netlist_core::BitList;
use std::alloc::AllocError;
use vlog_meaning::{Bound, Decl, Scope, shape_of};
use vlog_syntax::{Expr, Identifier, LeftSide};

/// Where bits of a variable are written.
#[derive(Drop)]
pub(crate) enum Place {
    /// From the bit with this declared number on.
    From(Bound),
    /// From the bit on whose number the bits of an index stand for, as a cell has them; with the place of the select's `[`.
    At(BitList, Span),
}

/// A part of a left side: a variable's number, how many bits it has, the declared number of its lowest bit, and how many
/// bits are written, and where.
#[derive(Drop)]
pub(crate) struct Piece {
    pub number: u32,
    pub width: u8,
    pub low: u32,
    pub size: u8,
    pub place: Place,
}

/// A variable: its number, how many bits it has, and the declared number of its lowest bit.
#[derive(Clone, Copy)]
struct Vector {
    number: u32,
    width: u8,
    low: u32,
}

impl Vector {
    /// A piece of it.
    fn piece(self, size: u8, place: Place) -> Piece
        ensures { result ≡ record { number = self.number; width = self.width; low = self.low; size = size; place = place } }
    {
        Piece {
            number: self.number,
            width: self.width,
            low: self.low,
            size,
            place,
        }
    }
}

/// The variable of a name.
fn vector_of(name: &Identifier, scope: &Scope) -> Vector
    requires { (v : Known) × (vector_of (names_of scope.now name.now.name) ≡ Some v) }
    ensures { vector_of (names_of scope.now name.now.name) ≡ Some (record { number = result.number; width = result.width; low = result.low }) }
{
    match scope.get(name.name.as_str()) {
        Some(
            Decl::Signal {
                width,
                low,
                number,
                ..
            },
        ) => Vector { number, width, low },
        Some(Decl::Constant { .. }) | None => unreachable!(),
    }
}

/// How many numbers there are from one bound up to another, at most 128.
fn range_size(msb: Bound, lsb: Bound) -> u8
    requires some { 1 ≤ natural (bound_integer msb -ℤ bound_integer lsb +ℤ pos 1) }
    requires narrow { natural (bound_integer msb -ℤ bound_integer lsb +ℤ pos 1) ≤ 128 }
    ensures { result ≡ natural (bound_integer msb -ℤ bound_integer lsb +ℤ pos 1) }
{
    match (msb.is_negative, lsb.is_negative) {
        (false, false) => (msb.magnitude - lsb.magnitude + 1) as u8,
        (false, true) => (msb.magnitude + lsb.magnitude + 1) as u8,
        (true, _) => (lsb.magnitude - msb.magnitude + 1) as u8,
    }
}

/// Where an index begins, with its cells, if it is no constant.
fn place_at(
    builder: &mut Builder,
    scope: &Scope,
    span: Span,
    index: &Expr,
) -> Result<Place, ElabError>
    requires whole { IsWhole (names_of scope.now) index.now }
    requires clear { is_constant (names_of scope.now) index.now ≡ false → refusals (names_of scope.now) index.now (sense (names_of scope.now) index.now).shape ≡ [] }
    requires signals { HasSignals (names_of scope.now) builder.old }
    ensures placed { IfOk result (λ place. IsPlaced (names_of scope.now) span index.now builder.old builder.new place) }
    ensures short { IfErr result (λ e. IsShort (length builder.old.cells + index_cells (names_of scope.now) (index_at (names_of scope.now) span index.now)) e) }
{
    if is_constant(index, scope) {
        return Ok(Place::From(bound_of(index, scope)));
    }
    let shape = shape_of(index, scope);
    let bits = build_expr(builder, index, scope, shape.width, shape.is_signed)?;
    let shown = index_bits(builder.alloc(), bits.as_slice(), shape)?;
    Ok(Place::At(shown, span))
}

/// A whole variable.
fn whole_piece(name: &Identifier, scope: &Scope) -> Piece
    requires { CanWrite (names_of scope.now) (record { name = name.now; select = Whole }) }
    ensures { (b : Building) → MakesPiece (names_of scope.now) (record { name = name.now; select = Whole }) b b result }
{
    let vector = vector_of(name, scope);
    let low = Bound {
        is_negative: false,
        magnitude: u128::from(vector.low),
    };
    vector.piece(vector.width, Place::From(low))
}

/// `name[index]`
fn bit_piece(
    builder: &mut Builder,
    scope: &Scope,
    name: &Identifier,
    span: Span,
    index: &Expr,
) -> Result<Piece, ElabError>
    requires can { CanWrite (names_of scope.now) (record { name = name.now; select = BitOf span index.now }) }
    requires signals { HasSignals (names_of scope.now) builder.old }
    ensures makes { IfOk result (λ x. MakesPiece (names_of scope.now) (record { name = name.now; select = BitOf span index.now }) builder.old builder.new x) }
    ensures short { IfErr result (λ e. IsShort (length builder.old.cells + index_cells (names_of scope.now) (index_at (names_of scope.now) span index.now)) e) }
{
    let place = place_at(builder, scope, span, index)?;
    Ok(vector_of(name, scope).piece(1, place))
}

/// `name[msb:lsb]`
fn range_piece(scope: &Scope, name: &Identifier, span: Span, msb: &Expr, lsb: &Expr) -> Piece
    requires { CanWrite (names_of scope.now) (record { name = name.now; select = Range span msb.now lsb.now }) }
    ensures { (b : Building) → MakesPiece (names_of scope.now) (record { name = name.now; select = Range span msb.now lsb.now }) b b result }
{
    let lsb = bound_of(lsb, scope);
    let size = range_size(bound_of(msb, scope), lsb);
    vector_of(name, scope).piece(size, Place::From(lsb))
}

/// `name[base +: count]`
fn indexed_piece(
    builder: &mut Builder,
    scope: &Scope,
    name: &Identifier,
    span: Span,
    base: &Expr,
    count: &Expr,
) -> Result<Piece, ElabError>
    requires can { CanWrite (names_of scope.now) (record { name = name.now; select = Indexed span base.now count.now }) }
    requires signals { HasSignals (names_of scope.now) builder.old }
    ensures makes { IfOk result (λ x. MakesPiece (names_of scope.now) (record { name = name.now; select = Indexed span base.now count.now }) builder.old builder.new x) }
    ensures short { IfErr result (λ e. IsShort (length builder.old.cells + index_cells (names_of scope.now) (index_at (names_of scope.now) span base.now)) e) }
{
    let place = place_at(builder, scope, span, base)?;
    let size = count_of(count, scope);
    Ok(vector_of(name, scope).piece(size, place))
}

/// Adds a piece at the end.
fn push(pieces: &mut Vec<Piece>, piece: Piece) -> Result<(), AllocError>
    ensures { OnOk result (pieces.new.items ≡ pieces.old.items ++ piece ∷ []) }
{
    pieces.push(piece)?;
    Ok(())
}

/// How many bits a left side writes, at most 128.
#[cycle(width)]
pub(crate) fn left_width(left: &LeftSide, scope: &Scope) -> u8
    requires can { CanWriteAll (names_of scope.now) (parts_of left.now) }
    requires narrow { parts_width (names_of scope.now) (parts_of left.now) ≤ 128 }
    ensures { result ≡ parts_width (names_of scope.now) (parts_of left.now) }
{
    match left {
        LeftSide::Name(name) => vector_of(name, scope).width,
        LeftSide::BitSelect(..) => 1,
        LeftSide::PartSelect(_, _, msb, lsb) => {
            range_size(bound_of(msb.get(), scope), bound_of(lsb.get(), scope))
        }
        LeftSide::IndexedPartSelect(_, _, _, count) => count_of(count.get(), scope),
        LeftSide::Concatenation(_, parts) => left_widths(parts.as_slice(), scope),
    }
}

/// How many bits several left sides write.
#[cycle(width)]
fn left_widths(parts: &[LeftSide], scope: &Scope) -> u8
    requires can { CanWriteAll (names_of scope.now) (concatenated (map parts_of parts.now)) }
    requires narrow { parts_width (names_of scope.now) (concatenated (map parts_of parts.now)) ≤ 128 }
    ensures { result ≡ parts_width (names_of scope.now) (concatenated (map parts_of parts.now)) }
{
    let mut width = 0;
    for part in parts {
        width += left_width(part, scope);
    }
    width
}

/// Adds the pieces of a left side, and the cells of their indices.
#[cycle(pieces)]
pub(crate) fn push_pieces(
    builder: &mut Builder,
    scope: &Scope,
    left: &LeftSide,
    pieces: &mut Vec<Piece>,
) -> Result<(), ElabError>
    requires can { CanWriteAll (names_of scope.now) (parts_of left.now) }
    requires signals { HasSignals (names_of scope.now) builder.old }
    ensures makes { OnOk result (MakesPieces (names_of scope.now) (parts_of left.now) builder.old builder.new pieces.old.items pieces.new.items) }
    ensures short { IfErr result (λ e. IsShort (length builder.old.cells + indices_cells (names_of scope.now) (parts_of left.now)) e) }
{
    match left {
        LeftSide::Name(name) => push(pieces, whole_piece(name, scope))?,
        LeftSide::BitSelect(name, span, index) => {
            let piece = bit_piece(builder, scope, name, *span, index.get())?;
            push(pieces, piece)?;
        }
        LeftSide::PartSelect(name, span, msb, lsb) => {
            push(
                pieces,
                range_piece(scope, name, *span, msb.get(), lsb.get()),
            )?;
        }
        LeftSide::IndexedPartSelect(name, span, base, count) => {
            let piece = indexed_piece(builder, scope, name, *span, base.get(), count.get())?;
            push(pieces, piece)?;
        }
        LeftSide::Concatenation(_, parts) => {
            push_all_pieces(builder, scope, parts.as_slice(), pieces)?;
        }
    }
    Ok(())
}

/// The same of several left sides.
#[cycle(pieces)]
fn push_all_pieces(
    builder: &mut Builder,
    scope: &Scope,
    parts: &[LeftSide],
    pieces: &mut Vec<Piece>,
) -> Result<(), ElabError>
    requires can { CanWriteAll (names_of scope.now) (concatenated (map parts_of parts.now)) }
    requires signals { HasSignals (names_of scope.now) builder.old }
    ensures makes { OnOk result (MakesPieces (names_of scope.now) (concatenated (map parts_of parts.now)) builder.old builder.new pieces.old.items pieces.new.items) }
    ensures short { IfErr result (λ e. IsShort (length builder.old.cells + indices_cells (names_of scope.now) (concatenated (map parts_of parts.now))) e) }
{
    for part in parts {
        push_pieces(builder, scope, part, pieces)?;
    }
    Ok(())
}
