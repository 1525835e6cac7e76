//! Assignments (IEEE 1364-2005, 9.2). First the right side's cells, then those of the indices of the left side, from the
//! left; then the parts of the left side are written from the right, so where two name one bit, the left one stays.
ghost use Rattle.std.specs.Prelude.{◌≡◌, ◌+◌, ◌≤◌, List, [], ◌∷◌, length, IfOk, IfErr, OnOk};
ghost use Rattle.vlog_meaning.specs.Scopes.{Names, names_of};
ghost use Rattle.vlog_meaning.specs.Senses.{sense, assigned};
ghost use Rattle.vlog_effects.specs.LeftSides.{Part, parts_of, part_vector};
ghost use Rattle.vlog_effects.specs.Latches.{parts_targets};
ghost use Rattle.vlog_effects.specs.Steps.{Done, Assign, assigning};
ghost use Rattle.net_builder.specs.Building.{AllBelow, HasSignals};
ghost use Rattle.elab_expr.specs.Evaluates.{Evaluates};
ghost use Rattle.elab_expr.specs.Expressions.{refusals};
ghost use Rattle.expr_plans.specs.Made.{made};
ghost use Rattle.net_builder.specs.Refusals.{IsShort};
ghost use Rattle.proc_muxes.specs.Builds.{IsLaid, PutsPart, PutsParts};
ghost use Rattle.proc_muxes.specs.Clear.{CanAssign, AreHeld};
ghost use Rattle.proc_muxes.specs.Counts.{assign_cells, place_cells, pieces_cells};
ghost use Rattle.proc_muxes.specs.Laid.{lay_assign};
ghost use Rattle.proc_muxes.specs.Pieces.{index_bits, indices_of, sizes, IsPiece, ArePieces, IsFitPiece, AreFitPieces, IsHeldPiece, AreHeldPieces, piece_target, piece_targets};
ghost use Rattle.proc_muxes.specs.Shows.{Keeps, StandsBelow};
ghost use Rattle.proc_muxes.specs.Working.{work, change_of, changes_of, joined, Built};

use crate::change::{Change, Changes};
use crate::piece::{Piece, Place, left_width, push_pieces};
use crate::put::{put_at, put_from};
use crate::variables::{Variables, copied};
use elab_expr::build_expr;
use net_builder::{Builder, ElabError, copied_bits};
use netlist_core::{Bit, BitList};
use std::alloc::AllocError;
use vlog_meaning::{Scope, shape_of};
use vlog_syntax::{Assignment, Expr};

/// Adds the cells of a right side from which so many bits are written.
fn build_right(
    builder: &mut Builder,
    scope: &Scope,
    right: &Expr,
    width: u8,
) -> Result<BitList, ElabError>
    requires narrow { width ≤ 128 }
    requires clear { refusals (names_of scope.now) right.now (assigned (sense (names_of scope.now) right.now) width) ≡ [] }
    requires signals { HasSignals (names_of scope.now) builder.old }
    ensures built { IfOk result (λ bits. Evaluates (names_of scope.now) right.now (assigned (sense (names_of scope.now) right.now) width) builder.old builder.new bits) }
    ensures laid { IfOk result (λ bits. IsLaid (names_of scope.now) right.now (assigned (sense (names_of scope.now) right.now) width) builder.old builder.new bits) }
    ensures short { IfErr result (λ e. IsShort (length builder.old.cells + length (made (names_of scope.now) right.now (assigned (sense (names_of scope.now) right.now) width))) e) }
{
    let own = shape_of(right, scope);
    Ok(build_expr(builder, right, scope, own.width.max(width), own.is_signed)?)
}

/// Writes the bits of a piece.
fn put_piece(
    builder: &mut Builder,
    variables: &mut Variables,
    is_blocking: bool,
    piece: &Piece,
    bits: &[Bit],
) -> Result<(), ElabError>
    requires held { IsHeldPiece (work builder.old variables.old) is_blocking piece.now }
    requires fit { IsFitPiece builder.old.nets piece.now }
    requires long { length bits.now ≡ piece.now.size }
    requires below { AllBelow builder.old.nets bits.now }
    requires stands { StandsBelow (work builder.old variables.old) }
    requires places { length variables.old ≡ length builder.old.signals }
    ensures puts { OnOk result ((names : Names) (p : Part) → IsPiece names p piece.now → PutsPart is_blocking names p (part_vector names p) bits.now (index_bits piece.now.place) (work builder.old variables.old) (work builder.new variables.new)) }
    ensures keeps { OnOk result (Keeps (piece_target is_blocking piece.now ∷ []) (work builder.old variables.old) (work builder.new variables.new)) }
    ensures places { OnOk result (length variables.new ≡ length builder.new.signals) }
    ensures cells { OnOk result (length builder.new.cells ≡ length builder.old.cells + place_cells piece.now.place) }
    ensures short { IfErr result (λ e. IsShort (length builder.old.cells + place_cells piece.now.place) e) }
{
    match &piece.place {
        Place::From(base) => {
            put_from(
                builder,
                variables,
                piece.number,
                is_blocking,
                piece.low,
                *base,
                bits,
            )?;
        }
        Place::At(index, span) => {
            let index = copied(builder.alloc(), index)?;
            let bits = copied_bits(builder.alloc(), bits)?;
            put_at(
                builder,
                variables,
                piece.number,
                is_blocking,
                index,
                bits,
                *span,
            )?;
        }
    }
    Ok(())
}

/// Writes the bits of pieces, from the last piece on.
fn put_pieces(
    builder: &mut Builder,
    variables: &mut Variables,
    is_blocking: bool,
    pieces: &[Piece],
    bits: &[Bit],
) -> Result<(), ElabError>
    requires held { AreHeldPieces (work builder.old variables.old) is_blocking pieces.now }
    requires fit { AreFitPieces builder.old.nets pieces.now }
    requires long { length bits.now ≡ sizes pieces.now }
    requires below { AllBelow builder.old.nets bits.now }
    requires stands { StandsBelow (work builder.old variables.old) }
    requires places { length variables.old ≡ length builder.old.signals }
    ensures puts { OnOk result ((names : Names) (ps : List Part) → ArePieces names ps pieces.now → PutsParts is_blocking names ps bits.now (indices_of pieces.now) (work builder.old variables.old) (work builder.new variables.new)) }
    ensures keeps { OnOk result (Keeps (piece_targets is_blocking pieces.now) (work builder.old variables.old) (work builder.new variables.new)) }
    ensures places { OnOk result (length variables.new ≡ length builder.new.signals) }
    ensures cells { OnOk result (length builder.new.cells ≡ length builder.old.cells + pieces_cells pieces.now) }
    ensures short { IfErr result (λ e. IsShort (length builder.old.cells + pieces_cells pieces.now) e) }
{
    let [piece, more @ ..] = pieces else {
        return Ok(());
    };
    let rest = bits.len() - piece.size as usize;
    put_pieces(builder, variables, is_blocking, more, &bits[..rest])?;
    put_piece(builder, variables, is_blocking, piece, &bits[rest..])
}

/// The changes of variables that pieces write, with the bits that they have now.
fn changes_by(
    builder: &Builder,
    variables: &Variables,
    is_blocking: bool,
    pieces: &[Piece],
) -> Result<Changes, AllocError>
    requires held { AreHeldPieces (work builder.now variables.now) is_blocking pieces.now }
    requires places { length variables.now ≡ length builder.now.signals }
    ensures { IfOk result (λ changes. changes ≡ joined [] (changes_of (work builder.now variables.now) (piece_targets is_blocking pieces.now))) }
{
    let mut changes = Changes::new(builder.alloc());
    let mut rest = pieces;
    while let [piece, more @ ..] = rest {
        add_change(builder, variables, is_blocking, piece, &mut changes)?;
        rest = more;
    }
    Ok(changes)
}

/// Adds the change of a variable that has none yet.
fn add_change(
    builder: &Builder,
    variables: &Variables,
    is_blocking: bool,
    piece: &Piece,
    changes: &mut Changes,
) -> Result<(), AllocError>
    requires held { IsHeldPiece (work builder.now variables.now) is_blocking piece.now }
    requires places { length variables.now ≡ length builder.now.signals }
    ensures { OnOk result (changes.new ≡ joined changes.old (change_of (work builder.now variables.now) (piece_target is_blocking piece.now) ∷ [])) }
{
    if !changes.has(piece.number, is_blocking) {
        let before = variables.held(builder, piece.number, is_blocking)?;
        changes.push(Change {
            number: piece.number,
            is_blocking,
            before,
        })?;
    }
    Ok(())
}

/// Adds the cells of an assignment in which nothing is refused, and gives the variables its bits: at once where it is
/// blocking, else as those that they will have at the end. Where there are too many cells, or there is no memory, the builder
/// may hold a part of it and is only to be dropped.
pub fn build_assignment(
    builder: &mut Builder,
    variables: &mut Variables,
    scope: &Scope,
    assignment: &Assignment,
    is_blocking: bool,
) -> Result<Changes, ElabError>
    requires can { CanAssign (assigning is_blocking assignment.now (names_of scope.now)) }
    requires held { AreHeld (work builder.old variables.old) (parts_targets is_blocking (names_of scope.now) (parts_of assignment.now.left)) }
    requires signals { HasSignals (names_of scope.now) builder.old }
    requires stands { StandsBelow (work builder.old variables.old) }
    requires places { length variables.old ≡ length builder.old.signals }
    ensures built { IfOk result (λ changes. Built (Assign (assigning is_blocking assignment.now (names_of scope.now)) Done) (work builder.old variables.old) (work builder.new variables.new) changes) }
    ensures laid { IfOk result (λ changes. work builder.new variables.new ≡ lay_assign (assigning is_blocking assignment.now (names_of scope.now)) (work builder.old variables.old)) }
    ensures places { IfOk result (λ changes. length variables.new ≡ length builder.new.signals) }
    ensures short { IfErr result (λ e. IsShort (length builder.old.cells + assign_cells (assigning is_blocking assignment.now (names_of scope.now))) e) }
{
    let width = left_width(&assignment.left, scope);
    let right = build_right(builder, scope, assignment.value.get(), width)?;
    let mut pieces = Vec::new(builder.alloc());
    push_pieces(builder, scope, &assignment.left, &mut pieces)?;
    let changes = changes_by(builder, variables, is_blocking, pieces.as_slice())?;
    let bits = &right.as_slice()[..usize::from(width)];
    put_pieces(builder, variables, is_blocking, pieces.as_slice(), bits)?;
    Ok(changes)
}
