//! What the items of a testbench write so far, and which of them write bits that are written already: nets write a bit once, and
//! processes and the clock generator may write one several times.
ghost use Rattle.std.specs.Prelude.{◌≡◌, ◌&&◌, ◌∷◌, [], ℕ, map, IfOk, OnOk};
ghost use Rattle.vlog_meaning.specs.Scopes.{names_of};
ghost use Rattle.vlog_syntax.specs.declared.left_side.LeftSide.TheVariants as l;
ghost use Rattle.vlog_effects.specs.LeftSides.{Part, parts_of, concatenated};
ghost use Rattle.elab_proc.specs.Refusals.{AreSized};
ghost use Rattle.process_latches.specs.Marking.{IsPart};
ghost use Rattle.tb_faults.specs.Order.{IsFirst};
ghost use Rattle.signal_masks.specs.Masks.{has_bit};
ghost use Rattle.tb_writers.specs.declared.writers.Writer.TheVariants as n;
ghost use Rattle.tb_writers.specs.Writes.{is_placed as placed, some_below};
ghost use Rattle.tb_writers.specs.Writers.{nothing, taken, with_bits, whole_signal, with_outputs, with_part, fault_where, part_faults, with_parts, parts_faults, with_lefts, lefts_faults, writer_faults, with_item};
ghost use Rattle.tb_writers.specs.Views.{mask_bits, written_of};

use crate::lefts::stmt_lefts;
use crate::mask::{is_constant, part_masks};
use crate::table::Table;
use flat_scopes::Lent;
use mcy_base::Span;
use std::alloc::{AllocError, Global};
use tb_faults::{BenchFault, earlier};
use tb_items::BenchItem;
use vlog_meaning::{Decl, Scope};
use vlog_syntax::{Feature, Identifier, LeftSide};

/// What writes a bit: a net, which is assigned for good, or a process.
#[derive(Clone, Copy, Debug, PartialEq, Eq)]
pub enum Writer {
    Net,
    Process,
}

/// The bits that are written so far, by nets and by processes.
#[derive(Drop)]
pub struct Writers {
    alloc: Global,
    nets: Table,
    variables: Table,
}

/// Whether masks have a bit in common.
#[tactic(auto, using(crate::proofs::Tables::meet_masks))]
fn meets(a: u128, b: u128) -> bool
    ensures { result ≡ some_below 128 (λ i. has_bit a i && has_bit b i) }
{
    a & b != 0
}

impl Writers {
    /// Nothing is written.
    pub fn new(alloc: Global) -> Writers
        ensures { written_of result ≡ nothing }
    {
        Writers {
            alloc,
            nets: Table::new(alloc),
            variables: Table::new(alloc),
        }
    }

    /// The design writes its outputs, whose hidden signals have these numbers, and nothing else is written.
    pub fn of_design(alloc: Global, outputs: &[u32]) -> Result<Writers, AllocError>
        ensures { IfOk result (λ w. written_of w ≡ with_outputs nothing outputs.now) }
    {
        let mut writers = Writers::new(alloc);
        for number in outputs {
            writers.add_signal(*number)?;
        }
        Ok(writers)
    }

    /// Adds all bits of a signal that the design writes.
    fn add_signal(&mut self, number: u32) -> Result<(), AllocError>
        ensures { OnOk result (written_of self.new ≡ with_bits n.Net (written_of self.old) (whole_signal number)) }
    {
        self.add(Writer::Net, number, u128::MAX)
    }

    /// The bits of a signal that a writer may not write.
    fn taken(&self, kind: Writer, number: u32) -> u128
        ensures { (i : ℕ) → has_bit result i ≡ taken kind (written_of self.now) number i }
    {
        match kind {
            Writer::Net => self.nets.mask(number) | self.variables.mask(number),
            Writer::Process => self.nets.mask(number),
        }
    }

    /// Adds bits of a signal.
    fn add(&mut self, kind: Writer, number: u32, bits: u128) -> Result<(), AllocError>
        ensures { OnOk result (written_of self.new ≡ with_bits kind (written_of self.old) (mask_bits number bits)) }
    {
        match kind {
            Writer::Net => self.nets.add(number, bits),
            Writer::Process => self.variables.add(number, bits),
        }
    }

    /// Writes bits of a signal: what is refused at the name, where one is written already.
    fn write_bits(
        &mut self,
        kind: Writer,
        at: Span,
        number: u32,
        bits: u128,
    ) -> Result<Option<BenchFault>, AllocError>
        ensures written { IfOk result (λ f. written_of self.new ≡ with_bits kind (written_of self.old) (mask_bits number bits)) }
        ensures fault { IfOk result (λ f. f ≡ fault_where (some_below 128 (λ i. has_bit bits i && taken kind (written_of self.old) number i)) at) }
    {
        let is_taken = meets(bits, self.taken(kind, number));
        self.add(kind, number, bits)?;
        if is_taken {
            Ok(Some(BenchFault::Unsupported(at, Feature::Helper)))
        } else {
            Ok(None)
        }
    }

    /// Writes a part of a left side, which is one of this name.
    fn write_part(
        &mut self,
        kind: Writer,
        left: &LeftSide,
        name: &Identifier,
        is_placed: bool,
        scope: &Scope,
    ) -> Result<Option<BenchFault>, AllocError>
        requires sized { AreSized (names_of scope.now) }
        requires part { (p : Part) × (IsPart left.now name.now p × (is_placed ≡ placed (names_of scope.now) p.select)) }
        ensures written { IfOk result (λ f. (p : Part) → IsPart left.now name.now p → is_placed ≡ placed (names_of scope.now) p.select → written_of self.new ≡ with_part (names_of scope.now) kind (written_of self.old) p) }
        ensures fault { IfOk result (λ f. (p : Part) → IsPart left.now name.now p → is_placed ≡ placed (names_of scope.now) p.select → IsFirst (part_faults (names_of scope.now) kind (written_of self.old) p) f) }
    {
        let Some(Decl::Signal { number, .. }) = scope.get(name.name.as_str()) else {
            return Ok(None);
        };
        let masks = part_masks(self.alloc, kind, left, name, is_placed, scope)?;
        self.write_bits(kind, name.span, number, masks.bits(number))
    }

    /// Writes the parts of a left side.
    #[cycle(parts)]
    fn write_left(
        &mut self,
        kind: Writer,
        left: &LeftSide,
        scope: &Scope,
    ) -> Result<Option<BenchFault>, AllocError>
        requires { AreSized (names_of scope.now) }
        ensures written { IfOk result (λ f. written_of self.new ≡ with_parts (names_of scope.now) kind (written_of self.old) (parts_of left.now)) }
        ensures fault { IfOk result (λ f. IsFirst (parts_faults (names_of scope.now) kind (written_of self.old) (parts_of left.now)) f) }
    {
        match left {
            LeftSide::Name(name) => self.write_part(kind, left, name, true, scope),
            LeftSide::BitSelect(name, _, index) => {
                let is_placed = is_constant(index.get(), scope);
                self.write_part(kind, left, name, is_placed, scope)
            }
            LeftSide::PartSelect(name, _, _, _) => self.write_part(kind, left, name, true, scope),
            LeftSide::IndexedPartSelect(name, _, base, _) => {
                let is_placed = is_constant(base.get(), scope);
                self.write_part(kind, left, name, is_placed, scope)
            }
            LeftSide::Concatenation(_, parts) => self.write_joined(kind, parts.as_slice(), scope),
        }
    }

    /// Writes the parts of several left sides.
    #[cycle(parts)]
    fn write_joined(
        &mut self,
        kind: Writer,
        lefts: &[LeftSide],
        scope: &Scope,
    ) -> Result<Option<BenchFault>, AllocError>
        requires { AreSized (names_of scope.now) }
        ensures written { IfOk result (λ f. written_of self.new ≡ with_parts (names_of scope.now) kind (written_of self.old) (concatenated (map parts_of lefts.now))) }
        ensures fault { IfOk result (λ f. IsFirst (parts_faults (names_of scope.now) kind (written_of self.old) (concatenated (map parts_of lefts.now))) f) }
    {
        let mut found = None;
        for left in lefts {
            found = earlier(found, self.write_left(kind, left, scope)?);
        }
        Ok(found)
    }

    /// Writes left sides, one after the other.
    fn write_lefts(
        &mut self,
        kind: Writer,
        lefts: &[Lent<'_, LeftSide>],
        scope: &Scope,
    ) -> Result<Option<BenchFault>, AllocError>
        requires { AreSized (names_of scope.now) }
        ensures written { IfOk result (λ f. written_of self.new ≡ with_lefts (names_of scope.now) kind (written_of self.old) lefts.now) }
        ensures fault { IfOk result (λ f. IsFirst (lefts_faults (names_of scope.now) kind (written_of self.old) lefts.now) f) }
    {
        let mut found = None;
        for left in lefts {
            found = earlier(found, self.write_left(kind, left.get(), scope)?);
        }
        Ok(found)
    }

    /// Writes one left side.
    fn write_one(
        &mut self,
        kind: Writer,
        left: &LeftSide,
        scope: &Scope,
    ) -> Result<Option<BenchFault>, AllocError>
        requires { AreSized (names_of scope.now) }
        ensures written { IfOk result (λ f. written_of self.new ≡ with_lefts (names_of scope.now) kind (written_of self.old) (left.now ∷ [])) }
        ensures fault { IfOk result (λ f. IsFirst (lefts_faults (names_of scope.now) kind (written_of self.old) (left.now ∷ [])) f) }
    {
        self.write_left(kind, left, scope)
    }

    /// Writes a name.
    fn write_name(
        &mut self,
        kind: Writer,
        name: &Identifier,
        scope: &Scope,
    ) -> Result<Option<BenchFault>, AllocError>
        requires { AreSized (names_of scope.now) }
        ensures written { IfOk result (λ f. written_of self.new ≡ with_lefts (names_of scope.now) kind (written_of self.old) (l.Name name.now ∷ [])) }
        ensures fault { IfOk result (λ f. IsFirst (lefts_faults (names_of scope.now) kind (written_of self.old) (l.Name name.now ∷ [])) f) }
    {
        let left = LeftSide::Name(name.copy(self.alloc)?);
        self.write_one(kind, &left, scope)
    }

    /// Writes what an item writes, and tells the first second writer in it.
    pub fn write(
        &mut self,
        item: &BenchItem<'_>,
        scope: &Scope,
    ) -> Result<Option<BenchFault>, AllocError>
        requires { AreSized (names_of scope.now) }
        ensures written { IfOk result (λ f. written_of self.new ≡ with_item (names_of scope.now) (written_of self.old) item.now) }
        ensures fault { IfOk result (λ f. IsFirst (writer_faults (names_of scope.now) (written_of self.old) item.now) f) }
    {
        match item {
            BenchItem::Drives(name, _) => self.write_name(Writer::Net, name.get(), scope),
            BenchItem::Assigns(assignment) => {
                self.write_one(Writer::Net, &assignment.get().left, scope)
            }
            BenchItem::Clocks(_, generator) => {
                self.write_name(Writer::Process, generator.clock.get(), scope)
            }
            BenchItem::Runs(process) => {
                let lefts = stmt_lefts(self.alloc, process.get().body.get())?;
                self.write_lefts(Writer::Process, lefts.as_slice(), scope)
            }
            BenchItem::Enters(port, _) => self.write_name(Writer::Net, port, scope),
            BenchItem::Leaves(_, left) => self.write_one(Writer::Net, left, scope),
            BenchItem::Refused(_)
            | BenchItem::Starts(..)
            | BenchItem::Holds(_)
            | BenchItem::Reads(_) => Ok(None),
        }
    }
}
