//! What statements assign on every path, what they read where some path has not assigned it, and which variables they assign.
//!
//! The parts of a choice begin with marks of their own, which are added to those before the choice: so each costs what its
//! statements touch, and no set is copied.
ghost use Rattle.std.specs.Prelude.{◌≡◌, ◌<◌, ◌-◌, true, false, List, [], None, length, slice_index_or, OnOk};
ghost use Rattle.vlog_meaning.specs.declared.fault.Fault.{Fault as Wrong};
ghost use Rattle.vlog_meaning.specs.Answers.{least};
ghost use Rattle.vlog_meaning.specs.Scopes.{names_of};
ghost use Rattle.vlog_meaning.specs.Senses.{no_bits, IsWhole};
ghost use Rattle.vlog_effects.specs.Expressions.{reads};
ghost use Rattle.elab_proc.specs.Refusals.{own_faults};
ghost use Rattle.signal_masks.specs.Masks.{bits_in};
ghost use Rattle.process_latches.specs.Marking.{AreBlank, Added, Met, reads_by, sound_reads, all_sound_reads};

use elab_proc::{own_fault, wrong_in};
use mcy_base::Span;
use signal_masks::{Masks, reads_of};
use std::alloc::{AllocError, Global};
use vlog_meaning::{Fault, Scope};
use vlog_syntax::Expr;

/// A variable where it is assigned: its number and width, the place of its name, and the first token of the assignment.
#[derive(Clone, Copy)]
pub struct Write {
    pub number: u32,
    pub width: u8,
    pub place: Span,
    pub first: Span,
    pub is_blocking: bool,
}

/// The assignment after which so many others stand.
pub(crate) fn from_end(writes: &[Write], passed: usize) -> Write
    requires { passed < length writes.now }
    ensures { result ≡ slice_index_or writes.now (length writes.now - 1 - passed) result }
{
    writes[writes.len() - 1 - passed]
}

/// What is known after some of the statements: the bits that are assigned on every path, those that are read before, the variables
/// that are assigned, and whether a loop or a case is refused.
#[derive(Drop)]
pub struct Marks {
    pub covered: Masks,
    pub early: Masks,
    pub writes: Vec<Write>,
    pub is_stopped: bool,
}

impl Marks {
    /// Nothing is assigned or read.
    pub fn new(alloc: Global) -> Marks
        ensures { AreBlank result }
    {
        Marks {
            covered: Masks::new(alloc),
            early: Masks::new(alloc),
            writes: Vec::new(alloc),
            is_stopped: false,
        }
    }

    /// A loop or a case is refused.
    pub fn stop(&mut self)
        ensures { Added no_bits no_bits [] true self.old self.new }
    {
        self.is_stopped = true;
    }

    /// An expression with a shape is read: what is not assigned before, is read early.
    fn read_whole(&mut self, alloc: Global, expr: &Expr, scope: &Scope) -> Result<(), AllocError>
        requires { IsWhole (names_of scope.now) expr.now }
        ensures { OnOk result (Added no_bits (reads (names_of scope.now) expr.now) [] false self.old self.new) }
    {
        let mut reads = Masks::new(alloc);
        reads_of(expr, scope, &mut reads)?;
        self.early.add_missing(&reads, &self.covered)?;
        Ok(())
    }

    /// An expression is read in which this is wrong first. One that is refused reads nothing.
    pub fn read_by(
        &mut self,
        alloc: Global,
        expr: &Expr,
        fault: Option<Fault>,
        scope: &Scope,
    ) -> Result<(), AllocError>
        requires { fault ≡ None → IsWhole (names_of scope.now) expr.now }
        ensures { OnOk result ((faults : List Wrong) → fault ≡ least faults → Added no_bits (reads_by (names_of scope.now) faults expr.now) [] false self.old self.new) }
    {
        match fault {
            Some(_) => Ok(()),
            None => self.read_whole(alloc, expr, scope),
        }
    }

    /// A selector or a label of a case is read.
    pub fn read(&mut self, alloc: Global, expr: &Expr, scope: &Scope) -> Result<(), AllocError>
        ensures { OnOk result (Added no_bits (sound_reads (names_of scope.now) expr.now) [] false self.old self.new) }
    {
        let fault = wrong_in(expr, scope);
        self.read_by(alloc, expr, fault, scope)
    }

    /// A condition is read.
    pub fn read_test(&mut self, alloc: Global, expr: &Expr, scope: &Scope) -> Result<(), AllocError>
        ensures { OnOk result (Added no_bits (reads_by (names_of scope.now) (own_faults (names_of scope.now) expr.now) expr.now) [] false self.old self.new) }
    {
        let fault = own_fault(expr, scope);
        self.read_by(alloc, expr, fault, scope)
    }

    /// Several labels are read.
    pub fn read_all(
        &mut self,
        alloc: Global,
        exprs: &[Expr],
        scope: &Scope,
    ) -> Result<(), AllocError>
        ensures { OnOk result (Added no_bits (all_sound_reads (names_of scope.now) exprs.now) [] false self.old self.new) }
    {
        for expr in exprs {
            self.read(alloc, expr, scope)?;
        }
        Ok(())
    }

    /// Statements follow whose own marks are these.
    pub fn add(&mut self, other: &Marks) -> Result<(), AllocError>
        ensures { OnOk result (Added (bits_in other.now.covered) (bits_in other.now.early) other.now.writes.items other.now.is_stopped self.old self.new) }
    {
        self.early.add_missing(&other.early, &self.covered)?;
        self.covered.add_all(&other.covered)?;
        self.writes.extend_from_slice(other.writes.as_slice())?;
        self.is_stopped |= other.is_stopped;
        Ok(())
    }

    /// The marks of two parts of a choice: a bit is assigned where both assign it.
    pub fn meet(&mut self, alloc: Global, other: &Marks) -> Result<(), AllocError>
        ensures { OnOk result (Met other.now self.old self.new) }
    {
        let mut both = Masks::new(alloc);
        both.add_common(&self.covered, &other.covered)?;
        self.covered = both;
        self.early.add_all(&other.early)?;
        self.writes.extend_from_slice(other.writes.as_slice())?;
        self.is_stopped |= other.is_stopped;
        Ok(())
    }
}
