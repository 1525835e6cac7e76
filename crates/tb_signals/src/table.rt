//! The signals of a testbench by their numbers.
//!
//! `starts` has the value of each signal before the first phase, of its width. Invariant: what is declared as a signal has the number of
//! one with its width.
ghost use Rattle.std.specs.Prelude.{◌≡◌, ◌<◌, ◌≤◌, ◌++◌, ◌∷◌, [], ℕ, List, Some, IfOk, IfSome, IfNone, OnErr, map, length, slice_get, slice_index, slice_set};
ghost use Rattle.vlog_meaning.specs.Scopes.{names_of, with_name};
ghost use Rattle.elab_proc.specs.Refusals.{AreSized as EachSized};
ghost use Rattle.flat_laws.specs.Sound.{AreSized, NamesSignal};
ghost use Rattle.tb_evaluator.specs.Meanings.{HasSignals};
ghost use Rattle.tb_signals.specs.Tables.{hidden_decl};

use flat_scopes::Signal;
use mcy_base::{Word, WordList};
use std::alloc::{AllocError, Global};
use std::marker::Model;
use vlog_meaning::{Decl, Scope};

/// Names, and the signals that they stand for.
#[derive(Drop)]
pub struct Signals {
    scope: Scope,
    starts: Vec<Word>,
}

impl Model for Signals {
    ghost use Rattle.std.specs.Prelude.{map};
    ghost use Rattle.vlog_meaning.specs.Scopes.{names_of};
    ghost use Rattle.tb_evaluator.specs.Meanings.{HasSignals};
    ghost use Rattle.tb_signals.specs.Tables.{Table};

    ghost Value = { Table };

    ghost view = { λ s. record { scope = s.scope; widths = map (λ w. w.width) s.starts.items; values = map (λ w. w.bits) s.starts.items } };

    ghost invariant = { λ s. HasSignals (names_of s.scope) (map (λ w. w.width) s.starts.items) };
}

/// The word whose bits are all 0.
fn zero(width: u8) -> Word
    requires some { 1 ≤ width }
    requires narrow { width ≤ 128 }
    ensures width { result.width ≡ width }
    ensures bits { result.bits ≡ 0 }
{
    Word::new(width, 0).unwrap()
}

/// A word for each signal, whose bits are all 0.
fn zeros(alloc: Global, signals: &[Signal]) -> Result<Vec<Word>, AllocError>
    requires { AreSized signals.now }
    ensures widths { IfOk result (λ words. map (λ w. w.width) words.items ≡ map (λ s. s.bits.width) signals.now) }
    ensures bits { IfOk result (λ words. map (λ w. w.bits) words.items ≡ map (λ s. 0) signals.now) }
{
    let mut words = Vec::new(alloc);
    for signal in signals {
        words.push(zero(signal.bits.width))?;
    }
    Ok(words)
}

/// Declares a name, or declares it anew.
fn declare(scope: &mut Scope, name: &str, decl: Decl) -> Result<(), AllocError>
    ensures names { IfOk result (λ _. names_of scope.new ≡ with_name (names_of scope.old) name.now (Some decl)) }
    ensures unchanged { OnErr result (scope.new ≡ scope.old) }
{
    if scope.get(name).is_some() {
        scope.replace(name, decl);
        return Ok(());
    }
    match scope.declare(name, decl) {
        Ok(()) => Ok(()),
        Err(_) => Err(AllocError),
    }
}

impl Signals {
    /// The signals of an opened module. All start with 0.
    pub fn of(alloc: Global, scope: Scope, signals: &[Signal]) -> Result<Signals, AllocError>
        requires sized { AreSized signals.now }
        requires names { (name : List ℕ) → NamesSignal signals.now (names_of scope name) }
        ensures scope { IfOk result (λ t. t.scope ≡ scope) }
        ensures widths { IfOk result (λ t. t.widths ≡ map (λ s. s.bits.width) signals.now) }
        ensures values { IfOk result (λ t. t.values ≡ map (λ s. 0) signals.now) }
    {
        let starts = zeros(alloc, signals)?;
        Ok(Signals { scope, starts })
    }

    /// The names.
    pub fn scope(&self) -> &Scope
        ensures scope { result.now ≡ self.now.scope }
        ensures signals { HasSignals (names_of self.now.scope) self.now.widths }
        ensures sized { EachSized (names_of self.now.scope) }
    {
        &self.scope
    }

    /// A hidden signal, which starts with 0.
    pub fn hide(&mut self, name: &str, width: u8, is_signed: bool) -> Result<u32, AllocError>
        requires some { 1 ≤ width }
        requires narrow { width ≤ 128 }
        ensures number { IfOk result (λ n. n ≡ length self.old.widths) }
        ensures names { IfOk result (λ _. names_of self.new.scope ≡ with_name (names_of self.old.scope) name.now (hidden_decl width is_signed (length self.old.widths))) }
        ensures widths { IfOk result (λ _. self.new.widths ≡ self.old.widths ++ width ∷ []) }
        ensures values { IfOk result (λ _. self.new.values ≡ self.old.values ++ 0 ∷ []) }
    {
        let Ok(number) = u32::try_from(self.starts.len()) else {
            return Err(AllocError);
        };
        self.starts.push(zero(width))?;
        let decl = Decl::Signal {
            width,
            low: 0,
            is_signed,
            number,
        };
        declare(&mut self.scope, name, decl)?;
        Ok(number)
    }

    /// A signal starts with this value.
    pub fn start(&mut self, number: u32, value: Word)
        requires known { number < length self.old.widths }
        requires width { value.width ≡ slice_index self.old.widths number }
        ensures scope { self.new.scope ≡ self.old.scope }
        ensures widths { self.new.widths ≡ self.old.widths }
        ensures values { self.new.values ≡ slice_set self.old.values number value.bits }
    {
        self.starts[number as usize] = value;
    }

    /// The width of a signal.
    pub fn width(&self, number: u32) -> Option<u8>
        ensures width { result ≡ slice_get self.now.widths number }
        ensures sized { IfSome result (λ w. (1 ≤ w) × (w ≤ 128)) }
        ensures outside { IfNone result (length self.now.values ≤ number) }
    {
        self.starts.get(number as usize).map(|word| word.width())
    }

    /// The names, and the values that the signals start with.
    pub fn into_parts(self) -> (Scope, WordList)
        ensures scope { result.0 ≡ self.scope }
        ensures widths { map (λ w. w.width) result.1 ≡ self.widths }
        ensures values { map (λ w. w.bits) result.1 ≡ self.values }
        ensures signals { HasSignals (names_of self.scope) self.widths }
    {
        (self.scope, WordList::from_vec(self.starts))
    }
}
