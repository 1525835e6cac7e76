//! Logs that are handed out: refutations and attempts.
//!
//! Each holds the checker that accepted its lemmas, so its log is legal. Contracts see that log.
ghost use Rattle.std.specs.Prelude.{◌≡◌, ◌<◌, ◌^◌, length, All, Some, slice_get};
ghost use Rattle.lrat_checker.specs.LegalLogs.{EndsEmpty, IsLegalLog, IsRefutation, IsAttempt};

use clause_store::Lit;
use lrat_checker::Checker;
use std::marker::Model;

/// A legal log that ends in the empty lemma, so the clauses have no model.
#[derive(Drop)]
pub struct Refutation {
    checker: Checker,
}

impl Model for Refutation {
    ghost use Rattle.lrat_checker.specs.LegalLogs.{Log, EndsEmpty};

    ghost Value = { Log };

    ghost view = { λ r. r.checker };

    ghost invariant = { λ r. EndsEmpty r.checker.lemmas };
}

impl Refutation {
    /// The refutation of a checker whose last lemma is empty.
    pub fn new(checker: Checker) -> Refutation
        requires { EndsEmpty checker.lemmas }
        ensures { result ≡ checker }
    {
        prove!(checker.refuted());
        Refutation { checker }
    }

    /// The lemma with this number, from 0.
    pub fn lemma(&self, number: u32) -> &[Lit]
        requires { number < length self.now.lemmas }
        ensures { slice_get self.now.lemmas number ≡ Some result.now }
    {
        lemma(&self.checker, number)
    }

    /// The number of lemmas.
    pub fn len(&self) -> u32
        ensures number { result ≡ length self.now.lemmas }
        ensures refutation { IsRefutation self.now.clauses self.now.free self.now.lemmas }
    {
        lemmas(&self.checker)
    }
}

/// A legal log of as many lemmas as a limit says, none of them empty.
#[derive(Drop)]
pub struct Attempt {
    checker: Checker,
}

impl Model for Attempt {
    ghost use Rattle.std.specs.Prelude.{◌<◌, length, All};
    ghost use Rattle.lrat_checker.specs.LegalLogs.{Log};

    ghost Value = { Log };

    ghost view = { λ a. a.checker };

    ghost invariant = { λ a. All (λ lemma. 0 < length lemma) a.checker.lemmas };
}

impl Attempt {
    /// The attempt of a checker with exactly `limit` lemmas, none of them empty.
    pub fn new(checker: Checker, limit: u32) -> Attempt
        requires count { length checker.lemmas ≡ limit }
        requires none_empty { All (λ lemma. 0 < length lemma) checker.lemmas }
        ensures { result ≡ checker }
    {
        prove!(checker.lemmas() == limit);
        Attempt { checker }
    }

    /// The lemma with this number, from 0.
    pub fn lemma(&self, number: u32) -> &[Lit]
        requires { number < length self.now.lemmas }
        ensures { slice_get self.now.lemmas number ≡ Some result.now }
    {
        lemma(&self.checker, number)
    }

    /// The number of lemmas, which is less than 3 to the power of the number of free bits.
    pub fn len(&self) -> u32
        ensures number { result ≡ length self.now.lemmas }
        ensures attempt { IsAttempt self.now.clauses self.now.free result self.now.lemmas }
        ensures short { result < 3 ^ self.now.free }
    {
        lemmas(&self.checker)
    }
}

/// The lemma with this number, from 0. The lemmas are the last clauses of a checker's store.
fn lemma(checker: &Checker, number: u32) -> &[Lit]
    requires { number < length checker.now.lemmas }
    ensures { slice_get checker.now.lemmas number ≡ Some result.now }
{
    let store = checker.store();
    store.clause(store.len() - checker.lemmas() + number + 1)
}

/// The number of lemmas of a checker, which are a legal log.
fn lemmas(checker: &Checker) -> u32
    ensures number { result ≡ length checker.now.lemmas }
    ensures legal { IsLegalLog checker.now.clauses checker.now.free checker.now.lemmas }
{
    // The clause of the store says that the log is legal.
    let _store = checker.store();
    checker.lemmas()
}
