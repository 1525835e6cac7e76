//! Scopes: what each name is declared as.
ghost use Rattle.std.specs.Prelude.{◌≡◌, ◌↔◌, [], Some, None, Err, IsSome, IsTrue, IfOk, OnOk, OnErr};
ghost use Rattle.std.specs.List.{list_all};
ghost use Rattle.vlog_meaning.specs.declared.scope.ScopeError.TheVariants as errors;
ghost use Rattle.vlog_meaning.specs.Scopes.{names_of, with_name, decl_low, FitsSignals};
ghost use Rattle.vlog_meaning.specs.Fitting.{fits_word};

use mcy_base::Word;
use std::alloc::{AllocError, Global};
use std::collections::BTreeMap;
use std::marker::Model;

/// What a name is declared as.
#[derive(Clone, Copy, Debug, PartialEq, Eq)]
pub enum Decl {
    /// A signal with its number. `low` is the number of its lowest bit.
    Signal {
        width: u8,
        low: u32,
        is_signed: bool,
        number: u32,
    },
    /// A constant, whose lowest bit has the number `low`.
    Constant {
        value: Word,
        low: u32,
        is_signed: bool,
    },
}

impl Decl {
    /// Whether a signal's word, where there is one at its number, has its width.
    fn fits(self, store: &[Word]) -> bool
        ensures { result ≡ fits_word store.now self }
    {
        match self {
            Decl::Signal { width, number, .. } => match store.get(number as usize) {
                Some(word) => word.width() == width,
                None => true,
            },
            Decl::Constant { .. } => true,
        }
    }
}

/// Why a name is not declared.
#[derive(Clone, Copy, Debug, PartialEq, Eq)]
pub enum ScopeError {
    /// It is declared already.
    Twice,
    /// There is no memory for it.
    Memory,
}

/// Names and what each is declared as. Contracts see it as a finite map.
#[derive(Drop)]
pub struct Scope {
    alloc: Global,
    names: BTreeMap<String, Decl>,
}

impl Model for Scope {
    ghost use Rattle.std.specs.Prelude.{List, ℕ, map};
    ghost use Rattle.vlog_meaning.specs.declared.scope.Decl.{Decl as Declared};
    ghost use Rattle.vlog_meaning.specs.Scopes.{entry_of};

    ghost Value = { List (List ℕ × Declared) };

    ghost view = { λ s. map entry_of s.names.entries };
}

impl Scope {
    /// No names.
    pub fn new(alloc: Global) -> Scope
        ensures { result ≡ [] }
    {
        Scope {
            alloc,
            names: BTreeMap::new(alloc),
        }
    }

    /// The allocator that the names are kept by.
    pub(crate) fn alloc(&self) -> Global {
        self.alloc
    }

    /// What the name is declared as.
    pub fn get(&self, name: &str) -> Option<Decl>
        ensures { result ≡ names_of self.now name.now }
    {
        self.names.get(name).copied()
    }

    /// The number of a name's lowest bit, which is 0 where none is declared.
    pub fn low_of(&self, name: &str) -> u32
        ensures { result ≡ decl_low (names_of self.now name.now) }
    {
        match self.get(name) {
            Some(Decl::Signal { low, .. }) => low,
            Some(Decl::Constant { low, .. }) => low,
            None => 0,
        }
    }

    /// Declares a name that is not declared yet.
    pub fn declare(&mut self, name: &str, decl: Decl) -> Result<(), ScopeError>
        ensures declared { OnOk result (names_of self.new ≡ with_name (names_of self.old) name.now (Some decl)) }
        ensures twice { (result ≡ Err errors.Twice) ↔ IsSome (names_of self.old name.now) }
        ensures unchanged { OnErr result (self.new ≡ self.old) }
    {
        if self.names.contains_key(name) {
            return Err(ScopeError::Twice);
        }
        let Ok(key) = String::from_str(self.alloc, name) else {
            return Err(ScopeError::Memory);
        };
        match self.names.insert(key, decl) {
            Ok(_) => Ok(()),
            Err(_) => Err(ScopeError::Memory),
        }
    }

    /// Puts a declaration in the place of another, which is given.
    pub fn replace(&mut self, name: &str, decl: Decl) -> Decl
        requires { IsSome (names_of self.old name.now) }
        ensures replaced { Some result ≡ names_of self.old name.now }
        ensures declared { names_of self.new ≡ with_name (names_of self.old) name.now (Some decl) }
    {
        match self.names.get_mut(name) {
            Some(place) => std::mem::replace(place, decl),
            None => decl,
        }
    }

    /// Forgets what the name is declared as, as where an inner name that has no value hides an outer one.
    pub fn hide(&mut self, name: &str)
        ensures { names_of self.new ≡ with_name (names_of self.old) name.now None }
    {
        self.names.remove(name);
    }

    /// Whether each word of a declared signal has its width, as `value` asks.
    pub fn fits(&self, store: &[Word]) -> bool
        ensures each { result ≡ list_all (λ entry. fits_word store.now entry.1) self.now }
        ensures fits { IsTrue result → FitsSignals (names_of self.now) store.now }
    {
        self.names.values().all(|decl| decl.fits(store))
    }

    /// The same scope.
    pub fn copy(&self) -> Result<Scope, AllocError>
        ensures { IfOk result (λ s. s ≡ self.now) }
    {
        Ok(Scope {
            alloc: self.alloc,
            names: self.names.clone()?,
        })
    }
}
