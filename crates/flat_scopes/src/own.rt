//! The names that a scope declares itself, which are a map from names. Contracts see the list of its entries, and `what_of`
//! what these say of a name.
ghost use Rattle.std.specs.Prelude.{◌≡◌, [], IfOk};
ghost use Rattle.flat_scopes.specs.Owns.{what_of, with_own};

use crate::signal::What;
use std::alloc::{AllocError, Global};
use std::collections::BTreeMap;
use std::marker::Model;

/// Names and what each stands for.
#[derive(Drop)]
pub struct OwnNames {
    alloc: Global,
    names: BTreeMap<String, What>,
}

impl Model for OwnNames {
    ghost use Rattle.std.specs.Prelude.{List, ℕ, map};
    ghost use Rattle.flat_scopes.specs.declared.signal.What.{What as Meaning};
    ghost use Rattle.flat_scopes.specs.Owns.{own_entry};

    ghost Value = { List (List ℕ × Meaning) };

    ghost view = { λ o. map own_entry o.names.entries };
}

impl OwnNames {
    /// No names.
    pub(crate) fn new(alloc: Global) -> OwnNames
        ensures { result ≡ [] }
    {
        OwnNames {
            alloc,
            names: BTreeMap::new(alloc),
        }
    }

    /// What the name stands for, if it is one of these.
    pub fn get(&self, name: &str) -> Option<What>
        ensures { result ≡ what_of self.now name.now }
    {
        self.names.get(name).copied()
    }

    /// Adds a name, or puts another meaning in the place of its own.
    pub(crate) fn set(&mut self, name: &str, what: What) -> Result<(), AllocError>
        ensures { IfOk result (λ done. what_of self.new ≡ with_own (what_of self.old) name.now what) }
    {
        let key = String::from_str(self.alloc, name)?;
        match self.names.insert(key, what) {
            Ok(_) => Ok(()),
            Err(_) => Err(AllocError),
        }
    }
}
