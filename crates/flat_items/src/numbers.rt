//! The numbers of modules by their names, so that an instance costs no look at all modules.
//!
//! `numbers` is a map from names. Contracts see the list of its entries, and `number_of` what these say of a name.
ghost use Rattle.std.specs.Prelude.{◌≡◌, [], IfOk};
ghost use Rattle.flat_items.specs.Numbers.{number_of, with_number, AreNumbered};

use std::alloc::{AllocError, Global};
use std::collections::BTreeMap;
use std::marker::Model;
use vlog_syntax::Module;

/// The number of the first module of each name.
#[derive(Drop)]
pub(crate) struct ModuleNumbers {
    alloc: Global,
    numbers: BTreeMap<String, usize>,
}

impl Model for ModuleNumbers {
    ghost use Rattle.std.specs.Prelude.{List, ℕ, map};
    ghost use Rattle.flat_items.specs.Numbers.{number_entry};

    ghost Value = { List (List ℕ × ℕ) };

    ghost view = { λ m. map number_entry m.numbers.entries };
}

impl ModuleNumbers {
    /// No names.
    fn new(alloc: Global) -> ModuleNumbers
        ensures { result ≡ [] }
    {
        ModuleNumbers {
            alloc,
            numbers: BTreeMap::new(alloc),
        }
    }

    /// The number of the first module of the name, if there is one.
    pub(crate) fn get(&self, name: &str) -> Option<usize>
        ensures { result ≡ number_of self.now name.now }
    {
        self.numbers.get(name).copied()
    }

    /// Gives a name this number, in the place of its own.
    fn set(&mut self, name: &str, number: usize) -> Result<(), AllocError>
        ensures { IfOk result (λ done. number_of self.new ≡ with_number (number_of self.old) name.now number) }
    {
        let key = String::from_str(self.alloc, name)?;
        match self.numbers.insert(key, number) {
            Ok(_) => Ok(()),
            Err(_) => Err(AllocError),
        }
    }

    /// The numbers of all modules, from the last one on, so that the first one of a name stays.
    pub(crate) fn of(alloc: Global, modules: &[Module]) -> Result<ModuleNumbers, AllocError>
        ensures { IfOk result (AreNumbered modules.now) }
    {
        let mut numbers = ModuleNumbers::new(alloc);
        let mut left = modules.len();
        while left > 0 {
            left -= 1;
            numbers.set(modules[left].name.as_str(), left)?;
        }
        Ok(numbers)
    }
}
