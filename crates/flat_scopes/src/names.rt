//! A list of names, so that it costs no look at all of them to tell whether a name is among them.
//!
//! Invariant: `known` has the names of the list, and no others. Contracts see the list alone.
ghost use Rattle.std.specs.Prelude.{◌≡◌, ◌++◌, ◌∷◌, [], IfOk};
ghost use Rattle.flat_scopes.specs.Known.{is_among as among};

use crate::lent::Lent;
use std::alloc::{AllocError, Global};
use std::collections::BTreeSet;
use std::marker::Model;
use vlog_syntax::Identifier;

/// Names, in order.
#[derive(Drop)]
pub struct NameList<'a> {
    alloc: Global,
    names: Vec<Lent<'a, Identifier>>,
    known: BTreeSet<String>,
}

impl<'a> Model for NameList<'a> {
    ghost use Rattle.std.specs.Prelude.{List};
    ghost use Rattle.vlog_syntax.specs.declared.identifier.Identifier.{Identifier as Name};
    ghost use Rattle.flat_scopes.specs.Known.{AreKnown};

    ghost Value = { List Name };

    ghost view = { λ n. n.names.items };

    ghost invariant = { λ n. AreKnown n.names.items n.known };
}

impl<'a> NameList<'a> {
    /// No names.
    pub fn new(alloc: Global) -> NameList<'a>
        ensures { result ≡ [] }
    {
        NameList {
            alloc,
            names: Vec::new(alloc),
            known: BTreeSet::new(alloc),
        }
    }

    /// These names.
    pub fn of(alloc: Global, names: &[Lent<'a, Identifier>]) -> Result<NameList<'a>, AllocError>
        ensures { IfOk result (λ list. list ≡ names.now) }
    {
        let mut list = NameList::new(alloc);
        for name in names {
            list = list.with(Lent::of(name.get()))?;
        }
        Ok(list)
    }

    /// The list with a name more at its end.
    pub fn with(self, name: Lent<'a, Identifier>) -> Result<NameList<'a>, AllocError>
        ensures { IfOk result (λ list. list ≡ self.entry ++ name.entry ∷ []) }
    {
        let NameList {
            alloc,
            mut names,
            mut known,
        } = self;
        let key = String::from_str(alloc, name.get().name.as_str())?;
        names.push(name)?;
        match known.insert(key) {
            Ok(_) => Ok(NameList {
                alloc,
                names,
                known,
            }),
            Err(_) => Err(AllocError),
        }
    }

    /// The names.
    pub fn as_slice(&self) -> &[Lent<'a, Identifier>]
        ensures { result.now ≡ self.now }
    {
        self.names.as_slice()
    }

    /// Whether a name is one of these.
    pub fn has(&self, name: &str) -> bool
        ensures { result ≡ among self.now name.now }
    {
        self.known.contains(name)
    }
}
