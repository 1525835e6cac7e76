//! The macros that are defined, by name (IEEE 1364-2005, 19.3).
//!
//! The text of each is a part of the file's tokens.
ghost use Rattle.std.specs.Prelude.{◌≡◌, Some, None, OnOk, option_map};
ghost use Rattle.vlog_expand.specs.Definitions.{definitions_of, no_macros, with_text};

use std::alloc::{AllocError, Global};
use std::collections::BTreeMap;
use vlog_token::Token;

/// The macros that are defined.
#[derive(Drop)]
pub struct Macros<'t, 'a> {
    texts: BTreeMap<&'a [u8], &'t [Token<'a>]>,
}

impl<'t, 'a> Macros<'t, 'a> {
    /// No macro is defined.
    pub fn new(alloc: Global) -> Macros<'t, 'a>
        ensures { definitions_of result ≡ no_macros }
    {
        Macros {
            texts: BTreeMap::new(alloc),
        }
    }

    /// The text of a macro, if it is defined.
    pub fn text(&self, name: &'a [u8]) -> Option<&'t [Token<'a>]>
        ensures { option_map (λ text. text.now) result ≡ definitions_of self.now name.now }
    {
        self.texts.get(&name).copied()
    }

    /// The macro has this text from here on.
    pub fn define(&mut self, name: &'a [u8], text: &'t [Token<'a>]) -> Result<(), AllocError>
        ensures { OnOk result (definitions_of self.new ≡ with_text (definitions_of self.old) name.now (Some text.now)) }
    {
        self.texts.insert(name, text)?;
        Ok(())
    }

    /// The macro is not defined from here on.
    pub fn undefine(&mut self, name: &'a [u8])
        ensures { definitions_of self.new ≡ with_text (definitions_of self.old) name.now None }
    {
        let _ = self.texts.remove(&name);
    }
}
