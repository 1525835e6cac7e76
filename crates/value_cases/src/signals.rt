//! The signals of expressions and assignments, and their values.
use anyhow::{Context, Result, bail};
use mcy_base::Word;
use std::alloc::Global;
use vlog_meaning::{Decl, Scope};

/// The signals by their names, and the values by the numbers of the signals.
#[derive(Drop)]
pub(crate) struct Signals {
    pub(crate) scope: Scope,
    pub(crate) values: Vec<Word>,
}

impl Signals {
    /// `a`, `b`, `c` and `d`.
    pub(crate) fn new(alloc: Global) -> Result<Signals> {
        let mut signals = Signals {
            scope: Scope::new(alloc),
            values: Vec::new(alloc),
        };
        signals.add_all()?;
        Ok(signals)
    }

    fn add_all(&mut self) -> Result<()> {
        self.add("a", 2, false, Word::new(8, 200))?;
        self.add("b", 0, true, Word::new(8, 253))?;
        self.add("c", 0, false, Word::new(4, 9))?;
        self.add("d", 0, false, Word::new(64, 0x0123_4567_89ab_cdef))
    }

    /// Declares the next signal, whose lowest bit has this number.
    fn add(&mut self, name: &str, low: u32, is_signed: bool, value: Option<Word>) -> Result<()> {
        let value = value.context("no word")?;
        let signal = Decl::Signal {
            width: value.width(),
            low,
            is_signed,
            number: u32::try_from(self.values.len()).ok().context("no number")?,
        };
        self.values.push(value)?;
        match self.scope.declare(name, signal) {
            Ok(()) => Ok(()),
            Err(_) => bail!("declared twice"),
        }
    }
}
