//! Declared signals and constants, and a builder that has the signals. Each signal of the scope is one of the builder, of the same
//! width, which is from 1 to 128 bits, and the builder is ready for the next item.
ghost use Rattle.std.specs.Prelude.{◌≤◌, OnOk};
ghost use Rattle.elab_cases.specs.Benches.{IsSound};

use anyhow::{Context, Result, bail};
use mcy_base::{Span, Word};
use net_builder::Builder;
use std::alloc::Global;
use vlog_meaning::{Decl, Scope};

/// The place of each declaration.
const PLACE: Span = Span {
    file: 0,
    line: 1,
    col: 1,
};

/// What was declared and built.
pub(crate) struct Bench {
    pub(crate) builder: Builder,
    pub(crate) scope: Scope,
    /// Which signals are inputs of the top, or have a writer outside the processes.
    pub(crate) marks: Vec<bool>,
    /// The name of the clock.
    pub(crate) clock: Option<String>,
    /// Whether the clock may be set at the start of an `initial`.
    pub(crate) may_start: bool,
}

impl Drop for Bench {
    fn drop(self) {
        let Bench {
            builder: _builder,
            scope: _scope,
            marks: _marks,
            clock: _clock,
            may_start: _may_start,
        } = self;
    }
}

impl Bench {
    /// Nothing is declared.
    pub(crate) fn new(alloc: Global) -> Bench
        ensures { IsSound result }
    {
        Bench {
            builder: Builder::new(alloc),
            scope: Scope::new(alloc),
            marks: Vec::new(alloc),
            clock: None,
            may_start: false,
        }
    }

    /// Declares a signal, whose lowest bit has this number.
    pub(crate) fn signal(&mut self, name: &str, width: u8, low: u32, is_signed: bool) -> Result<()>
        requires { IsSound self.old }
        ensures { OnOk result (IsSound self.new) }
    {
        if width < 1 || width > 128 || self.builder.signal_bits() > 4_000_000 {
            bail!("no such signal");
        }
        let number = self.builder.signal(name, PLACE, width)?;
        let decl = Decl::Signal {
            width,
            low,
            is_signed,
            number,
        };
        match self.scope.declare(name, decl) {
            Ok(()) => Ok(()),
            Err(_) => bail!("declared twice"),
        }
    }

    /// Declares the signal that words give.
    pub(crate) fn declare(&mut self, words: &str, mark: bool) -> Result<()>
        requires { IsSound self.old }
        ensures { OnOk result (IsSound self.new) }
    {
        let (name, rest) = words.split_once(' ').context("no width")?;
        let (width, low) = rest.split_once(' ').context("no number")?;
        let width = width.parse::<u8>().ok().context("no width")?;
        let low = low.parse::<u32>().ok().context("no number")?;
        self.marks.push(mark)?;
        self.signal(name, width, low, false)
    }

    /// Declares a constant.
    fn add_constant(&mut self, name: &str, value: Word) -> Result<()>
        requires sound { IsSound self.old }
        requires some { 1 ≤ value.width }
        requires narrow { value.width ≤ 128 }
        ensures { OnOk result (IsSound self.new) }
    {
        let decl = Decl::Constant {
            value,
            low: 0,
            is_signed: true,
        };
        match self.scope.declare(name, decl) {
            Ok(()) => Ok(()),
            Err(_) => bail!("declared twice"),
        }
    }

    /// Declares the constant of 32 bits that words give.
    pub(crate) fn constant(&mut self, words: &str) -> Result<()>
        requires { IsSound self.old }
        ensures { OnOk result (IsSound self.new) }
    {
        let (name, value) = words.split_once(' ').context("no value")?;
        let value = value.parse::<u128>().ok().context("no value")?;
        let value = Word::new(32, value).context("no value")?;
        self.add_constant(name, value)
    }

    /// Names the clock.
    pub(crate) fn set_clock(&mut self, alloc: Global, name: &str) -> Result<()>
        requires { IsSound self.old }
        ensures { OnOk result (IsSound self.new) }
    {
        self.clock = Some(String::from_str(alloc, name)?);
        self.may_start = true;
        Ok(())
    }
}
