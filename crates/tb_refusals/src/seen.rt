//! What is noted of the items that were looked at.
ghost use Rattle.std.specs.Prelude.{◌≡◌, ◌||◌, [], IfOk};
ghost use Rattle.tb_refusals.specs.Refusals.{is_generator, is_design, is_start};
ghost use Rattle.tb_refusals.specs.Views.{context_of, HasSeen};

use crate::context::Context;
use std::alloc::{AllocError, Global};
use tb_checks::starts_clock;
use tb_items::BenchItem;
use tb_writers::Writers;

/// Whether there was a generator, the design, and an `initial` that sets the clock; and what is written.
#[derive(Drop)]
pub(crate) struct Seen {
    pub(crate) has_generator: bool,
    pub(crate) has_design: bool,
    pub(crate) has_start: bool,
    pub(crate) writers: Writers,
}

/// Whether an item is a clock generator.
fn is_generator(item: &BenchItem<'_>) -> bool
    ensures { result ≡ is_generator item.now }
{
    match item {
        BenchItem::Clocks(..) => true,
        _ => false,
    }
}

/// Whether an item is an instance of the design.
fn is_design(item: &BenchItem<'_>) -> bool
    ensures { result ≡ is_design item.now }
{
    match item {
        BenchItem::Holds(_) => true,
        _ => false,
    }
}

/// Whether an item sets the clock before its first wait.
fn is_start(alloc: Global, context: Context<'_>, item: &BenchItem<'_>) -> bool
    ensures { result ≡ is_start (context_of context.entry) item.now }
{
    match item {
        BenchItem::Runs(process) => {
            starts_clock(alloc, context.scope, context.clock, process.get())
        }
        _ => false,
    }
}

impl Seen {
    /// No items were seen. The design writes its outputs.
    pub(crate) fn new(alloc: Global, context: Context<'_>) -> Result<Seen, AllocError>
        ensures { IfOk result (λ s. HasSeen (context_of context.entry) [] s) }
    {
        let writers = Writers::of_design(alloc, context.outputs)?;
        Ok(Seen {
            has_generator: false,
            has_design: false,
            has_start: false,
            writers,
        })
    }

    /// Notes of an item what is no writing.
    pub(crate) fn note(&mut self, alloc: Global, context: Context<'_>, item: &BenchItem<'_>)
        ensures generator { self.new.has_generator ≡ (self.old.has_generator || is_generator item.now) }
        ensures design { self.new.has_design ≡ (self.old.has_design || is_design item.now) }
        ensures start { self.new.has_start ≡ (self.old.has_start || is_start (context_of context.entry) item.now) }
        ensures writers { self.new.writers ≡ self.old.writers }
    {
        self.has_generator = self.has_generator || is_generator(item);
        self.has_design = self.has_design || is_design(item);
        self.has_start = self.has_start || is_start(alloc, context, item);
    }
}
