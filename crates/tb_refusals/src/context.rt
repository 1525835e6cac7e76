//! On what the refusals of items rest.
ghost use Rattle.std.specs.Prelude.{◌≡◌, option_copied};
ghost use Rattle.tb_items.specs.Designs.{is_clock};
ghost use Rattle.tb_refusals.specs.Refusals.{leaves_first, is_free};

use flat_scopes::{Lent, Signal};
use tb_items::BenchItem;
use vlog_meaning::Scope;
use vlog_syntax::Expr;

/// The names of a testbench's module, the hidden ones among them; its signals, by their numbers; the name of its clock, where it
/// generates one; whether the generator leaves the clock's first value to an `initial`; and the hidden signals of the design's
/// outputs, by their numbers.
#[derive(Clone, Copy)]
pub struct Context<'s> {
    pub scope: &'s Scope,
    pub signals: &'s [Signal],
    pub clock: Option<&'s str>,
    pub is_free: bool,
    pub outputs: &'s [u32],
}

/// Whether a name is that of the clock.
pub(crate) fn is_clock(clock: Option<&str>, name: &str) -> bool
    ensures { result ≡ is_clock (option_copied clock.entry) name.now }
{
    match clock {
        Some(clock) => clock == name,
        None => false,
    }
}

/// Whether a generator without this first value leaves it to others.
fn leaves_first(first: &Option<Lent<'_, Expr>>) -> bool
    ensures { result ≡ leaves_first first.now }
{
    match first {
        Some(_) => false,
        None => true,
    }
}

/// Whether the generator of items leaves the clock's first value to an `initial`.
pub fn is_free(items: &[BenchItem<'_>]) -> bool
    ensures { result ≡ is_free items.now }
{
    for item in items {
        if let BenchItem::Clocks(_, generator) = item {
            return leaves_first(&generator.first);
        }
    }
    false
}
