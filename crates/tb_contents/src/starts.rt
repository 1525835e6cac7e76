//! The values with which signals start.
ghost use Rattle.std.specs.Prelude.{◌≡◌, ◌≤◌, IfOk, slice_set, slice_index, length};
ghost use Rattle.vlog_meaning.specs.Scopes.{names_of};
ghost use Rattle.tb_contents.specs.Starts.{start_value, item_start, started};

use mcy_base::Word;
use tb_items::BenchItem;
use tb_signals::Signals;
use vlog_meaning::{Scope, constant_at};
use vlog_syntax::Expr;

/// A constant as a value of so many bits; 0 where it is none.
fn start_value(value: &Expr, scope: &Scope, width: u8) -> Word
    requires some { 1 ≤ width }
    requires narrow { width ≤ 128 }
    ensures width { result.width ≡ width }
    ensures bits { result.bits ≡ start_value (names_of scope.now) width value.now }
{
    match constant_at(value, scope, width) {
        Ok(word) => word,
        Err(_) => Word::new(width, 0).unwrap(),
    }
}

/// The value that a declaration gives a signal.
fn start_signal(signals: &mut Signals, number: u32, value: &Expr)
    ensures scope { signals.new.scope ≡ signals.old.scope }
    ensures widths { signals.new.widths ≡ signals.old.widths }
    ensures values { signals.new.values ≡ slice_set signals.old.values number (start_value (names_of signals.old.scope) (slice_index signals.old.widths number) value.now) }
{
    if let Some(width) = signals.width(number) {
        let word = start_value(value, signals.scope(), width);
        signals.start(number, word);
    }
}

/// The value that an item gives a signal, if it gives one.
fn start_item(signals: &mut Signals, item: &BenchItem<'_>)
    ensures scope { signals.new.scope ≡ signals.old.scope }
    ensures widths { signals.new.widths ≡ signals.old.widths }
    ensures values { signals.new.values ≡ item_start (names_of signals.old.scope) signals.old.widths signals.old.values item.now }
{
    if let BenchItem::Starts(number, value) = item {
        start_signal(signals, *number, value.get());
    }
}

/// The values that the items give signals.
pub fn start_all(signals: &mut Signals, items: &[BenchItem<'_>])
    ensures scope { signals.new.scope ≡ signals.old.scope }
    ensures widths { signals.new.widths ≡ signals.old.widths }
    ensures values { signals.new.values ≡ started (names_of signals.old.scope) signals.old.widths signals.old.values items.now }
{
    for item in items {
        start_item(signals, item);
    }
}
