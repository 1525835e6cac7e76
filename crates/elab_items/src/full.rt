//! Designs with too many bits: nothing of them can be built, so they are refused for the first item that is listed as refused before
//! the signal that passes the limit, or for the limit.
ghost use Rattle.std.specs.Prelude.{◌≡◌};
ghost use Rattle.elab_items.specs.Designs.{widths_of};
ghost use Rattle.elab_items.specs.Full.{listed_before};

use flat_instances::{FlatItem, ItemError};
use flat_scopes::Signal;

/// The most bits of the signals of a design.
const MAX_BITS: u32 = 4_194_304;

/// How many bits the signal has.
fn width_of(signals: &[Signal], number: u32) -> u8
    ensures { result ≡ widths_of signals.now number }
{
    match signals.get(number as usize) {
        Some(signal) => signal.bits.width,
        None => 0,
    }
}

/// The first item that is listed as refused before the signal that passes the limit.
pub fn listed_before(signals: &[Signal], items: &[FlatItem<'_>]) -> Option<ItemError>
    ensures { result ≡ listed_before (widths_of signals.now) 0 items.now }
{
    let mut bits = 0;
    for item in items {
        match item {
            FlatItem::Refuses(error) => return Some(*error),
            FlatItem::Declares(number) => {
                let width = u32::from(width_of(signals, *number));
                if bits > MAX_BITS - width {
                    return None;
                }
                bits += width;
            }
            _ => {}
        }
    }
    None
}
