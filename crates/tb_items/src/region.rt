//! Generate regions, which an opened module lists no step for.
ghost use Rattle.std.specs.Prelude.{◌≡◌};
ghost use Rattle.vlog_syntax.specs.declared.item.Item.{out-Item};
ghost use Rattle.tb_items.specs.Items.{region_place, first_region};

use mcy_base::Span;
use vlog_syntax::Item;

/// The place of a region.
fn region_place(item: &Item) -> Option<Span>
    ensures { result ≡ region_place (out-Item item.now) }
{
    match item {
        Item::GenerateRegion(span, _) => Some(*span),
        _ => None,
    }
}

/// The place of the first generate region among the items of a module.
pub fn first_region(items: &[Item]) -> Option<Span>
    ensures { result ≡ first_region items.now }
{
    for item in items {
        if let Some(span) = region_place(item) {
            return Some(span);
        }
    }
    None
}
