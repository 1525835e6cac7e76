//! Names of generate blocks (IEEE 1364-2005, 12.4.1 and 12.4.3).
ghost use Rattle.std.specs.Prelude.{◌≡◌, codes, None, IfOk};
ghost use Rattle.flat_scopes.specs.Owns.{what_of};
ghost use Rattle.flat_items.specs.Flattened.{label_of, IsFree, IsBlockName};
ghost use Rattle.flat_items.specs.Replacing.{index_text, turn_name};

use flat_scopes::{Lent, OwnNames};
use mcy_base::Text;
use std::alloc::{AllocError, Global};
use vlog_syntax::{Identifier, Item};

/// The name of a block without a label in a scope that has these names of its own: the first one that is none of them.
fn free_name(alloc: Global, own: &OwnNames, number: u32) -> Result<Text, AllocError>
    ensures { IfOk result (λ name. IsFree (what_of own.now) number (codes "genblk") name) }
{
    let mut prefix = String::from_str(alloc, "genblk")?;
    'zeros: for _ in 0..u32::MAX {
        let text = format!(in alloc; "{prefix}{number}")?;
        match own.get(text.as_str()) {
            None => return Ok(Text::from_string(text)),
            Some(_) => prefix.push_str("0")?,
        }
    }
    Err(AllocError)
}

/// The label of a block.
fn label_of(item: &Item) -> Option<Lent<'_, Identifier>>
    ensures { result ≡ label_of item.now }
{
    match item {
        Item::GenerateBlock(_, Some(label), _) => Some(Lent::of(label)),
        Item::GenerateBlock(_, None, _) => None,
        _ => None,
    }
}

/// The name of a block of a construct with this number: its label, where it has one.
pub(crate) fn block_name(
    alloc: Global,
    own: &OwnNames,
    number: u32,
    item: &Item,
) -> Result<Text, AllocError>
    ensures { IfOk result (λ name. IsBlockName (what_of own.now) number (label_of item.now) name) }
{
    match label_of(item) {
        Some(label) => Text::copy(alloc, label.get().name.as_str()),
        None => free_name(alloc, own, number),
    }
}

/// `name[value]`, of a turn.
pub(crate) fn turn_name(alloc: Global, name: &str, value: u32) -> Result<Text, AllocError>
    ensures { IfOk result (λ text. text ≡ turn_name name.now value) }
{
    let text = if value < 0x8000_0000 {
        format!(in alloc; "{name}[{value}]")?
    } else {
        let magnitude = 0x1_0000_0000u64 - u64::from(value);
        format!(in alloc; "{name}[-{magnitude}]")?
    };
    Ok(Text::from_string(text))
}
