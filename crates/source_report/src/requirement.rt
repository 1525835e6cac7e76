//! Whether a requirement on the counts of tags is met.
ghost use Rattle.std.specs.Prelude.{◌≡◌, ◌<◌, ◌≤◌};
ghost use Rattle.result_book.specs.Campaigns.{IsFit};
ghost use Rattle.result_book.specs.Rows.{groups};
ghost use Rattle.result_book.specs.States.{IsStateOf};
ghost use Rattle.source_report.specs.Requirements as specs;

use crate::counts::{End, end_count};
use crate::status::tag_bit;
use mcy_base::Text;
use result_book::{Campaign, State};
use std::slice;

/// Whether a name is one of these.
fn is_named(wanted: &[Text], name: &str) -> bool
    ensures { result ≡ specs.is_named wanted.now name.now }
{
    wanted.iter().any(|other| other.as_str() == name)
}

/// On how many mutations the script ended with the tag of this number, if its name is one of these.
fn tag_count(campaign: &Campaign, state: &State, wanted: &[Text], tag: usize, name: &str) -> u32
    requires fit { IsFit campaign.now }
    requires state { IsStateOf campaign.now state.now.rows state.now }
    requires tag { tag < 32 }
    ensures is { result ≡ specs.tag_count campaign.now (groups campaign.now state.now.rows) wanted.now tag name.now }
    ensures few { result ≤ 10000 }
{
    if is_named(wanted, name) {
        end_count(campaign, state, End::Tag(tag_bit(tag)))
    } else {
        0
    }
}

/// The sum of the counts of the tags whose names are wanted.
fn named_count(campaign: &Campaign, state: &State, wanted: &[Text]) -> u32
    requires fit { IsFit campaign.now }
    requires state { IsStateOf campaign.now state.now.rows state.now }
    ensures { result ≡ specs.named_count campaign.now (groups campaign.now state.now.rows) wanted.now 0 campaign.now.tags }
{
    let mut count = 0;
    for (tag, name) in campaign.tags.as_slice().iter().enumerate() {
        count += tag_count(campaign, state, wanted, tag, name.as_str());
    }
    count
}

/// Whether a part is at least this share of the whole, in percent.
fn is_share(percent: u32, part: u32, whole: u32) -> bool
    ensures { result ≡ specs.is_share percent part whole }
{
    u64::from(percent) * u64::from(whole) <= 100 * u64::from(part)
}

/// Whether the mutations on which the script ended with the one tag are at least this share of those with the tags of these names.
pub fn is_met(
    campaign: &Campaign,
    state: &State,
    percent: u32,
    counted: &Text,
    among: &[Text],
) -> bool
    requires fit { IsFit campaign.now }
    requires state { IsStateOf campaign.now state.now.rows state.now }
    ensures { result ≡ specs.is_met campaign.now (groups campaign.now state.now.rows) percent counted.now among.now }
{
    let part = named_count(campaign, state, slice::from_ref(counted));
    let whole = named_count(campaign, state, among);
    is_share(percent, part, whole)
}
