//! A value with some of its bits replaced.
ghost use Rattle.std.specs.Prelude.{◌≡◌, ◌<◌, ◌≤◌, ◌+◌, ◌*◌, ◌/◌, ◌%◌, ◌^◌};
ghost use Rattle.tb_machine.specs.Worlds.{replaced};

use crate::update::Update;
use mcy_base::Word;

/// The bits below a place.
fn low_part(bits: u128, place: u8) -> u128
    requires { place < 128 }
    ensures { result ≡ bits % 2 ^ place }
{
    bits & ((1u128 << place) - 1)
}

/// The number without the bits below a place.
fn high_part(bits: u128, place: u8) -> u128
    requires { place ≤ 128 }
    ensures { result ≡ bits / 2 ^ place * 2 ^ place }
{
    if place < 128 {
        bits - low_part(bits, place)
    } else {
        0
    }
}

/// The bits of a value of this width, with those of an update among them.
fn replaced_bits(width: u8, bits: u128, update: Update) -> u128
    requires narrow { width ≤ 128 }
    requires fits { bits < 2 ^ width }
    requires some { 1 ≤ update.width }
    requires inside { update.low + update.width ≤ width }
    requires value { update.value < 2 ^ update.width }
    ensures value { result ≡ replaced bits update }
    ensures fits { result < 2 ^ width }
{
    let low = low_part(bits, update.low);
    let middle = update.value << update.low;
    let high = high_part(bits, update.low + update.width);
    low + middle + high
}

/// The bits of a value of this width, with those of an update. One of all bits is the value itself.
fn bits_with(width: u8, bits: u128, update: Update) -> u128
    requires narrow { width ≤ 128 }
    requires fits { bits < 2 ^ width }
    requires some { 1 ≤ update.width }
    requires inside { update.low + update.width ≤ width }
    requires value { update.value < 2 ^ update.width }
    ensures value { result ≡ replaced bits update }
    ensures fits { result < 2 ^ width }
{
    if update.width == width {
        update.value
    } else {
        replaced_bits(width, bits, update)
    }
}

/// A word with the bits of an update.
pub(crate) fn replaced(word: Word, update: Update) -> Word
    requires some { 1 ≤ update.width }
    requires inside { update.low + update.width ≤ word.width }
    requires value { update.value < 2 ^ update.width }
    ensures width { result.width ≡ word.width }
    ensures bits { result.bits ≡ replaced word.bits update }
{
    let bits = bits_with(word.width(), word.bits(), update);
    Word::new(word.width(), bits).unwrap()
}
