//! Words, texts, lists, the numbers of calls and the counter of steps.
ghost use Rattle.std.specs.Prelude.{◌≡◌, ◌<◌};

use mcy_base::{Bytes, BytesList, Steps, Text, Word, at_call, call_after};
use std::alloc::{AllocError, Global};
use std::marker::Brand;
use std::sync::ledger::{Blank, Ledger};
use std::test::Fail;

#[test]
fn a_word_has_1_to_128_bits_and_a_number_that_fits(rt: HostRuntime) {
    let top = 1u128 << 127;
    for (width, bits, is_word) in [
        (0, 0, false),
        (1, 0, true),
        (1, 1, true),
        (1, 2, false),
        (8, 255, true),
        (8, 256, false),
        (127, top - 1, true),
        (127, top, false),
        (128, u128::MAX, true),
        (129, 0, false),
        (255, 0, false),
    ] {
        let read = Word::new(width, bits).map(|word| (word.width(), word.bits()));
        let wanted = if is_word { Some((width, bits)) } else { None };
        assert_eq!(rt; read, wanted, "{bits} in {width} bits");
    }
}

#[test]
fn a_copy_is_the_same_text(rt: HostRuntime) -> Result<(), Fail> {
    let text = Text::copy(rt.alloc(), "clk, rst")?;
    assert_eq!(rt; text.as_str(), "clk, rst");
    let again = Text::from_string(String::from_str(rt.alloc(), "")?);
    assert_eq!(rt; again.as_str(), "");
    Ok(())
}

fn list_of(alloc: Global, items: &[&[u8]]) -> Result<BytesList, AllocError> {
    let mut list = BytesList::from_vec(Vec::new(alloc));
    for item in items {
        list.push(Bytes::copy(alloc, item)?)?;
    }
    Ok(list)
}

#[test]
fn a_copy_is_the_same_list(rt: HostRuntime) -> Result<(), Fail> {
    let items = [b"one".as_slice(), b"", b"\xff\x00"];
    let list = list_of(rt.alloc(), &items)?;
    let copy = list.copy(rt.alloc())?;
    assert_eq!(rt; copy.as_slice().len(), 3);
    for (item, wanted) in copy.as_slice().iter().zip(items) {
        assert_eq!(rt; item.as_slice(), wanted);
    }
    Ok(())
}

#[test]
fn the_first_entry_of_a_call_counts(rt: HostRuntime) {
    let calls = [(3, b'a'), (0, b'b'), (3, b'c'), (u64::MAX, b'd')];
    for (call, wanted) in [
        (Some(0), Some(b'b')),
        (Some(1), None),
        (Some(3), Some(b'a')),
        (Some(u64::MAX), Some(b'd')),
        (None, None),
    ] {
        assert_eq!(rt; at_call(&calls, call), wanted, "at {call:?}");
    }
    assert_eq!(rt; call_after(Some(0)), Some(1));
    assert_eq!(rt; call_after(Some(u64::MAX)), None);
    assert_eq!(rt; call_after(None), None);
}

/// Two steps on a counter of its own.
fn two_steps<L: Ledger>(blank: Blank) -> Steps<L>
    requires name { blank.name ≡ L.name }
    requires parts { blank.parts ≡ L.parts }
    requires one { 0 < blank.parts }
    ensures { result ≡ 2 }
{
    let mut steps = Steps::open(blank);
    steps.tick();
    steps.tick();
    steps
}

/// The number of bytes of such a counter.
fn bytes_of_two_steps<L: Ledger>(blank: Blank) -> usize
    requires name { blank.name ≡ L.name }
    requires parts { blank.parts ≡ L.parts }
    requires one { 0 < blank.parts }
{
    let _steps = two_steps::<L>(blank);
    size_of::<Steps<L>>()
}

#[test]
fn steps_take_no_bytes(rt: HostRuntime) {
    let bytes = bytes_of_two_steps::<Brand>(Blank::new(1));
    assert_eq!(rt; bytes, 0);
}
