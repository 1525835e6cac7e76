//! The values of a script.
ghost use Rattle.std.specs.Prelude.{◌≡◌};
ghost use Rattle.tag_script.specs.Values.{compared, datum_of, is_same, is_true, truth, word_text};

use tag_lines::Comparison;

/// A value. True is 1 and False is 0.
#[derive(Clone, Copy)]
pub enum Value<'a> {
    Number(u32),
    Text(&'a [u8]),
}

/// Whether a value is neither 0 nor the empty text.
pub fn is_true(value: Value<'_>) -> bool
    ensures { result ≡ is_true (datum_of value.entry) }
{
    match value {
        Value::Number(number) => number != 0,
        Value::Text(text) => !text.is_empty(),
    }
}

/// The value of a truth.
pub fn truth<'a>(is_so: bool) -> Value<'a>
    ensures { datum_of result ≡ truth is_so }
{
    if is_so {
        Value::Number(1)
    } else {
        Value::Number(0)
    }
}

/// Whether two values are equal. A number never equals a text.
fn is_same(left: Value<'_>, right: Value<'_>) -> bool
    ensures { result ≡ is_same (datum_of left.entry) (datum_of right.entry) }
{
    match (left, right) {
        (Value::Number(a), Value::Number(b)) => a == b,
        (Value::Text(a), Value::Text(b)) => a == b,
        _ => false,
    }
}

/// The value of a comparison.
pub fn compared<'a>(operator: Comparison, left: Value<'_>, right: Value<'_>) -> Value<'a>
    ensures { datum_of result ≡ compared operator (datum_of left.entry) (datum_of right.entry) }
{
    match operator {
        Comparison::Equal => truth(is_same(left, right)),
        Comparison::NotEqual => truth(!is_same(left, right)),
    }
}

/// The text of a word, by its code.
#[tactic(auto, unfolding(crate::specs::Values::word_text))]
pub fn word_text(word: u32) -> &'static [u8]
    ensures { result.now ≡ word_text word }
{
    match word {
        0 => b"PASS",
        1 => b"FAIL",
        2 => b"HANG",
        _ => b"UNKNOWN",
    }
}
