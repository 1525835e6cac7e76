//! Numbers: one or more decimal digits.
ghost use Rattle.std.specs.Prelude.{◌≡◌, ◌≤◌, ◌^◌, IfSome, SomeIff, IsTrue, map, min};
ghost use Rattle.std.specs.List.{list_all};
ghost use Rattle.project_lines.specs.Words.{is_one};
ghost use Rattle.project_lines.specs.Numbers.{is_digit, is_number, is_within, value, value_within};

/// The least number that no `u64` holds.
const LIMIT: u128 = 1 << 64;

/// A decimal digit.
#[tactic(auto, unfolding(crate::specs::Numbers::is_digit))]
pub fn is_digit(byte: u8) -> bool
    ensures { result ≡ is_digit byte }
{
    48 <= byte && byte <= 57
}

/// Whether the word is a number.
#[tactic(auto, unfolding(crate::specs::Numbers::is_number))]
pub fn is_number(word: &str) -> bool
    ensures { result ≡ is_number word.now }
{
    !word.is_empty() && are_digits(word.as_bytes())
}

/// Whether the words are one number.
pub fn is_one_number(args: &[&str]) -> bool
    ensures { result ≡ is_one is_number (map (λ word. word.now) args.now) }
{
    match args {
        [word] => is_number(word),
        _ => false,
    }
}

fn are_digits(bytes: &[u8]) -> bool
    ensures { result ≡ list_all is_digit bytes.now }
{
    bytes.iter().all(|byte| is_digit(*byte))
}

/// The value of decimal digits, or the limit where it is the limit or more.
#[tactic(auto, unfolding(crate::specs::Numbers::value))]
fn value(digits: &[u8]) -> u128
    ensures { result ≡ min (value digits.now) (2 ^ 64) }
{
    let mut value: u128 = 0;
    for digit in digits {
        value = (value * 10 + u128::from(digit.saturating_sub(48))).min(LIMIT);
    }
    value
}

/// The number, where it is from `least` to `most`.
#[tactic(auto, unfolding(crate::specs::Numbers::is_within))]
pub fn number_within(least: u64, most: u64, word: &str) -> Option<u64>
    ensures value { SomeIff result (IsTrue (is_within least most word.now)) (value word.now) }
    ensures most { IfSome result (λ n. n ≤ most) }
{
    if !is_number(word) {
        return None;
    }
    let value = value(word.as_bytes());
    if u128::from(least) <= value && value <= u128::from(most) {
        Some(value as u64)
    } else {
        None
    }
}

/// The number, or the default where it is none from `least` to `most`.
#[tactic(auto, unfolding(crate::specs::Numbers::value_within))]
pub fn number_or(default: u64, least: u64, most: u64, word: &str) -> u64
    ensures value { result ≡ value_within default least most word.now }
    ensures most { default ≤ most → result ≤ most }
{
    number_within(least, most, word).unwrap_or(default)
}
