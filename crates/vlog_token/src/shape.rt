//! The shape of a number: where it ends.
ghost use Rattle.std.specs.Prelude.{◌≡◌, ◌≤◌, length};
ghost use Rattle.vlog_token.specs.Reading.{base_length, letter_length, length_behind_size, shape_length};

use crate::bytes::{is_sign, radix_of};
use crate::run::{decimal_run, digit_run};

/// How many bytes at the front have the shape of a number.
pub fn shape_len(bytes: &[u8]) -> usize
    ensures len { result ≡ shape_length bytes.now }
    ensures within { result ≤ length bytes.now }
{
    let (size, rest) = bytes.split_at(decimal_run(bytes));
    size.len() + len_behind_size(rest)
}

fn len_behind_size(bytes: &[u8]) -> usize
    ensures len { result ≡ length_behind_size bytes.now }
    ensures within { result ≤ length bytes.now }
{
    match bytes {
        [b'\'', base @ ..] => 1 + base_len(base),
        _ => 0,
    }
}

fn base_len(bytes: &[u8]) -> usize
    ensures len { result ≡ base_length bytes.now }
    ensures within { result ≤ length bytes.now }
{
    match bytes {
        [sign, rest @ ..] if is_sign(*sign) => 1 + letter_len(rest),
        _ => letter_len(bytes),
    }
}

fn letter_len(bytes: &[u8]) -> usize
    ensures len { result ≡ letter_length bytes.now }
    ensures within { result ≤ length bytes.now }
{
    match bytes {
        [letter, rest @ ..] => match radix_of(*letter) {
            Some(radix) => 1 + digit_run(radix, rest),
            None => 0,
        },
        [] => 0,
    }
}
