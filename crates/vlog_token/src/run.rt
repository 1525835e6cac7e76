//! Runs: how many bytes at the front are of one sort.
ghost use Rattle.std.specs.Prelude.{◌≡◌, ◌≤◌, length};
ghost use Rattle.std.specs.List.{position_or_len, prefix_len};
ghost use Rattle.vlog_token.specs.Bytes.{is_decimal_part, is_digit_part, is_in_line, is_name_part, is_solid};
ghost use Rattle.vlog_token.specs.Numbers.{is_apostrophe};

use crate::bytes::{is_blank, is_decimal_part, is_digit_part, is_name_part};

pub fn name_run(bytes: &[u8]) -> usize
    ensures run { result ≡ prefix_len is_name_part bytes.now }
    ensures within { result ≤ length bytes.now }
{
    bytes.iter().take_while(|b| is_name_part(**b)).count()
}

/// How many bytes stand before the first blank.
pub fn solid_run(bytes: &[u8]) -> usize
    ensures run { result ≡ prefix_len is_solid bytes.now }
    ensures within { result ≤ length bytes.now }
{
    bytes.iter().take_while(|b| !is_blank(**b)).count()
}

pub fn decimal_run(bytes: &[u8]) -> usize
    ensures run { result ≡ prefix_len is_decimal_part bytes.now }
    ensures within { result ≤ length bytes.now }
{
    bytes.iter().take_while(|b| is_decimal_part(**b)).count()
}

pub fn digit_run(radix: u8, bytes: &[u8]) -> usize
    ensures run { result ≡ prefix_len (is_digit_part radix) bytes.now }
    ensures within { result ≤ length bytes.now }
{
    bytes
        .iter()
        .take_while(|b| is_digit_part(radix, **b))
        .count()
}

/// How many bytes stand before the line's end.
pub fn line_run(bytes: &[u8]) -> usize
    ensures run { result ≡ prefix_len is_in_line bytes.now }
    ensures within { result ≤ length bytes.now }
{
    bytes.iter().take_while(|b| **b != b'\n').count()
}

/// How many bytes stand before the first `'`.
pub fn size_run(bytes: &[u8]) -> usize
    ensures run { result ≡ position_or_len is_apostrophe bytes.now }
    ensures within { result ≤ length bytes.now }
{
    bytes.iter().take_while(|b| **b != b'\'').count()
}
