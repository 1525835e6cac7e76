//! Bytes by what they may stand for in a source (IEEE 1364-2005, 3.2 to 3.7).
ghost use Rattle.std.specs.Prelude.{◌≡◌, ◌<◌, IfSome};
ghost use Rattle.vlog_token.specs.Bytes.{is_blank, is_decimal_part, is_digit, is_digit_part, is_escape, is_name_part, is_name_start, is_sign, is_x, is_z, radix_of};
ghost use Rattle.std.specs.Char.{digit_value};

/// Space, tab, newline, carriage return or form feed.
pub fn is_blank(b: u8) -> bool
    ensures { result ≡ is_blank b }
{
    b == b' ' || b == b'\t' || b == b'\n' || b == b'\r' || b == 12
}

pub fn is_name_start(b: u8) -> bool
    ensures { result ≡ is_name_start b }
{
    b.is_ascii_alphabetic() || b == b'_'
}

pub fn is_name_part(b: u8) -> bool
    ensures { result ≡ is_name_part b }
{
    b.is_ascii_alphanumeric() || b == b'_' || b == b'$'
}

pub fn is_decimal_part(b: u8) -> bool
    ensures { result ≡ is_decimal_part b }
{
    b.is_ascii_digit() || b == b'_'
}

pub fn is_x(b: u8) -> bool
    ensures { result ≡ is_x b }
{
    b == b'x' || b == b'X'
}

/// `?` is another spelling of z.
pub fn is_z(b: u8) -> bool
    ensures { result ≡ is_z b }
{
    b == b'z' || b == b'Z' || b == b'?'
}

/// The value of a digit or a letter, in radix 36; 36 for any other byte.
pub fn digit_value(b: u8) -> u8
    ensures { result ≡ digit_value b }
{
    match b {
        b'0'..=b'9' => b - b'0',
        b'A'..=b'Z' => b - b'A' + 10,
        b'a'..=b'z' => b - b'a' + 10,
        _ => 36,
    }
}

/// A digit of this radix: x and z digits are none of radix 10.
pub fn is_digit(radix: u8, b: u8) -> bool
    ensures { result ≡ is_digit radix b }
{
    digit_value(b) < radix || radix != 10 && (is_x(b) || is_z(b))
}

pub fn is_digit_part(radix: u8, b: u8) -> bool
    ensures { result ≡ is_digit_part radix b }
{
    is_digit(radix, b) || b == b'_'
}

pub fn is_sign(b: u8) -> bool
    ensures { result ≡ is_sign b }
{
    b == b's' || b == b'S'
}

/// The radix of a base's letter.
pub fn radix_of(b: u8) -> Option<u8>
    ensures radix { result ≡ radix_of b }
    ensures some { IfSome result (λ radix. 0 < radix) }
{
    if b == b'b' || b == b'B' {
        Some(2)
    } else if b == b'o' || b == b'O' {
        Some(8)
    } else if b == b'd' || b == b'D' {
        Some(10)
    } else if b == b'h' || b == b'H' {
        Some(16)
    } else {
        None
    }
}

/// What stands behind the `\` of an escape.
pub fn is_escape(b: u8) -> bool
    ensures { result ≡ is_escape b }
{
    b == b'n' || b == b't' || b == b'\\' || b == b'"'
}
