//! Bytes in a printable form: `\` stands before the two hexadecimal digits of a byte.
ghost use Rattle.std.specs.Prelude.{◌<◌};

use std::alloc::{AllocError, Global};

fn digit_value(digit: u8) -> u8
    ensures { result < 16 }
{
    match digit {
        b'0'..=b'9' => digit - b'0',
        b'a'..=b'f' => digit - b'a' + 10,
        _ => 0,
    }
}

/// The bytes of a text in this form.
pub fn unescaped(alloc: Global, text: &str) -> Result<Vec<u8>, AllocError> {
    let mut bytes = Vec::new(alloc);
    let mut rest = text.as_bytes();
    while let [first, more @ ..] = rest {
        match more {
            [high, low, behind @ ..] if *first == b'\\' => {
                bytes.push(digit_value(*high) * 16 + digit_value(*low))?;
                rest = behind;
            }
            _ => {
                bytes.push(*first)?;
                rest = more;
            }
        }
    }
    Ok(bytes)
}
