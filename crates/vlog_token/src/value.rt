//! The value of a number.

use mcy_base::Word;

/// The value of a number.
#[derive(Clone, Copy, Debug)]
pub struct Number {
    /// The value in the number's width. The x, z and ? bits are 0 in it.
    pub value: Word,
    pub is_signed: bool,
    /// The bits that are x.
    pub x_bits: u128,
    /// The bits that are z, of which ? is another spelling.
    pub z_bits: u128,
}
