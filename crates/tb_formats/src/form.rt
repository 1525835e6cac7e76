//! The forms in which a value is printed (IEEE 1364-2005, 17.1.1.2).

/// The letter of a format.
#[derive(Clone, Copy, Debug, PartialEq, Eq)]
pub enum Form {
    /// `%b`
    Binary,
    /// `%o`
    Octal,
    /// `%h` or `%x`
    Hexadecimal,
    /// `%d`
    Decimal,
    /// `%t`
    Time,
    /// `%c`
    Character,
}

/// How a value is printed: its form, and whether it is padded to the places of its width. A `0` after the `%` says that it is not.
#[derive(Clone, Copy, Debug, PartialEq, Eq)]
pub struct Format {
    pub form: Form,
    pub padded: bool,
}
