//! What `$display` and `$write` print: values in the forms of a format, and format texts in pieces.
//!
//! What a value prints in a form is the digits of a base from the highest on, from which the zeros in front are taken away where
//! the format is not padded, or the decimal that `itoa` writes behind as many spaces as are missing.
#![tactic(auto)]

mod decimal;
mod digits;
mod form;
mod text;
mod value;

pub use form::{Form, Format};
pub use text::{Piece, PieceList, read_format};
pub use value::push_value;
