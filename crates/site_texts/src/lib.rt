//! Site texts, read: the mutation site of a text, or the first byte after which no site text goes on.
//!
//! A text is looked at field by field: `Rests` says what may stand from each field on, so that what is bad in a field is bad in
//! the text, and `Names` how far a text is UTF-8 without blanks, character by character. In its proofs, `Stuck` goes from a field
//! to the text, `Choosing` looks among a few words, `Characters` has the bytes of characters, `Fronts` names, and `Sources` files
//! and lines; `Fields` says where each field is bad, and `Joining` what was read of it with what stands behind.
#![tactic(auto)]

mod character;
mod choice;
mod name;
mod parts;
mod read;
mod site;
mod source;

pub use read::read_site_text;
pub use site::{SiteText, SiteTextError};
