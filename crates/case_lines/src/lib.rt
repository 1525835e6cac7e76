//! What the programs of cases share: a page that is printed as a whole, the place behind all tokens, which texts are cut
//! into tokens, and bytes in a printable form.
#![tactic(auto)]

mod bytes;
mod page;

pub use bytes::unescaped;
pub use page::{END, Page, is_short};
