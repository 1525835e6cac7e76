//! What is read of tokens depends on what is seen of them: their kinds, texts and places. It does not depend on where
//! the texts lie in memory, so two readings of one file say the same.
//!
//! The definitions of `parse` and `expand` are of tokens as they lie in memory; by these laws who reads files may speak of bytes
//! alone. In the proofs, `BareFiles` has directives and `BareTrees` trees, where `BareRules` goes over all productions.
#![tactic(auto)]

mod laws;

pub use laws::{directives_go_by_what_is_seen, grammar_goes_by_what_is_seen};
