//! The laws of flattening: what modules are flattened to is one design.
//!
//! The definitions of `flat_scopes`, `flat_instances` and `flat_items` leave no choice. In its proofs, `Forms` tells the forms of
//! items apart, `Scopes` is about the items of a scope and about modules, `Names` about names of blocks and what names stand for,
//! `Parts` about instances, blocks and turns, `Replaced` says what stands in the place of each part by what is looked up for it
//! (`Answer`), and `Flattened` goes over a whole design.
#![tactic(auto)]

mod laws;

pub use laws::designs_flatten_once;
