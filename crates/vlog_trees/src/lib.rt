//! From the steps of a reading to the trees of its modules.
//!
//! The steps are the trees from the left, each production before its parts. They are gone through from the last to the
//! first, with a stack of what was read: a token pushes itself, and a production puts what it means in the place of its
//! parts.
//!
//! What a production means is a line of `Expressions` or `Passed` (those that mean what one of their parts means), `Statements`
//! or `Events` of `vlog_statements`, `Items` of `vlog_items`, and `Declarations` or `Modules` of `vlog_declarations`. Each of
//! these has its function, which hands a production that it does not know to the next, so the ones that a text has most of come
//! first. `Meaning` says what whole trees mean.
#![tactic(auto)]

mod build;
mod expressions;
mod selects;

pub use build::build_modules;
