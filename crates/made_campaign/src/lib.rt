//! The campaign of the project that two numbers make, read from its texts as that of any project is read from its files.
#![tactic(auto)]

mod making;

pub use making::made_campaign;
