//! The database in a file, whatever the file held: what opens it, what is found in it, and how a call ends with it.
#![tactic(auto)]

mod closing;
mod database;
pub mod laws;

pub use closing::close_keeper;
pub use database::Database;
