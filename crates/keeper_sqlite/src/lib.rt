//! A keeper of a campaign's book in a SQLite database.
//!
//! A statement of SQL is a function of its own (`create`, `insert`, `select`), whose contract speaks of the
//! rows of its table. `read` makes a book of rows, `load`, `begin`, `append` and `upgrade` carry out one call
//! of the keeper each, and `sql_keeper` counts its faults.
//!
//! In its specs, `Tables` has the schema as `sqlite` understands it, `Format` the tables with all their constraints, `Rows`
//! how rows stand for a book, and `Stands` what a connection tells and what a crash may leave; `Creating`, `Making`, `Writing`
//! and `Changes` say what its statements do, `Upgrading` what the migration to the second format leaves and why it fails,
//! `Refusals` which of their errors is want of memory, `Unbegun` and `Unloaded` why a begin or a load is a fault, and `Unique` and `Laws` that rows stand for one book.
#![tactic(auto)]

mod append;
mod begin;
mod create;
mod insert;
mod load;
mod read;
mod refusal;
mod select;
mod sql_keeper;
mod statements;
mod tables;
mod upgrade;

pub use sql_keeper::SqlKeeper;
