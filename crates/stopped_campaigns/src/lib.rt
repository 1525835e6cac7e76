//! Tests of campaigns over databases in memory that stop at a call of the disk, and of a keeper that opens such a database. They stand
//! apart from the program, so that it is proved without them, and together, since a test that links SQLite takes minutes to build.
#![tactic(auto)]

#[cfg(test)]
mod opening;
#[cfg(test)]
mod tests;
#[cfg(test)]
mod upgrades;
