//! Tests of the public calls of the lower crates, each once where all goes well, and of what no clause says of them: a reader or a
//! writer that fails midway, the real files, a keeper whose write fails. They stand apart, so that those crates are proved once.
#![tactic(auto)]

#[cfg(test)]
mod base;
#[cfg(test)]
mod keepers;
#[cfg(test)]
mod outside;
#[cfg(test)]
mod readers;
#[cfg(test)]
mod scopes;
