//! A campaign with what it is run on: the netlist, the sites of its mutations, and its tests with their benches.
//!
//! What a campaign of a project and its sources is stands in `specs/Campaigns`; `campaign_reading` makes it, `campaign_run` runs it.
#![tactic(auto)]

pub mod laws;
mod prepared;
mod trial;

pub use prepared::Prepared;
pub use project_benches::read_bench_of;
pub use trial::{Trial, TrialList};
