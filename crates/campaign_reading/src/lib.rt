//! What makes a campaign of a project and its sources, before any test is run.
//!
//! `read_campaign` reads the project file and all files that the project names, and `prepare` makes the campaign of them, or
//! tells why there is none.
#![tactic(auto)]

pub mod laws;
mod making;
mod preparing;
mod reading;
mod refusal;
mod trials;

pub use campaign_plan::Prepared;
pub use preparing::{PrepareError, prepare};
pub use reading::read_campaign;
pub use refusal::Refusal;
