//! One campaign from words to a text, over files, a keeper, a sink and a counter of steps.
#![tactic(auto)]

mod baseline;
pub mod baseline_laws;
mod demo;
pub mod demo_laws;
mod ending;
mod kept_text;
pub mod laws;
mod limited;
mod main_call;
pub mod netlist_laws;
mod refusal;
mod required;
mod running;
mod work;

pub use baseline::failing_baselines;
pub use campaign_outcomes::{Outcome, exit_status, fault_line};
pub use campaign_plan::{Prepared, Trial, TrialList};
pub use campaign_reading::{PrepareError, prepare};
pub use command_words::{Command, read_words};
pub use main_call::{mcy_call, mcy_main};
pub use source_faults::{SourceError, SourceFault};
