//! The texts that tell how a campaign stands: from the read tests of each mutation, with their last words.
#![tactic(auto)]

mod counts;
mod file_lines;
mod line_counts;
mod list;
mod requirement;
mod source;
mod status;

pub use counts::{are_finished, has_faults};
pub use list::list_text;
pub use requirement::is_met;
pub use source::source_text;
pub use status::{add_number, status_text};
