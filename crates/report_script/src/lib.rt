//! The report of a project, its `[report]`: its statements, and the text that it prints for counts of tags.
//!
//! A report is read by the blocks of `tag_script`, and then evaluated and printed: `Values` says what an expression comes to, or
//! that it has no value, and `Texts` what statements print, up to the line where a value is missing.
#![tactic(auto)]

mod block;
mod checks;
mod draft;
mod evaluation;
mod line_text;
mod read;
mod report;
mod running;

pub use read::read_report;
pub use report::{Arm, Report, Statement};
pub use running::report_text;
