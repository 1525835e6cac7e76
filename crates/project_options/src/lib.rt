//! The section `[options]` of a project file: its keys, the forms and ranges of their words, and the first bad line.
//!
//! A line may speak of what the rest of the file says: of the tags, wherever their line stands, and of the files of the design
//! (`Around`). What the lines say is read by `project_file`.
#![tactic(auto)]

mod forms;
mod instances;
mod options;
mod ranges;

pub use instances::is_within_some;
pub use options::{Around, check_options};
pub use ranges::{MAX_LINE, file_part, from_part, to_part};
