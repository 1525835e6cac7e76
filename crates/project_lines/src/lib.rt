//! The lines of the project file, `config.mcy`, and what its sections are made of (docs/FORMATS.md).
//!
//! A section is a header and the lines behind it. A line's key is its first word. `paths` has the names of files, those of `[files]` and
//! those that are read, and `script` the commands of Yosys. All texts are parts of the file and are not copied.
#![tactic(auto)]

mod error;
mod lines;
mod numbers;
mod paths;
mod script;
mod section;
mod sections;
mod words;

pub use error::{ProjectError, What};
pub use lines::{args_of, find_line, has_line, is_blank, is_said, key_of, text_lines, text_of};
pub use numbers::{is_digit, is_one_number, number_or, number_within};
pub use paths::{Paths, ReadFiles, check_files, names_once};
pub use script::{all_reads, check_script, first_top};
pub use section::{Section, Title};
pub use sections::{
    all_sections, find_section, has_header, lead, lines_in, name_in, tests_in, title_of,
};
pub use words::{are_names, is_among, is_name, is_name_byte, is_name_start, texts_of};
