//! The project file, `config.mcy`: from its bytes to a project, or to its first fault (docs/FORMATS.md).
//!
//! A reading goes over the lines twice. First each line is checked behind the lines before it, those of `[options]` by
//! `project_options`, so that the first bad one is told. Then the project is made from lines that are known to be good: each value
//! is looked up on the line with its key.
//!
//! `checks` goes over the lines first, and `read` then. So the definitions speak of lines and the lines before them, and not of a
//! reader's state.
#![tactic(auto)]

mod checks;
mod project;
mod read;
mod test_plan;
mod values;

pub use project::{
    LineRange, LineRangeList, ModeFlags, Project, Requirement, TestKind, TestPlan, TestPlanList,
};
pub use project_lines::{ProjectError, What};
pub use read::read_project;
