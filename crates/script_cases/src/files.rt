//! What a project file says, or why it is refused.
//!
//! On a line `\` stands before two hexadecimal digits, and with them for the byte of this number; every other byte stands for
//! itself. The answer has the same form. A line that begins with `#` is printed as it is.
use crate::bytes::unescaped;
use crate::projects::told;
use anyhow::Result;
use project_file::{Project, ProjectError, read_project};

/// The least length of a file that is not read.
const MAX_LEN: usize = 1 << 31;

/// Prints what a project says.
fn tell_told<R: Print + AllocGlobal>(rt: &R, project: &Project) -> Result<()> {
    let text = told(rt.alloc(), project)?;
    Ok(println!(rt; "{}", text.as_str())?)
}

/// Prints what a project file says, or why it is refused.
fn tell_read<R: Print + AllocGlobal>(rt: &R, read: &Result<Project, ProjectError>) -> Result<()> {
    match read {
        Ok(project) => tell_told(rt, project),
        Err(error) => Ok(println!(rt; "{error:?}")?),
    }
}

/// Prints what the bytes of a project file say.
fn tell_bytes<R: Print + AllocGlobal>(rt: &R, config: &[u8]) -> Result<()> {
    if config.len() >= MAX_LEN {
        return Ok(println!(rt; "too long")?);
    }
    let read = read_project(rt.alloc(), config);
    tell_read(rt, &read)
}

/// Prints a remark, or what a project file says.
pub(crate) fn tell_project<R: Print + AllocGlobal>(rt: &R, line: &str) -> Result<()> {
    if line.starts_with('#') {
        return Ok(println!(rt; "{line}")?);
    }
    let config = unescaped(rt.alloc(), line)?;
    tell_bytes(rt, config.as_slice())
}
