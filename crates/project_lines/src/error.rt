//! Why bytes are no project file.
ghost use Rattle.std.specs.Prelude.{◌≡◌};

use std::alloc::AllocError;

/// What a project file lacks. Tests are counted from 0.
#[derive(Clone, Copy, Debug, PartialEq, Eq)]
pub enum What {
    /// The section `[script]`.
    Script,
    /// A line `read_verilog`.
    Read,
    /// A `-top`.
    Top,
    /// The section `[logic]`.
    Logic,
    /// The kind of this test, `eq` or `sim`.
    Kind(u32),
    /// The text by which this sim test passes.
    Pass(u32),
}

/// Why bytes are no project file. Lines are counted from 1.
#[derive(Clone, Copy, Debug, PartialEq, Eq)]
pub enum ProjectError {
    /// The bytes are no UTF-8, and so many at their front are the most that are.
    NotUtf8(u32),
    /// The line has the wrong form, is an unknown header, stands in front of the first header, or does not go with the
    /// kind of its test.
    BadLine(u32),
    /// The line's key is not known in its section.
    UnknownKey(u32),
    /// The line says again what may be said once.
    Repeated(u32),
    /// A number on the line, or a count that it makes, is out of range.
    OutOfRange(u32),
    /// The line has a command or an option that is not taken.
    UnsupportedCommand(u32),
    /// No line is bad, but this is missing.
    Missing(What),
    /// There was no memory.
    Memory,
}

impl From<AllocError> for ProjectError {
    ghost use Rattle.project_lines.specs.declared.error.ProjectError.TheVariants.{Memory};

    ghost from_gives = { λ _ e. e ≡ Memory };

    fn from(_: AllocError) -> ProjectError {
        ProjectError::Memory
    }
}
