//! Where a fault of the project file or of its scripts is, and what could stand there.
ghost use Rattle.std.specs.Prelude.{◌≡◌};
ghost use Rattle.outcome_hints.specs.Filled.{IsFilled};
ghost use Rattle.outcome_hints.specs.Spots.{missing_spot, project_spot, script_spot};

use crate::told::{Told, in_line, in_test, nowhere};
use project_file::{ProjectError, What};
use tag_script::ScriptError;

/// For a fault of the project file.
pub(crate) fn project_told(error: ProjectError) -> Told
    ensures spot { result.spot ≡ project_spot error }
    ensures hint { IsFilled result.hint.now }
{
    match error {
        ProjectError::NotUtf8(_) => {
            nowhere("so many bytes are UTF-8, and the next one belongs to no character")
        }
        ProjectError::BadLine(number) => in_line(
            number,
            "this is not the form of the line, names a tag or a file that there is not, or does not go with the kind of its test (docs/FORMATS.md has all forms)",
        ),
        ProjectError::UnknownKey(number) => in_line(
            number,
            "no line of this section begins so (docs/FORMATS.md has the keys of each)",
        ),
        ProjectError::Repeated(number) => {
            in_line(number, "this stands further up already, and may stand once")
        }
        ProjectError::OutOfRange(number) => in_line(
            number,
            "a number is out of its range, or this is one more than there may be (docs/FORMATS.md has the ranges)",
        ),
        ProjectError::UnsupportedCommand(number) => in_line(
            number,
            "[script] has read_verilog FILE .., prep -top NAME and hierarchy -top NAME; a test has sim MODULE FILE .. or eq, and no run",
        ),
        ProjectError::Missing(what) => missing_told(what),
        ProjectError::Memory => nowhere("there was no memory"),
    }
}

/// For what the project file lacks.
fn missing_told(what: What) -> Told
    ensures spot { result.spot ≡ missing_spot what }
    ensures hint { IsFilled result.hint.now }
{
    match what {
        What::Script => nowhere("a section [script] has read_verilog FILE .. and prep -top NAME"),
        What::Read => nowhere("read_verilog FILE .. in [script] names the files of the design"),
        What::Top => nowhere("prep -top NAME in [script] names the top module"),
        What::Logic => nowhere(
            "a section [logic] has the script that gives each mutation its tags",
        ),
        What::Kind(test) => in_test(test, "this test has no line sim MODULE FILE .., and no eq"),
        What::Pass(test) => in_test(
            test,
            "this test has no line pass TEXT, with the text that its bench prints where all is well",
        ),
    }
}

/// For a fault of the logic or the report.
pub(crate) fn script_told(error: ScriptError) -> Told
    ensures spot { result.spot ≡ script_spot error }
    ensures hint { IsFilled result.hint.now }
{
    match error {
        ScriptError::Indent(number) => in_line(
            number,
            "the blanks in front of it fit no line above, or a tab is among them: indent by spaces alone",
        ),
        ScriptError::Bad(number) => in_line(
            number,
            "this is no statement of the scripts of docs/FORMATS.md, which are a part of Python, or it lacks its body",
        ),
        ScriptError::UnknownTest(number) => in_line(number, "no section [test NAME] has this name"),
        ScriptError::UnknownTag(number) => {
            in_line(number, "the line tags in [options] lacks this name")
        }
        ScriptError::Unassigned(number) => in_line(
            number,
            "on some path to this line the name has no value: assign it in front of the if",
        ),
        ScriptError::Memory => nowhere("there was no memory"),
    }
}
