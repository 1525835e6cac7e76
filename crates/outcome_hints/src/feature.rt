//! What to write in place of a construct that is refused by name.
ghost use Rattle.outcome_hints.specs.Filled.{IsFilled};

use vlog_syntax::Feature;

/// For a construct of a design, and for those of a bench that are as in a design.
pub(crate) fn design_hint(feature: Feature) -> &'static str
    ensures { IsFilled result.now }
{
    match feature {
        Feature::MacroDepth => "macros stand in the texts of macros at most 16 deep",
        Feature::MacroForm =>
            "a macro has no arguments here: write its text out, or read the file by Yosys first",
        Feature::Include => "name the file in read_verilog, or read the sources by Yosys first",
        Feature::DirectiveName =>
            "leave the directive out: define, undef, ifdef, ifndef, else, endif, timescale and default_nettype are taken",
        Feature::NetKind => "wire is the only kind of net here",
        Feature::Inout => "a port is an input or an output: make two of it",
        Feature::Function =>
            "there are no functions here: write its expression out, or read the file by Yosys first",
        Feature::Task =>
            "there are no tasks here: write its statements where it is called, or a loop over its arguments",
        Feature::Specify => "leave the block out: no delay plays a part here",
        Feature::Defparam => "give the parameter at the instance, as in MODULE #(.NAME(8)) u(..)",
        Feature::Primitive => "write the gate as an assign, as in assign y = a & b;",
        Feature::RealOrTime =>
            "values are whole numbers here: an integer, or a reg of at most 128 bits",
        Feature::GenerateCase => "write the generate case as if and else",
        Feature::Memory =>
            "there are no memories here: take registers, or read the file by Yosys first",
        Feature::SystemVerilog =>
            "this is SystemVerilog: write reg and always, or read the file by Yosys first",
        Feature::RangeForm => "a range is [hi:lo] with hi not below lo, and lo is 0 or more",
        Feature::DivideOrPower =>
            "/, % and ** stand between constants alone: take a shift, or a divider of your own",
        Feature::ClockList =>
            "an always has @*, a list of names, or @(posedge CLOCK), with or without a second edge of a reset",
        Feature::FallingClock =>
            "a process runs at a posedge: write posedge, or invert the clock outside of the design",
        Feature::GatedClock =>
            "the clock is one input of the top, of one bit, and the same in all processes: make an enable of the rest",
        Feature::ClockAsData =>
            "the clock stands in lists of events and in ports of instances alone, and no expression reads it",
        Feature::MixedAssign =>
            "the process assigns this variable by = and by <=: take one of them",
        Feature::NonblockingInComb => "a process without a clock assigns by =",
        Feature::IndexedBase => "declare the vector as [hi:0], and let the base of +: be unsigned",
        Feature::Delay =>
            "a design has no delays, no waits, and no while, repeat or forever: leave it out",
        Feature::SystemTask => "a design has no system tasks: put it into the bench",
        Feature::SystemFunction =>
            "$signed, $unsigned and $clog2 are the system functions of a design",
        Feature::InitialForm =>
            "an initial of a design gives whole registers constants, and does nothing else",
        Feature::ClockStart => "the clock begins with 0",
        Feature::Helper => "beside the design there are no instances here",
        Feature::FormatText =>
            "formats are %b, %o, %h, %x, %d, %t, %c, %s and %%, also %0b and so on, with an argument for each",
    }
}

/// For a construct of a bench.
pub(crate) fn bench_hint(feature: Feature) -> &'static str
    ensures { IsFilled result.now }
{
    match feature {
        Feature::ClockList =>
            "a bench waits for one edge of its clock, as in @(posedge clk), and only an initial waits within its body",
        Feature::Delay =>
            "# stands in the clock generator alone: wait for edges, as in @(posedge clk); in place of #10;",
        Feature::SystemTask =>
            "the tasks of a bench are $display, $write and $finish; $dumpfile and $dumpvars do nothing",
        Feature::SystemFunction =>
            "the functions of a bench are $signed, $unsigned, $clog2, $time, and, but in an assign or a connection, $random",
        Feature::Helper =>
            "a bench has one instance of the design, without parameters, no other one and no generate; one process or assign writes a net, one generator the clock; and no assign leads back to itself, the design among them",
        other => design_hint(other),
    }
}
