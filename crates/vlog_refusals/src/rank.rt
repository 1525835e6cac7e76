//! The order of causes and of features that are refused at one place: that in which their types list them.
ghost use Rattle.std.specs.Prelude.{◌≡◌};
ghost use Rattle.vlog_meaning.specs.Answers.{rank};
ghost use Rattle.vlog_refusals.specs.Features.{feature_rank};

use vlog_meaning::Cause;
use vlog_syntax::Feature;

/// The place of a cause in their order.
pub fn cause_rank(cause: Cause) -> u32
    ensures { result ≡ rank cause }
{
    match cause {
        Cause::Unknown => 0,
        Cause::NotConstant => 1,
        Cause::DivideByZero => 2,
        Cause::TooWide => 3,
        Cause::RangeForm => 4,
        Cause::SystemFunction => 5,
        Cause::DivideOrPower => 6,
        Cause::IndexedBase => 7,
        Cause::Drawn => 8,
    }
}

/// The place of a feature in their order.
pub fn feature_rank(feature: Feature) -> u32
    ensures { result ≡ feature_rank feature }
{
    match feature {
        Feature::MacroDepth => 0,
        Feature::MacroForm => 1,
        Feature::Include => 2,
        Feature::DirectiveName => 3,
        Feature::NetKind => 4,
        Feature::Inout => 5,
        Feature::Function => 6,
        Feature::Task => 7,
        Feature::Specify => 8,
        Feature::Defparam => 9,
        Feature::Primitive => 10,
        Feature::RealOrTime => 11,
        Feature::GenerateCase => 12,
        Feature::Memory => 13,
        Feature::SystemVerilog => 14,
        Feature::RangeForm => 15,
        Feature::DivideOrPower => 16,
        Feature::ClockList => 17,
        Feature::FallingClock => 18,
        Feature::GatedClock => 19,
        Feature::ClockAsData => 20,
        Feature::MixedAssign => 21,
        Feature::NonblockingInComb => 22,
        Feature::IndexedBase => 23,
        Feature::Delay => 24,
        Feature::SystemTask => 25,
        Feature::SystemFunction => 26,
        Feature::InitialForm => 27,
        Feature::ClockStart => 28,
        Feature::Helper => 29,
        Feature::FormatText => 30,
    }
}
