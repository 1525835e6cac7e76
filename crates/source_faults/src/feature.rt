//! The names of features, as lines tell them.
ghost use Rattle.std.specs.Prelude.{◌≡◌};
ghost use Rattle.source_faults.specs.Lines as texts;

use vlog_syntax::Feature;

/// The name of a feature.
pub(crate) fn feature_name(feature: Feature) -> &'static str
    ensures { result.now ≡ texts.feature_name feature }
{
    match feature {
        Feature::MacroDepth => "MacroDepth",
        Feature::MacroForm => "MacroForm",
        Feature::Include => "Include",
        Feature::DirectiveName => "DirectiveName",
        Feature::NetKind => "NetKind",
        Feature::Inout => "Inout",
        Feature::Function => "Function",
        Feature::Task => "Task",
        Feature::Specify => "Specify",
        Feature::Defparam => "Defparam",
        Feature::Primitive => "Primitive",
        Feature::RealOrTime => "RealOrTime",
        Feature::GenerateCase => "GenerateCase",
        Feature::Memory => "Memory",
        Feature::SystemVerilog => "SystemVerilog",
        Feature::RangeForm => "RangeForm",
        Feature::DivideOrPower => "DivideOrPower",
        Feature::ClockList => "ClockList",
        Feature::FallingClock => "FallingClock",
        Feature::GatedClock => "GatedClock",
        Feature::ClockAsData => "ClockAsData",
        Feature::MixedAssign => "MixedAssign",
        Feature::NonblockingInComb => "NonblockingInComb",
        Feature::IndexedBase => "IndexedBase",
        Feature::Delay => "Delay",
        Feature::SystemTask => "SystemTask",
        Feature::SystemFunction => "SystemFunction",
        Feature::InitialForm => "InitialForm",
        Feature::ClockStart => "ClockStart",
        Feature::Helper => "Helper",
        Feature::FormatText => "FormatText",
    }
}
