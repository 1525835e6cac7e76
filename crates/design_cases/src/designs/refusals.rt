//! What is printed of refusals: the kind, the place, and the name of the signal.
use case_lines::Page;
use elab_hier::ElabError;
use mcy_base::{Kind, Span};
use vlog_syntax::Feature;

fn put_named(page: &mut Page, word: &str, place: Span, name: &str) {
    page.put_at(word, place);
    page.put(" ");
    page.put(name);
}

/// The name of what is not supported in a design.
fn feature_name(feature: Feature) -> &'static str {
    match feature {
        Feature::RangeForm => "RangeForm",
        Feature::DivideOrPower => "DivideOrPower",
        Feature::ClockList => "ClockList",
        Feature::FallingClock => "FallingClock",
        Feature::GatedClock => "GatedClock",
        Feature::ClockAsData => "ClockAsData",
        Feature::MixedAssign => "MixedAssign",
        Feature::NonblockingInComb => "NonblockingInComb",
        Feature::IndexedBase => "IndexedBase",
        Feature::Delay => "Delay",
        Feature::SystemTask => "SystemTask",
        Feature::SystemFunction => "SystemFunction",
        Feature::InitialForm => "InitialForm",
        _ => "another feature",
    }
}

/// The name of what there is too much of.
fn kind_of(kind: Kind) -> &'static str {
    match kind {
        Kind::LoopTurns => "LoopTurns",
        Kind::Cells => "Cells",
        Kind::NetBits => "NetBits",
        Kind::RegisterBits => "RegisterBits",
        Kind::Scopes => "Scopes",
        _ => "another kind",
    }
}

pub(crate) fn put_error(page: &mut Page, error: &ElabError) {
    match error {
        ElabError::NoTop => page.put("NoTop"),
        ElabError::Twice(place) => page.put_at("Twice", *place),
        ElabError::Unknown(place) => page.put_at("Unknown", *place),
        ElabError::Recursive(place) => page.put_at("Recursive", *place),
        ElabError::PortMismatch(place) => page.put_at("PortMismatch", *place),
        ElabError::NotConstant(place) => page.put_at("NotConstant", *place),
        ElabError::DivideByZero(place) => page.put_at("DivideByZero", *place),
        ElabError::TooWide(place) => page.put_at("TooWide", *place),
        ElabError::Unsupported(place, feature) => {
            page.put("Unsupported ");
            page.put_at(feature_name(*feature), *place);
        }
        ElabError::TwoWriters(place, name) => put_named(page, "TwoWriters", *place, name.as_str()),
        ElabError::Latch(place, name) => put_named(page, "Latch", *place, name.as_str()),
        ElabError::TooMany(kind) => {
            page.put("TooMany ");
            page.put(kind_of(*kind));
        }
        ElabError::Loop(place) => page.put_at("Loop", *place),
        ElabError::Memory => page.put("no memory"),
    }
    page.put("\n");
}
