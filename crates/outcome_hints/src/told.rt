//! What is told of a fault: where it is, and a hint.
ghost use Rattle.std.specs.Prelude.{◌≡◌};

use mcy_base::Span;

/// Where a fault is.
#[derive(Clone, Copy, Debug, PartialEq, Eq)]
pub(crate) enum Spot {
    /// At no place of a file.
    Nowhere,
    /// In a source.
    Source(Span),
    /// In this line of the project file, from 1.
    Line(u32),
    /// In the section of this test there, from 0.
    Test(u32),
}

/// Where a fault is, and what could stand there.
#[derive(Clone, Copy)]
pub(crate) struct Told {
    pub spot: Spot,
    pub hint: &'static str,
}

/// At a place of a source.
pub(crate) fn at(place: Span, hint: &'static str) -> Told
    ensures spot { result.spot ≡ Spot.Source place }
    ensures hint { result.hint.now ≡ hint.now }
{
    Told {
        spot: Spot::Source(place),
        hint,
    }
}

/// In a line of the project file.
pub(crate) fn in_line(number: u32, hint: &'static str) -> Told
    ensures spot { result.spot ≡ Spot.Line number }
    ensures hint { result.hint.now ≡ hint.now }
{
    Told {
        spot: Spot::Line(number),
        hint,
    }
}

/// In the section of a test there.
pub(crate) fn in_test(test: u32, hint: &'static str) -> Told
    ensures spot { result.spot ≡ Spot.Test test }
    ensures hint { result.hint.now ≡ hint.now }
{
    Told {
        spot: Spot::Test(test),
        hint,
    }
}

/// At no place.
pub(crate) fn nowhere(hint: &'static str) -> Told
    ensures spot { result.spot ≡ Spot.Nowhere }
    ensures hint { result.hint.now ≡ hint.now }
{
    Told {
        spot: Spot::Nowhere,
        hint,
    }
}
