//! What the limits of designs are.
ghost use Rattle.outcome_hints.specs.Filled.{IsFilled};

use mcy_base::Kind;

/// For what there is too much of.
pub(crate) fn limit_hint(kind: Kind) -> &'static str
    ensures { IsFilled result.now }
{
    match kind {
        Kind::Tokens => "all files together have at most 2,000,000 tokens and uses of macros",
        Kind::LoopTurns =>
            "a loop has at most 4,096 turns, those of all processes 1,000,000 together",
        Kind::Cells => "a design has at most 65,535 cells",
        Kind::NetBits =>
            "inputs, outputs, registers and cells have at most 1,048,576 bits together, all signals 4,194,304",
        Kind::RegisterBits => "the registers of a design have at most 4,096 bits together",
        Kind::Sites =>
            "a design has at most 2,000,000 sites in the modes of the project: name fewer modes",
        Kind::Gates =>
            "with a test `eq` a design has at most 100,000 gates (docs/PROFILE.md counts them): leave `eq` out, or take a part of the design",
        Kind::FreeBits =>
            "with a test `eq` inputs and registers have at most 2,048 bits together: leave `eq` out, or take a part of the design",
        Kind::Scopes => "a design has at most 65,536 instances and turns of generate together",
    }
}
