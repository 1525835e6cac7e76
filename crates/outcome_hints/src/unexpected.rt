//! The usual things that stand where nothing that is taken goes on so.
ghost use Rattle.std.specs.Prelude.{IfSome};
ghost use Rattle.outcome_hints.specs.Filled.{IsFilled};

use crate::excerpt::behind;
use crate::place::Place;
use campaign_outcomes::Outcome;
use source_faults::SourceFault;
use vlog_parse::ParseError;

/// A hint at what stands here, if it is one of the usual things.
fn usual_hint(rest: &[u8]) -> Option<&'static str>
    ensures { IfSome result (λ hint. IsFilled hint.now) }
{
    match rest {
        [b'#', ..] => Some("no delay stands behind = or <=: leave it out"),
        [b'"', ..] => Some("a string stands among the arguments of $display and $write alone"),
        [b'(', b'*', ..] => {
            Some("attributes stand in front of ports, items and statements alone: leave them out")
        }
        [b'-', b':', ..] => Some("a part is [hi:lo] or [lo +: width]"),
        _ => None,
    }
}

/// Whether a token, or that none is left, is refused.
fn is_unexpected(outcome: &Outcome) -> bool {
    match outcome {
        Outcome::SourceBad(error) => {
            matches!(error.fault, SourceFault::Parse(ParseError::Unexpected(_)))
        }
        _ => false,
    }
}

/// The hint where what is refused stands at this place, and what is told else.
pub(crate) fn hint_at(outcome: &Outcome, place: Place<'_>, hint: &'static str) -> &'static str
    ensures { IsFilled hint.now → IsFilled result.now }
{
    if !is_unexpected(outcome) {
        return hint;
    }
    match usual_hint(behind(place.line, place.at)) {
        Some(usual) => usual,
        None => hint,
    }
}
