//! Laws of campaigns under way, each as the contract of a function that does nothing.
ghost use Rattle.std.specs.Prelude.{◌≢◌, ◌<◌, ℕ, List};
ghost use Rattle.std.specs.List.{Any};
ghost use Rattle.result_book.specs.Rows.{IsGivenUp, IsPair};
ghost use Rattle.campaign_core.specs.declared.event.Event.{Event as Happening};
ghost use Rattle.campaign_core.specs.declared.event.Event.TheVariants.{Start, Stop};
ghost use Rattle.campaign_core.specs.Ahead.{events_left};
ghost use Rattle.campaign_core.specs.Events.{IsAllowed, Takes};
ghost use Rattle.campaign_core.specs.Testers.{Asked};
ghost use Rattle.campaign_core.specs.Laws.{Course, Kept};
ghost use Rattle.campaign_core.specs.Turns.{Turns};
ghost use Rattle.campaign_core.specs.UnderWay.{IsUnderWay};

use crate::tester::Tester;

/// Over every list of allowed events a campaign stays in order: its rows are in form, those that it gained are the ones that were
/// acknowledged, with words that their tests may give, and what was started is what was acknowledged and what is in slots.
pub fn turns_keep_order<T: Tester>()
    ensures { (start end : Turns T) (events : List Happening) → IsUnderWay (T.gives start.tester) start → Course T.gives T.most start events end → Kept T.gives start end }
{}

/// A pair that has a row is started only where its last word is UNKNOWN, found under a bound below the goal's.
pub fn given_up_pairs_start_again<T: Tester>()
    ensures { (s : Turns T) (slot m t bound : ℕ) → IsUnderWay (T.gives s.tester) s → IsAllowed s (Start slot m t bound) → Any (IsPair m t) s.state.rows → IsGivenUp s.state.rows m t s.goal.retry }
{}

/// Every campaign comes to its end: with each event but Stop that takes place, fewer are left.
pub fn events_come_to_an_end<T: Tester>()
    ensures { (most : Asked → ℕ) (old new : Turns T) (e : Happening) → IsUnderWay (T.gives old.tester) old → IsAllowed old e → Takes (T.gives old.tester) most old e new → e ≢ Stop → events_left most new < events_left most old }
{}
