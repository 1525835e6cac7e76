//! What follows of baselines from their definition, as the contract of a function that does nothing else.
ghost use Rattle.mcy_top.specs.BaselineLaws.{BaselineBadIsExact, BaselineCallsAgree, BaselineRefusalsAreExact, BaselinesComplete};

use campaign_baseline::laws::baselines_are_one;

/// A project and its sources have one text of baselines, and end such a call in one way: with Done just where each bench passes with the
/// design, else with BaselineBad. They are refused just where the files are, and told where these make a campaign, unless reading,
/// the sink or memory failed.
pub fn baselines_are_exact()
    ensures one { BaselineCallsAgree }
    ensures bad { BaselineBadIsExact }
    ensures refusals { BaselineRefusalsAreExact }
    ensures complete { BaselinesComplete }
{
    baselines_are_one();
}
