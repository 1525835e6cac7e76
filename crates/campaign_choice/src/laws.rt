//! The law of what a book keeps of a project and its sources.
ghost use Rattle.campaign_choice.specs.Laws.{CampaignsFit, PicksAreFew};

/// No more sites are picked than the project asks for, and the campaign of a project and its scripts is one that a book can keep.
pub fn campaigns_can_be_kept()
    ensures few { PicksAreFew }
    ensures fit { CampaignsFit }
{}
