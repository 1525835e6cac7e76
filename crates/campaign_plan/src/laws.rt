//! Laws of campaigns, each as the contract of a function that does nothing.
ghost use Rattle.campaign_plan.specs.Laws.{BenchesFit, CampaignsFit, EqualitiesAreFew, MutationsHaveSites, SourcesMakeOneCampaign, TestsHaveKinds};

/// A project and its sources have one campaign, but for how the benches of its simulations are kept.
pub fn sources_make_one_campaign()
    ensures { SourcesMakeOneCampaign }
{}

/// What holds of each campaign: a book can keep it, its mutations have their sites, its tests their kinds, an equality takes its
/// netlist, and a bench fits it.
pub fn campaigns_can_be_run()
    ensures fit { CampaignsFit }
    ensures sites { MutationsHaveSites }
    ensures kinds { TestsHaveKinds }
    ensures equalities { EqualitiesAreFew }
    ensures benches { BenchesFit }
{}
