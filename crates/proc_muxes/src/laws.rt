//! Laws of what statements build.
ghost use Rattle.proc_muxes.specs.Laws.{BuildingKeeps, BuildsTheEffect, ChangesFit, ChoicesAreBuilt, ChoicesFit, FollowedAreBuilt, LaidByWhatWaits, LeavesTheEffect, StatementsAreLaid};

/// What statements build keeps all but their targets, and has their effect in every run of the builder.
pub fn statements_build_their_effect()
    ensures keeps { BuildingKeeps }
    ensures effect { BuildsTheEffect }
    ensures left { LeavesTheEffect }
{}

/// What is built of statements are the cells that they lay, wired as these are, and the bits that variables have after them.
pub fn statements_are_laid()
    ensures laid { StatementsAreLaid }
    ensures by_what_waits { LaidByWhatWaits }
{}

/// How a choice, and statements that run one after the other, are built from what the calls of their parts have done; and
/// what `set_aside` and `choose` ask of changes and choices holds then.
pub fn parts_are_built()
    ensures choices { ChoicesAreBuilt }
    ensures followed { FollowedAreBuilt }
    ensures changes_fit { ChangesFit }
    ensures choices_fit { ChoicesFit }
{}
