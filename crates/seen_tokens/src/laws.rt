//! Laws of tokens, each as the contract of a function that does nothing.
ghost use Rattle.seen_tokens.specs.Laws.{FaultsGoByWhatIsSeen, GivenTokensGoByWhatIsSeen, ModulesGoByWhatIsSeen, RefusalsGoByWhatIsSeen};

/// The directives of a file give tokens that are seen alike, and are refused alike, wherever the texts lie.
pub fn directives_go_by_what_is_seen()
    ensures given { GivenTokensGoByWhatIsSeen }
    ensures refused { RefusalsGoByWhatIsSeen }
{}

/// Tokens are the same modules, and have the same faults, wherever the texts lie.
pub fn grammar_goes_by_what_is_seen()
    ensures modules { ModulesGoByWhatIsSeen }
    ensures faults { FaultsGoByWhatIsSeen }
{}
