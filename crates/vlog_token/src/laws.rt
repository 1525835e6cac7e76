//! Laws of the definitions: a source has one answer.
ghost use Rattle.std.specs.Prelude.{◌≡◌, ℕ, List, Result, Ok, Err};
ghost use Rattle.vlog_token.specs.declared.token.TokenError.{TokenError};
ghost use Rattle.vlog_token.specs.declared.token.TokenError.TheVariants as errors;
ghost use Rattle.vlog_token.specs.Sources.{IsAnswer, SeenToken};

/// A source has one answer: its tokens, or one error at one place. So each answer of `tokens` other than want of
/// memory comes exactly where its definition holds.
pub fn one_answer()
    ensures { (file : ℕ) (source : List ℕ) (a b : Result (List SeenToken) TokenError) → IsAnswer file source a → IsAnswer file source b → (a ≡ Err errors.Memory → ⊥) → (b ≡ Err errors.Memory → ⊥) → a ≡ b }
{}
