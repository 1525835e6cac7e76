//! What hears the text that a simulation prints.
ghost use Rattle.std.specs.Prelude.{◌≡◌, ◌++◌, ◌∷◌, [], ℕ, IfOk, List};
ghost use Rattle.tb_watch.specs.Searches.{HasWatched};

use std::alloc::AllocError;
use tb_watch::Watch;

/// A listener to a text that comes in pieces.
pub trait Listener {
    // it has heard this text
    ghost heard: { Self → List ℕ → Type 0 };

    // the texts that it listens for
    ghost listens_for: { Self → List (List ℕ) };

    /// Hears the next piece. After an error, want of memory, it is only to be dropped.
    fn hear(&mut self, piece: &[u8]) -> Result<(), AllocError>
        ensures heard { (text : List ℕ) → heard self.old text → IfOk result (λ _. heard self.new (text ++ piece.now)) }
        ensures same { listens_for self.new ≡ listens_for self.old };
}

/// A watch listens for its two texts.
impl Listener for Watch {
    ghost heard = { λ w text. HasWatched w text };

    ghost listens_for = { λ w. w.pass.word ∷ w.fail.word ∷ [] };

    fn hear(&mut self, piece: &[u8]) -> Result<(), AllocError> {
        self.see(piece)
    }
}

/// A vector takes the text down.
impl Listener for Vec<u8> {
    ghost heard = { λ v text. v.items ≡ text };

    ghost listens_for = { λ v. [] };

    fn hear(&mut self, piece: &[u8]) -> Result<(), AllocError> {
        self.extend_from_slice(piece)
    }
}
