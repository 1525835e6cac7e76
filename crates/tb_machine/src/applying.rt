//! Words that get new values, as a whole or by updates.
ghost use Rattle.std.specs.Prelude.{◌≡◌, ◌<◌, length, map, slice_index, slice_set};
ghost use Rattle.std.specs.List.{All};
ghost use Rattle.tb_machine.specs.Worlds.{applied, all_applied, Fits};

use crate::replacing::replaced;
use crate::update::Update;
use mcy_base::Word;

/// The word with a number becomes another one of its width.
pub(crate) fn set(words: &mut Vec<Word>, number: u32, word: Word)
    requires known { number < length (map (λ w. w.width) words.old.items) }
    requires width { word.width ≡ slice_index (map (λ w. w.width) words.old.items) number }
    ensures widths { map (λ w. w.width) words.new.items ≡ map (λ w. w.width) words.old.items }
    ensures bits { map (λ w. w.bits) words.new.items ≡ slice_set (map (λ w. w.bits) words.old.items) number word.bits }
{
    words[number as usize] = word;
}

/// An update applies.
pub(crate) fn apply(words: &mut Vec<Word>, update: Update)
    requires { Fits (map (λ w. w.width) words.old.items) update }
    ensures widths { map (λ w. w.width) words.new.items ≡ map (λ w. w.width) words.old.items }
    ensures bits { map (λ w. w.bits) words.new.items ≡ applied (map (λ w. w.bits) words.old.items) update }
{
    let word = words[update.signal as usize];
    set(words, update.signal, replaced(word, update));
}

/// Updates apply, one after the other.
pub(crate) fn apply_all(words: &mut Vec<Word>, updates: &[Update])
    requires { All (Fits (map (λ w. w.width) words.old.items)) updates.now }
    ensures widths { map (λ w. w.width) words.new.items ≡ map (λ w. w.width) words.old.items }
    ensures bits { map (λ w. w.bits) words.new.items ≡ all_applied (map (λ w. w.bits) words.old.items) updates.now }
{
    for update in updates {
        apply(words, *update);
    }
}
