//! The words of tests, and what a row tells of how the tag script stands after it.
ghost use Rattle.std.specs.Prelude.{◌≡◌, ◌↔◌, IsTrue};
ghost use Rattle.tag_script.specs.declared.answer.Ask.TheVariants.{Need};
ghost use Rattle.result_book.specs.Scripts.{has_tag, is_ended, mark_of, tags_of, word_code};

use tag_script::Ask;

/// The word of a test.
#[derive(Clone, Copy, Debug, PartialEq, Eq)]
pub enum TestWord {
    Pass,
    Fail,
    Hang,
    Unknown,
}

impl TestWord {
    /// The word's code in a row.
    pub fn code(self) -> u32
        ensures { result ≡ word_code self }
    {
        match self {
            TestWord::Pass => 0,
            TestWord::Fail => 1,
            TestWord::Hang => 2,
            TestWord::Unknown => 3,
        }
    }
}

/// Whether the script needs the word of this test.
pub(crate) fn needs(ask: Ask, test: u32) -> bool
    ensures { IsTrue result ↔ (ask ≡ Need test) }
{
    matches!(ask, Ask::Need(needed) if needed == test)
}

/// Whether the script ended.
pub(crate) fn is_ended(ask: Ask) -> bool
    ensures { result ≡ is_ended ask }
{
    !matches!(ask, Ask::Need(_))
}

/// The mark of a row after which the script stands so: 0 needs more, 1 done, 2 ended by an unexpected word, 16 + n ended
/// by the assertion at its line n.
pub(crate) fn mark(ask: Ask) -> u32
    ensures { result ≡ mark_of ask }
{
    match ask {
        Ask::Need(_) => 0,
        Ask::Done(_) => 1,
        Ask::Unexpected(_) => 2,
        Ask::AssertFailed(line) => line.saturating_add(16),
    }
}

/// The tags of a row after which the script stands so, tag i in bit i.
pub(crate) fn tags(ask: Ask) -> u32
    ensures { result ≡ tags_of ask }
{
    match ask {
        Ask::Done(tags) => tags,
        Ask::Need(_) | Ask::AssertFailed(_) | Ask::Unexpected(_) => 0,
    }
}

/// Whether the script ended with a tag, which is given by its bit.
pub fn has_tag(ask: Ask, bit: u32) -> bool
    ensures { result ≡ has_tag bit ask }
{
    match ask {
        Ask::Done(tags) => tags & bit == bit,
        Ask::Need(_) | Ask::AssertFailed(_) | Ask::Unexpected(_) => false,
    }
}
