//! What has changed where the database holds another campaign.
ghost use Rattle.std.specs.Prelude.{◌≡◌, option_map};
ghost use Rattle.outcome_hints.specs.Changes.{changed, is_of_name, name_front, name_len, subject};
ghost use Rattle.outcome_hints.specs.Filled.{IsFilled};

use crate::excerpt::front;
use mcy_base::Bytes;
use result_book::BookError;

/// Whether a byte is one of a name, behind which stands a newline.
fn is_of_name(byte: u8) -> bool
    ensures { result ≡ is_of_name byte }
{
    byte != b'\n'
}

/// How many bytes the name has in front of the bytes of a file, as an item of a book has both.
fn name_len(item: &[u8]) -> usize
    ensures { result ≡ name_len item.now }
{
    let len = item.iter().take_while(|byte| is_of_name(**byte)).count();
    len
}

/// The name.
fn name_front(item: &[u8]) -> &[u8]
    ensures { result.now ≡ name_front item.now }
{
    front(item, name_len(item))
}

/// The name of the file that an item of a book is, from its place, what is kept and what the campaign has.
fn changed<'a>(place: u32, old: &'a Option<Bytes>, new: &'a Option<Bytes>) -> Option<&'a [u8]>
    ensures { option_map (λ name. name.now) result ≡ changed place old.now new.now }
{
    match (place, old, new) {
        (0, _, _) => None,
        (1, _, _) => Some(b"config.mcy"),
        (_, _, Some(item)) => Some(name_front(item.as_slice())),
        (_, Some(item), None) => Some(name_front(item.as_slice())),
        (_, None, None) => None,
    }
}

/// The name of the file that has changed, if it is one.
pub(crate) fn changed_file(error: &BookError) -> Option<&[u8]>
    ensures { option_map (λ name. name.now) result ≡ subject error.now }
{
    match error {
        BookError::Meta(place, old, new) => changed(*place, old, new),
        _ => None,
    }
}

/// What to do where the database holds another campaign. Where a file has changed its name stands in front.
pub(crate) fn book_hint(error: &BookError) -> &'static str
    ensures { IsFilled result.now }
{
    match error {
        BookError::Meta(0, _, _) => {
            "another version of mcy wrote mcy.db: take that one, or move mcy.db and mcy.db-wal away to begin anew"
        }
        BookError::Meta(_, _, _) => {
            "has changed since the campaign began: undo that, or move mcy.db and mcy.db-wal away to begin anew"
        }
        _ => {
            "mcy.db has changed, or another version of mcy wrote it: undo that, or move mcy.db and mcy.db-wal away to begin anew"
        }
    }
}
