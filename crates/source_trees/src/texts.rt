//! Which files are texts.
ghost use Rattle.std.specs.Prelude.{◌≡◌, ◌<◌, ◌≤◌, ◌^◌, length, All, IfErr, MatchResult, OnOk};
ghost use Rattle.std.specs.Str.{IsUtf8};
ghost use Rattle.source_trees.specs.Faults.{IsNoText, IsTextFault};

use crate::error::ReadError;
use mcy_base::SourceFile;
use std::str::from_utf8;

/// Looks whether each file is a text, up to the first that is none.
pub(crate) fn check_texts(files: &[SourceFile]) -> Result<(), ReadError>
    requires few { length files.now ≤ 65536 }
    requires short { All (λ f. length f.bytes < 2 ^ 31) files.now }
    ensures texts { OnOk result (All (λ f. IsUtf8 f.bytes) files.now) }
    ensures refused { IfErr result (IsNoText 0 files.now) }
{
    for (number, file) in files.iter().enumerate() {
        check_text(number as u16, file.bytes.as_slice())?;
    }
    Ok(())
}

/// Looks whether the bytes of the file with this number are a text.
fn check_text(number: u16, bytes: &[u8]) -> Result<(), ReadError>
    requires { length bytes.now < 2 ^ 31 }
    ensures { MatchResult result (λ _. IsUtf8 bytes.now) (IsTextFault number bytes.now) }
{
    match from_utf8(bytes) {
        Ok(_) => Ok(()),
        Err(error) => Err(ReadError::NotUtf8 {
            file: number,
            len: error.valid_up_to() as u32,
        }),
    }
}
