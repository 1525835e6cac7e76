//! Files and lines by name and number.
use crate::items::{Bytes, Items};
use crate::text::Text;

/// A file: its name as it was asked for, and its bytes.
#[derive(Drop)]
pub struct SourceFile {
    pub name: Text,
    pub bytes: Bytes,
}

/// Files. Where a name stands twice, the first counts.
pub type FileList = Items<SourceFile>;

/// A line of a text, without its end, and its number in the file, counted from 1.
#[derive(Drop)]
pub struct Line {
    pub number: u32,
    pub text: Text,
}

/// Lines.
pub type LineList = Items<Line>;
