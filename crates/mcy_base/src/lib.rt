//! What all crates speak of: places, words, texts, lists, the causes of faults, the numbers of calls and
//! the counter of steps.
#![tactic(auto)]

mod calls;
mod file;
mod items;
mod kind;
mod span;
mod steps;
mod text;
mod word;

pub use calls::{at_call, call_after};
pub use file::{FileList, Line, LineList, SourceFile};
pub use items::{Bytes, BytesList, Items, TextList, WordList};
pub use kind::Kind;
pub use span::Span;
pub use steps::Steps;
pub use text::Text;
pub use word::Word;
