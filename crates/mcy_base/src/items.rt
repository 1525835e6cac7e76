//! Lists that a contract sees as lists: a vector with no more to it than its items.
ghost use Rattle.std.specs.Prelude.{◌≡◌, ◌++◌, ◌∷◌, [], IfOk, OnErr, OnOk};

use crate::text::Text;
use crate::word::Word;
use std::alloc::{AllocError, Global};
use std::marker::Model;

/// A list of items.
pub struct Items<T> {
    vec: Vec<T>,
}

impl<T: Drop> Drop for Items<T> {
    fn drop(self) {
        let Items { vec: _vec } = self;
    }
}

impl<T> Model for Items<T> {
    ghost use Rattle.std.specs.Prelude.{List};

    ghost Value = { List T };

    ghost view = { λ l. l.vec.items };
}

/// Bytes.
pub type Bytes = Items<u8>;

/// A list of bytes.
pub type BytesList = Items<Bytes>;

/// A list of texts.
pub type TextList = Items<Text>;

/// A list of words.
pub type WordList = Items<Word>;

impl<T> Items<T> {
    /// The list of a vector's items.
    pub fn from_vec(items: Vec<T>) -> Items<T>
        ensures { result ≡ items.items }
    {
        Items { vec: items }
    }

    /// The items.
    pub fn as_slice(&self) -> &[T]
        ensures { result.now ≡ self.now }
    {
        &self.vec
    }
}

impl<T: Drop> Items<T> {
    /// Adds an item at the end. Where there is no memory for it, the list stays as it was.
    pub fn push(&mut self, item: T) -> Result<(), AllocError>
        ensures ok { OnOk result (self.new ≡ self.old ++ item ∷ []) }
        ensures err { OnErr result (self.new ≡ self.old) }
    {
        self.vec.push(item)?;
        Ok(())
    }
}

impl Items<u8> {
    /// The same bytes.
    pub fn copy(alloc: Global, bytes: &[u8]) -> Result<Bytes, AllocError>
        ensures { IfOk result (λ b. b ≡ bytes.now) }
    {
        Ok(Items {
            vec: bytes.to_vec(alloc)?,
        })
    }
}

impl Items<Bytes> {
    /// The same list.
    pub fn copy(&self, alloc: Global) -> Result<BytesList, AllocError>
        ensures { IfOk result (λ b. b ≡ self.now) }
    {
        let mut items = Vec::new(alloc);
        for item in self.as_slice() {
            items.push(Bytes::copy(alloc, item.as_slice())?)?;
        }
        Ok(BytesList::from_vec(items))
    }
}
