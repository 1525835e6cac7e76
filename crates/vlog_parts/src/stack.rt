//! A stack, which contracts see as the list of its items from the top down.
//!
//! A list that is read from its end is made on a stack: the last item pushed is the first of the list.
ghost use Rattle.std.specs.Prelude.{◌≡◌, ◌∷◌, [], IfOk, OnOk, MatchOption, length, take, drop};

use std::alloc::{AllocError, Global};
use std::marker::Model;
use vlog_syntax::Listed;

/// A stack of items.
#[derive(Drop)]
pub struct Stack<T> {
    items: Vec<T>,
}

impl<T> Model for Stack<T> {
    ghost use Rattle.std.specs.Prelude.{List, reverse};
    ghost use Rattle.std.specs.Coded.{coded_list};

    ghost Value = { List T };

    ghost coded = { coded_list T.code };

    ghost view = { λ s. reverse s.items.items };
}

impl<T> Stack<T> {
    /// The stack without items.
    pub fn new(alloc: Global) -> Stack<T>
        ensures { result ≡ [] }
    {
        Stack {
            items: Vec::new(alloc),
        }
    }

    /// The number of items.
    pub fn len(&self) -> usize
        ensures { result ≡ length self.now }
    {
        self.items.len()
    }

    /// Takes the top item.
    pub fn pop(&mut self) -> Option<T>
        ensures { MatchOption result ((self.old ≡ []) × (self.new ≡ [])) (λ top. self.old ≡ top ∷ self.new) }
    {
        self.items.pop()
    }

    /// The items as a list, the top one first.
    pub fn into_listed(self) -> Listed<T>
        ensures { result ≡ self }
    {
        let Stack { mut items } = self;
        items.reverse();
        Listed::from_vec(items)
    }
}

impl<T: Drop> Stack<T> {
    /// Puts an item on top.
    pub fn push(&mut self, item: T) -> Result<(), AllocError>
        ensures { OnOk result (self.new ≡ item ∷ self.old) }
    {
        self.items.push(item)?;
        Ok(())
    }

    /// The stack with an item more on top.
    pub fn with(self, item: T) -> Result<Stack<T>, AllocError>
        ensures { IfOk result (λ s. s ≡ item ∷ self) }
    {
        let mut stack = self;
        stack.push(item)?;
        Ok(stack)
    }

    /// The stack with an item more on top, and what stands beside it. A value that is held beside a call that can fail is
    /// dear to prove, so it goes through here.
    pub fn with_beside<U: Drop>(self, item: T, beside: U) -> Result<(Stack<T>, U), AllocError>
        ensures { IfOk result (λ s. (s.0 ≡ item ∷ self) × (s.1 ≡ beside)) }
    {
        match self.with(item) {
            Ok(stack) => Ok((stack, beside)),
            Err(error) => Err(error),
        }
    }

    #[tactic(auto, using(crate::proofs::Splits::top_is, crate::proofs::Splits::below_is))]
    /// Takes the top items, as many as are asked for, or all where there are fewer.
    pub fn pop_many(&mut self, count: usize) -> Result<Stack<T>, AllocError>
        ensures taken { IfOk result (λ top. top ≡ take count self.old) }
        ensures left { OnOk result (self.new ≡ drop count self.old) }
    {
        let at = self.items.len().saturating_sub(count);
        Ok(Stack {
            items: self.items.split_off(at)?,
        })
    }
}
