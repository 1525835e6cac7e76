//! Generate blocks (IEEE 1364-2005, 12.4.3): each is a scope of its own over the one around.
ghost use Rattle.std.specs.Prelude.{◌≡◌, [], List, Some, slice_get, true, false, IfOk};
ghost use Rattle.vlog_syntax.specs.declared.item.Item.{out-Item};
ghost use Rattle.vlog_syntax.specs.declared.module.Module.{Module as Tree};
ghost use Rattle.flat_scopes.specs.Views.{opened_of};
ghost use Rattle.flat_items.specs.Flattened.{block_head, block_items, is_full, OpensBlock};
ghost use Rattle.flat_instances.specs.Places.{Place as Spot};
ghost use Rattle.flat_items.specs.Replacing.{Replaces, is_block_form};
ghost use Rattle.flat_items.specs.Views.{flat_of};
ghost use Rattle.flat_items.specs.declared.task.Task.TheVariants.{Arm as Chosen};

use crate::flat::Flat;
use crate::generate::{one, told};
use crate::names::block_name;
use crate::task::Task;
use flat_instances::{ItemError, inner_prefix};
use flat_scopes::{Head, Lent, NameList, Opening, Signal};
use mcy_base::Text;
use std::alloc::{AllocError, Global};
use std::{mem, slice};
use vlog_meaning::Scope;
use vlog_syntax::{Boxed, Identifier, Item, Listed};

/// The items of a block, which may be one item without `begin`.
fn block_items(item: &Item) -> &[Item]
    ensures { result.now ≡ block_items item.now }
{
    match item {
        Item::GenerateBlock(_, _, items) => items.as_slice(),
        Item::NullGenerate(_) => &[],
        _ => slice::from_ref(item),
    }
}

/// What a block is opened with.
fn block_head<'a>(alloc: Global, prefix: Text) -> Head<'a>
    ensures { result ≡ block_head prefix }
{
    Head {
        prefix,
        ports: NameList::new(alloc),
        given: Listed::from_vec(Vec::new(alloc)),
    }
}

impl<'a> Flat<'a> {
    /// The signals so far, which are taken.
    pub(crate) fn take_signals(&mut self) -> Vec<Signal>
        ensures signals { result.items ≡ (flat_of self.old).signals }
        ensures taken { flat_of self.new ≡ record (flat_of self.old) { signals = [] } }
    {
        mem::replace(&mut self.signals, Vec::new(self.alloc))
    }

    /// Takes the signals back from a scope that is not kept.
    pub(crate) fn give_back(&mut self, child: Opening<'a>)
        ensures { flat_of self.new ≡ record (flat_of self.old) { signals = (opened_of child.entry).signals } }
    {
        self.signals = child.into_parts().signals;
    }

    /// Opens a block of this name in a scope that was made for it, which has the signals so far.
    pub(crate) fn open_block(
        &mut self,
        place: u32,
        name: &str,
        child: Opening<'a>,
        block: &'a Item,
    ) -> Result<Vec<Task<'a>>, AllocError>
        ensures { IfOk result (λ tasks. (p : Spot) → slice_get (flat_of self.old).places place ≡ Some p → OpensBlock place p name.now (opened_of child.entry) block.now (flat_of self.old) tasks.items (flat_of self.new)) }
    {
        let Some(around) = self.place(place) else {
            return Err(AllocError);
        };
        let prefix = inner_prefix(self.alloc, around.prefix.as_str(), name)?;
        let within = Vec::from_slice(self.alloc, around.within.as_slice())?;
        let head = block_head(self.alloc, prefix);
        let mut child = child;
        child.open_items(&head, &Scope::new(self.alloc), block_items(block))?;
        let tasks = self.enter(head.prefix, Some(place), within, child)?;
        Ok(tasks)
    }

    /// Opens the block that a condition chose.
    fn chosen_block(
        &mut self,
        place: u32,
        number: u32,
        item: &'a Item,
        taken: Option<Lent<'a, Identifier>>,
    ) -> Result<Vec<Task<'a>>, AllocError>
        requires form { is_block_form (out-Item item.now) ≡ true }
        requires room { is_full (flat_of self.old) ≡ false }
        ensures { IfOk result (λ tasks. (ms : List Tree) → Replaces ms (Chosen place number item.now taken.entry) (flat_of self.old) tasks.items (flat_of self.new)) }
    {
        let signals = self.take_signals();
        let Some(around) = self.place(place) else {
            return Err(AllocError);
        };
        let name = block_name(self.alloc, &around.own, number, item)?;
        let child = Opening::new(self.alloc, around.scope.copy()?, signals);
        let mut tasks = told(self.alloc, &taken)?;
        let mut inner = self.open_block(place, name.as_str(), child, item)?;
        tasks.append(&mut inner)?;
        Ok(tasks)
    }

    /// Opens the block that a condition chose, where there is room for its scope.
    #[tactic(auto, using(crate::proofs::Rules::block_refused))]
    fn arm_block(
        &mut self,
        place: u32,
        number: u32,
        item: &'a Item,
        taken: Option<Lent<'a, Identifier>>,
    ) -> Result<Vec<Task<'a>>, AllocError>
        requires { is_block_form (out-Item item.now) ≡ true }
        ensures { IfOk result (λ tasks. (ms : List Tree) → Replaces ms (Chosen place number item.now taken.entry) (flat_of self.old) tasks.items (flat_of self.new)) }
    {
        if self.is_full() {
            return one(self.alloc, Task::Refuses(ItemError::Scopes));
        }
        self.chosen_block(place, number, item, taken)
    }

    /// What is left of what a condition chose.
    #[tactic(auto, using(crate::proofs::Rules::null_left, crate::proofs::Rules::condition_left))]
    pub(crate) fn arm(
        &mut self,
        place: u32,
        number: u32,
        item: &'a Item,
        taken: Option<Lent<'a, Identifier>>,
    ) -> Result<Vec<Task<'a>>, AllocError>
        ensures { IfOk result (λ tasks. (ms : List Tree) → Replaces ms (Chosen place number item.now taken.entry) (flat_of self.old) tasks.items (flat_of self.new)) }
    {
        match item {
            Item::NullGenerate(_) => told(self.alloc, &taken),
            Item::IfGenerate(..) => {
                let item = Boxed::new(self.alloc, Lent::of(item))?;
                one(self.alloc, Task::Generates(place, number, item, taken))
            }
            Item::Plain(_) => self.arm_block(place, number, item, taken),
            Item::GenerateRegion(..) => self.arm_block(place, number, item, taken),
            Item::LoopGenerate(..) => self.arm_block(place, number, item, taken),
            Item::GenerateBlock(..) => self.arm_block(place, number, item, taken),
        }
    }
}
