//! Instances of modules (IEEE 1364-2005, 12.1.2): which module an instance has, and what it is replaced by.
ghost use Rattle.std.specs.Prelude.{◌≡◌, ◌∷◌, Some, slice_get, IfOk, IfSome};
ghost use Rattle.flat_items.specs.Flattened.{add_all, module_at, is_within, placed_in};
ghost use Rattle.flat_instances.specs.Places.{Place as Spot};
ghost use Rattle.flat_items.specs.Numbers.{number_of, AreNumbered};
ghost use Rattle.flat_items.specs.Replacing.{PlacesInstance, Replaces};
ghost use Rattle.flat_items.specs.Views.{flat_of};
ghost use Rattle.flat_items.specs.declared.task.Task.TheVariants.{Instance as Placed};

use crate::flat::Flat;
use crate::generate::one;
use crate::numbers::ModuleNumbers;
use crate::task::Task;
use flat_instances::{Entered, FlatItem, ItemError, Joint, open_instance};
use flat_scopes::Placing;
use std::alloc::{AllocError, Global};
use vlog_syntax::{Identifier, Module};

/// The number of the first module of this name.
pub(crate) fn module_at(modules: &[Module], name: &str) -> Option<usize>
    ensures { result ≡ module_at modules.now name.now }
{
    for (number, one) in modules.iter().enumerate() {
        if one.name.as_str() == name {
            return Some(number);
        }
    }
    None
}

/// The module of this number.
fn numbered(modules: &[Module], number: usize) -> Option<&Module>
    ensures { IfSome result (λ m. slice_get modules.now number ≡ Some m.now) }
{
    modules.get(number)
}

/// Whether the module of this number is one of these.
fn is_within(number: usize, within: &[usize]) -> bool
    ensures { result ≡ is_within number within.now }
{
    for one in within {
        if *one == number {
            return true;
        }
    }
    false
}

/// The number of the module of this name, for an instance in these modules of a design that is full or not, or why it is not placed.
fn placed_in(
    full: bool,
    numbers: &ModuleNumbers,
    name: &Identifier,
    within: &[usize],
) -> Result<usize, ItemError>
    ensures { result ≡ placed_in full name.now (number_of numbers.now name.now.name) within.now }
{
    match numbers.get(name.name.as_str()) {
        None => Err(ItemError::Unknown(name.span)),
        Some(number) => {
            if is_within(number, within) {
                Err(ItemError::Recursive(name.span))
            } else if full {
                Err(ItemError::Scopes)
            } else {
                Ok(number)
            }
        }
    }
}

/// A module and those around it.
pub(crate) fn inner_modules(
    alloc: Global,
    number: usize,
    within: &[usize],
) -> Result<Vec<usize>, AllocError>
    ensures { IfOk result (λ all. all.items ≡ number ∷ within.now) }
{
    let mut all = Vec::new(alloc);
    all.push(number)?;
    all.extend_from_slice(within)?;
    Ok(all)
}

impl<'a> Flat<'a> {
    /// Lists items.
    fn list_all(&mut self, items: Vec<FlatItem<'a>>) -> Result<(), AllocError>
        ensures { IfOk result (λ done. flat_of self.new ≡ add_all (flat_of self.old) items.entry.items) }
    {
        let mut items = items;
        self.items.append(&mut items)?;
        Ok(())
    }

    /// Opens the module of an instance as the next scope.
    fn enter_instance(
        &mut self,
        modules: &'a [Module],
        number: usize,
        place: u32,
        placing: &Placing<'a>,
    ) -> Result<Vec<Task<'a>>, AllocError>
        ensures { IfOk result (λ tasks. (p : Spot) → slice_get (flat_of self.old).places place ≡ Some p → PlacesInstance modules.now number place p placing.now (flat_of self.old) tasks.items (flat_of self.new)) }
    {
        let inside = self.next_place()?;
        let signals = self.take_signals();
        let Some(around) = self.place(place) else {
            return Err(AllocError);
        };
        let Some(declaration) = numbered(modules, number) else {
            return Err(AllocError);
        };
        let joint = Joint {
            outside: place,
            inside,
        };
        let within = inner_modules(self.alloc, number, around.within.as_slice())?;
        let entered = open_instance(self.alloc, joint, around, signals, declaration, placing)?;
        let Entered {
            prefix,
            child,
            items,
        } = entered;
        self.list_all(items)?;
        let tasks = self.enter(prefix, None, within, child)?;
        Ok(tasks)
    }

    /// What is left of an instance.
    pub(crate) fn instance(
        &mut self,
        modules: &'a [Module],
        numbers: &ModuleNumbers,
        place: u32,
        placing: &Placing<'a>,
    ) -> Result<Vec<Task<'a>>, AllocError>
        requires { AreNumbered modules.now numbers.now }
        ensures { IfOk result (λ tasks. Replaces modules.now (Placed place placing.now) (flat_of self.old) tasks.items (flat_of self.new)) }
    {
        let Some(around) = self.place(place) else {
            return Err(AllocError);
        };
        let full = self.is_full();
        let name = placing.module_name.get();
        match placed_in(full, numbers, name, around.within.as_slice()) {
            Err(error) => {
                let tasks = one(self.alloc, Task::Refuses(error))?;
                Ok(tasks)
            }
            Ok(number) => {
                let tasks = self.enter_instance(modules, number, place, placing)?;
                Ok(tasks)
            }
        }
    }
}
