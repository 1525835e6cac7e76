//! Flattening: the parts of a design are replaced by what they stand for, the first one first, until none is left.
//!
//! What is left to be replaced stands in a queue, so that neither the depth of the hierarchy nor the length of the list is on the
//! stack. Nothing is refused on the way: a refusal is an item at its place.
ghost use Rattle.std.specs.Prelude.{◌≡◌, ◌↔◌, ◌++◌, None, Err, IfOk};
ghost use Rattle.flat_items.specs.Flattened.{add_all, module_at};
ghost use Rattle.flat_items.specs.Numbers.{number_of, AreNumbered};
ghost use Rattle.flat_items.specs.Replacing.{Replaces, Flattens, is_number, repeated, top_head, FlattensModule, FlattensTop};
ghost use Rattle.flat_items.specs.Views.{flat_of};
ghost use Rattle.flat_items.specs.declared.walk.FlattenError.TheVariants.{NoTop};

use crate::flat::Flat;
use crate::numbers::ModuleNumbers;
use crate::placing::{inner_modules, module_at};
use crate::task::Task;
use flat_instances::{FlatItem, ItemError};
use flat_scopes::{Head, NameList, Opening, ports_of};
use mcy_base::Text;
use std::alloc::{AllocError, Global};
use std::collections::VecDeque;
use vlog_meaning::Scope;
use vlog_syntax::{Listed, Module};

/// Why a design is not flattened.
#[derive(Clone, Copy, Debug, PartialEq, Eq)]
pub enum FlattenError {
    /// There is no module of the top's name.
    NoTop,
    Memory,
}

/// Puts tasks before those that are left.
fn put<'a>(left: &mut VecDeque<Task<'a>>, tasks: Vec<Task<'a>>) -> Result<(), AllocError>
    ensures { IfOk result (λ done. left.new.items ≡ tasks.entry.items ++ left.old.items) }
{
    let mut tasks = tasks;
    while let Some(task) = tasks.pop() {
        left.push_front(task)?;
    }
    Ok(())
}

impl<'a> Flat<'a> {
    /// Replaces a part of the design.
    #[tactic(auto, using(crate::proofs::Rules::step_replaced, crate::proofs::Rules::refusal_listed))]
    fn replace(
        &mut self,
        modules: &'a [Module],
        numbers: &ModuleNumbers,
        task: Task<'a>,
    ) -> Result<Vec<Task<'a>>, AllocError>
        requires { AreNumbered modules.now numbers.now }
        ensures { IfOk result (λ tasks. Replaces modules.now task.entry (flat_of self.old) tasks.items (flat_of self.new)) }
    {
        match task {
            Task::Step(place, step) => self.step(place, step),
            Task::Instance(place, placing) => self.instance(modules, numbers, place, &placing),
            Task::Generates(place, number, item, taken) => {
                self.generates(place, number, item.get().get(), taken)
            }
            Task::Arm(place, number, item, taken) => {
                self.arm(place, number, item.get().get(), taken)
            }
            Task::Turn(place, turn) => self.turn(place, turn),
            Task::Refuses(error) => {
                self.list(FlatItem::Refuses(error))?;
                Ok(Vec::new(self.alloc))
            }
        }
    }

    /// Replaces all parts.
    fn run(
        &mut self,
        modules: &'a [Module],
        numbers: &ModuleNumbers,
        tasks: Vec<Task<'a>>,
    ) -> Result<(), AllocError>
        requires { AreNumbered modules.now numbers.now }
        ensures { IfOk result (λ done. Flattens modules.now tasks.entry.items (flat_of self.old) (flat_of self.new)) }
    {
        let mut left = VecDeque::new(self.alloc);
        put(&mut left, tasks)?;
        'parts: for _ in 0..u64::MAX {
            let Some(task) = left.pop_front() else {
                return Ok(());
            };
            let tasks = self.replace(modules, numbers, task)?;
            put(&mut left, tasks)?;
        }
        Err(AllocError)
    }
}

/// Whether the module of this number is the first of its name.
fn is_first(numbers: &ModuleNumbers, name: &str, number: usize) -> bool
    ensures { result ≡ is_number (number_of numbers.now name.now) number }
{
    match numbers.get(name) {
        Some(first) => first == number,
        None => false,
    }
}

/// What a top is opened with.
fn top_head<'a>(alloc: Global, declaration: &'a Module) -> Result<Head<'a>, AllocError>
    ensures { IfOk result (λ head. head ≡ top_head declaration.now) }
{
    let ports = ports_of(alloc, &declaration.ports)?;
    Ok(Head {
        prefix: Text::copy(alloc, "")?,
        ports: NameList::of(alloc, ports.as_slice())?,
        given: Listed::from_vec(Vec::new(alloc)),
    })
}

impl<'a> Flat<'a> {
    /// Lists each module whose name another has before it.
    fn list_repeated(
        &mut self,
        modules: &'a [Module],
        numbers: &ModuleNumbers,
    ) -> Result<(), AllocError>
        requires { AreNumbered modules.now numbers.now }
        ensures { IfOk result (λ done. flat_of self.new ≡ add_all (flat_of self.old) (repeated modules.now 0 modules.now)) }
    {
        for (number, one) in modules.iter().enumerate() {
            if !is_first(numbers, one.name.as_str(), number) {
                self.list(FlatItem::Refuses(ItemError::Twice(one.span)))?;
            }
        }
        Ok(())
    }
}

/// The design whose top is the module of this number.
fn flattened<'a>(
    alloc: Global,
    modules: &'a [Module],
    number: usize,
) -> Result<Flat<'a>, AllocError>
    ensures { IfOk result (λ flat. FlattensModule modules.now number (flat_of flat)) }
{
    let Some(declaration) = modules.get(number) else {
        return Err(AllocError);
    };
    let mut flat = Flat::new(alloc);
    let numbers = ModuleNumbers::of(alloc, modules)?;
    flat.list_repeated(modules, &numbers)?;
    let head = top_head(alloc, declaration)?;
    let mut child = Opening::new(alloc, Scope::new(alloc), Vec::new(alloc));
    child.open_module(&head, &Scope::new(alloc), declaration)?;
    let within = inner_modules(alloc, number, &[])?;
    let tasks = flat.enter(head.prefix, None, within, child)?;
    flat.run(modules, &numbers, tasks)?;
    Ok(flat)
}

/// The flattened items of the design that has the module of this name as its top.
pub fn flatten<'a>(
    alloc: Global,
    modules: &'a [Module],
    top: &str,
) -> Result<Flat<'a>, FlattenError>
    ensures no_top { (result ≡ Err NoTop) ↔ (module_at modules.now top.now ≡ None) }
    ensures flattens { IfOk result (λ flat. FlattensTop modules.now top.now (flat_of flat)) }
{
    let Some(number) = module_at(modules, top) else {
        return Err(FlattenError::NoTop);
    };
    match flattened(alloc, modules, number) {
        Ok(flat) => Ok(flat),
        Err(_) => Err(FlattenError::Memory),
    }
}
