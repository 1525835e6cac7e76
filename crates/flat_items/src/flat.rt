//! A design that is being flattened: its signals, its scopes and its items so far.
ghost use Rattle.std.specs.Prelude.{◌≡◌, ◌∷◌, [], length, slice_get, Some, IfOk, IfSome};
ghost use Rattle.vlog_meaning.specs.Scopes.{names_of};
ghost use Rattle.flat_scopes.specs.Owns.{what_of};
ghost use Rattle.flat_scopes.specs.Views.{opened_of};
ghost use Rattle.flat_items.specs.Flattened.{add_all, entered as with_place, is_full, kept_names, tasks_of, plain_items, assigned_items, step_items, step_tasks, Sees};
ghost use Rattle.flat_instances.specs.Places.{place_of};
ghost use Rattle.flat_items.specs.Views.{flat_of};

use crate::task::Task;
use flat_instances::{FlatItem, ItemError, Place};
use flat_scopes::{Lent, Opening, Parts, Signal, Step, What};
use mcy_base::Text;
use std::alloc::{AllocError, Global};
use vlog_meaning::Scope;
use vlog_syntax::{Assignment, PlainItem};

/// The most scopes of a design within its top.
const MAX_SCOPES: usize = 65536;

/// A design that is being flattened.
#[derive(Drop)]
pub struct Flat<'a> {
    pub(crate) alloc: Global,
    pub(crate) signals: Vec<Signal>,
    pub(crate) places: Vec<Place>,
    pub(crate) items: Vec<FlatItem<'a>>,
}

/// A scope, without its names where nothing is listed in it.
fn kept_scope(alloc: Global, scope: Scope, steps: &[Step<'_>]) -> Scope
    ensures { names_of result ≡ kept_names steps.now (names_of scope) }
{
    if steps.is_empty() {
        return Scope::new(alloc);
    }
    scope
}

/// What is kept of a scope that was opened: no names where nothing is listed in it, so that empty blocks take little room.
fn kept_parts<'a>(alloc: Global, child: Opening<'a>) -> Parts<'a>
    ensures own { what_of result.own ≡ (opened_of child.entry).own }
    ensures names { names_of result.scope ≡ kept_names (opened_of child.entry).steps (opened_of child.entry).names }
    ensures signals { result.signals.items ≡ (opened_of child.entry).signals }
    ensures steps { result.steps.items ≡ (opened_of child.entry).steps }
{
    let Parts {
        own,
        scope,
        signals,
        steps,
    } = child.into_parts();
    Parts {
        own,
        scope: kept_scope(alloc, scope, steps.as_slice()),
        signals,
        steps,
    }
}

/// The steps of a scope, each to be replaced.
fn step_tasks<'a>(
    alloc: Global,
    place: u32,
    steps: Vec<Step<'a>>,
) -> Result<Vec<Task<'a>>, AllocError>
    ensures { IfOk result (λ tasks. tasks.items ≡ tasks_of place steps.entry.items) }
{
    let mut tasks = Vec::new(alloc);
    for step in steps {
        tasks.push(Task::Step(place, step))?;
    }
    Ok(tasks)
}

impl<'a> Flat<'a> {
    /// Nothing yet.
    pub(crate) fn new(alloc: Global) -> Flat<'a>
        ensures { flat_of result ≡ record { signals = []; places = []; items = [] } }
    {
        Flat {
            alloc,
            signals: Vec::new(alloc),
            places: Vec::new(alloc),
            items: Vec::new(alloc),
        }
    }

    /// The signals, by their numbers.
    pub fn signals(&self) -> &[Signal]
        ensures { result.now ≡ (flat_of self.now).signals }
    {
        self.signals.as_slice()
    }

    /// The items, in order.
    pub fn items(&self) -> &[FlatItem<'a>]
        ensures { result.now ≡ (flat_of self.now).items }
    {
        self.items.as_slice()
    }

    /// The scope of this number.
    #[tactic(auto, using(crate::proofs::Rules::place_got))]
    pub fn place(&self, number: u32) -> Option<&Place>
        ensures { IfSome result (λ p. slice_get (flat_of self.now).places number ≡ Some (place_of p.now)) }
    {
        self.places.get(number as usize)
    }

    /// What a name stands for in a scope: it is looked for there, and then in the scopes around.
    pub(crate) fn sees(&self, number: u32, name: &str) -> Result<Option<What>, AllocError>
        ensures { IfOk result (λ what. Sees (flat_of self.now).places name.now number what) }
    {
        let mut at = number;
        'outward: for _ in 0..self.places.len() {
            let Some(place) = self.place(at) else {
                return Err(AllocError);
            };
            if let Some(what) = place.own.get(name) {
                return Ok(Some(what));
            }
            match place.around {
                Some(around) => at = around,
                None => return Ok(None),
            }
        }
        Err(AllocError)
    }

    /// Lists an item.
    pub(crate) fn list(&mut self, item: FlatItem<'a>) -> Result<(), AllocError>
        ensures { IfOk result (λ done. flat_of self.new ≡ add_all (flat_of self.old) (item.entry ∷ [])) }
    {
        self.items.push(item)?;
        Ok(())
    }

    /// Whether there is no room for another scope.
    pub(crate) fn is_full(&self) -> bool
        ensures { result ≡ is_full (flat_of self.now) }
    {
        self.places.len() > MAX_SCOPES
    }

    /// The number of the next scope.
    pub(crate) fn next_place(&self) -> Result<u32, AllocError>
        ensures { IfOk result (λ number. number ≡ length (flat_of self.now).places) }
    {
        match u32::try_from(self.places.len()) {
            Ok(number) => Ok(number),
            Err(_) => Err(AllocError),
        }
    }

    /// Keeps a scope that was opened, which is the next place, and gives its steps.
    pub(crate) fn enter(
        &mut self,
        prefix: Text,
        around: Option<u32>,
        within: Vec<usize>,
        child: Opening<'a>,
    ) -> Result<Vec<Task<'a>>, AllocError>
        ensures tasks { IfOk result (λ tasks. tasks.items ≡ tasks_of (length (flat_of self.old).places) (opened_of child.entry).steps) }
        ensures entered { IfOk result (λ tasks. flat_of self.new ≡ with_place (flat_of self.old) prefix around within.items (opened_of child.entry)) }
    {
        let number = self.next_place()?;
        let Parts {
            own,
            scope,
            signals,
            steps,
        } = kept_parts(self.alloc, child);
        self.signals = signals;
        self.places.push(Place {
            prefix,
            scope,
            own,
            around,
            within,
        })?;
        step_tasks(self.alloc, number, steps)
    }

    /// Lists assignments of a scope.
    fn assigns(&mut self, place: u32, assignments: &'a [Assignment]) -> Result<(), AllocError>
        ensures { IfOk result (λ done. flat_of self.new ≡ add_all (flat_of self.old) (assigned_items place assignments.now)) }
    {
        for assignment in assignments {
            self.list(FlatItem::Assigns(
                place,
                Lent::of(&assignment.left),
                Lent::of(assignment.value.get()),
            ))?;
        }
        Ok(())
    }

    /// Lists an `assign` or a process.
    fn plain(&mut self, place: u32, item: &'a PlainItem) -> Result<(), AllocError>
        ensures { IfOk result (λ done. flat_of self.new ≡ add_all (flat_of self.old) (plain_items place item.now)) }
    {
        match item {
            PlainItem::ContinuousAssign(_, None, assignments) => {
                self.assigns(place, assignments.as_slice())
            }
            PlainItem::ContinuousAssign(_, Some(delay), _) => {
                self.list(FlatItem::Refuses(ItemError::Delay(delay.span)))
            }
            PlainItem::Process(process) => self.list(FlatItem::Runs(place, Lent::of(process))),
            _ => Ok(()),
        }
    }

    /// Lists what a step of a scope lists, and gives what is left of it.
    pub(crate) fn step(&mut self, place: u32, step: Step<'a>) -> Result<Vec<Task<'a>>, AllocError>
        ensures items { IfOk result (λ tasks. flat_of self.new ≡ add_all (flat_of self.old) (step_items place step.entry)) }
        ensures tasks { IfOk result (λ tasks. tasks.items ≡ step_tasks place step.entry) }
    {
        let mut tasks = Vec::new(self.alloc);
        match step {
            Step::Declares(number) => self.list(FlatItem::Declares(number))?,
            Step::Refuses(refusal) => {
                self.list(FlatItem::Refuses(ItemError::Declaration(refusal)))?;
            }
            Step::RefusesGiven(_) => {}
            Step::Starts(number, value) => self.list(FlatItem::Starts(number, place, value))?,
            Step::Drives(name, value) => self.list(FlatItem::Drives(place, name, value))?,
            Step::Lists(item) => self.plain(place, item.get().get())?,
            Step::Places(placing) => tasks.push(Task::Instance(place, placing))?,
            Step::Generates(number, item, taken) => {
                tasks.push(Task::Generates(place, number, item, taken))?;
            }
        }
        Ok(tasks)
    }
}
