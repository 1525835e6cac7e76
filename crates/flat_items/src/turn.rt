//! Turns of loops (IEEE 1364-2005, 12.4.1): in each the variable is a constant.
ghost use Rattle.std.specs.Prelude.{◌≡◌, List, Some, slice_get, IfOk};
ghost use Rattle.vlog_syntax.specs.declared.module.Module.{Module as Tree};
ghost use Rattle.flat_scopes.specs.Views.{opened_of};
ghost use Rattle.flat_items.specs.Flattened.{turn_start};
ghost use Rattle.flat_instances.specs.Places.{Place as Spot, place_of};
ghost use Rattle.flat_items.specs.Replacing.{outcome, step_fault, stepped, next_turn, TurnsOnce, Replaces};
ghost use Rattle.flat_items.specs.Views.{flat_of};
ghost use Rattle.flat_items.specs.declared.task.Task.TheVariants.{Turn as TurnTask};

use crate::constants::{condition, integer};
use crate::flat::Flat;
use crate::generate::{one, told};
use crate::names::turn_name;
use crate::task::{Task, Turn};
use flat_instances::{ItemError, Place};
use flat_scopes::{Opening, Signal, What, turn_decl};
use mcy_base::Span;
use std::alloc::{AllocError, Global};

/// The most turns of a loop.
const MAX_TURNS: u32 = 4096;

/// What comes of a turn.
#[derive(Clone, Copy)]
pub enum Outcome {
    Goes,
    /// The condition is false.
    Ends,
    Refused(ItemError),
}

/// What comes of a turn behind so many others, by the value of the condition, in a design that is full or not.
fn tested(full: bool, value: Result<u128, ItemError>, count: u32) -> Outcome
    ensures { result ≡ outcome full value count }
{
    match value {
        Err(error) => Outcome::Refused(error),
        Ok(value) => {
            if value == 0 {
                Outcome::Ends
            } else if count >= MAX_TURNS {
                Outcome::Refused(ItemError::LoopTurns)
            } else if full {
                Outcome::Refused(ItemError::Scopes)
            } else {
                Outcome::Goes
            }
        }
    }
}

/// Why a step of another name is refused.
fn step_fault(what: Option<What>, span: Span) -> ItemError
    ensures { result ≡ step_fault what span }
{
    match what {
        Some(What::Variable(_)) => ItemError::NotConstant(span),
        Some(What::Constant) => ItemError::Unknown(span),
        Some(What::Genvar) => ItemError::Unknown(span),
        Some(What::Inside) => ItemError::Unknown(span),
        None => ItemError::Unknown(span),
    }
}

/// The next turn, whose variable has this value.
fn stepped<'a>(
    place: u32,
    turn: Turn<'a>,
    value: Result<u32, ItemError>,
) -> Result<Task<'a>, AllocError>
    ensures { IfOk result (λ task. task ≡ stepped place turn.entry value) }
{
    let Some(count) = turn.count.checked_add(1) else {
        return Err(AllocError);
    };
    match value {
        Err(error) => Ok(Task::Refuses(error)),
        Ok(value) => Ok(Task::Turn(
            place,
            Turn {
                name: turn.name,
                head: turn.head,
                body: turn.body,
                count,
                value,
                taken: None,
            },
        )),
    }
}

/// What comes behind a turn: the next one, or why the step is refused.
fn next_turn<'a>(
    place: u32,
    turn: Turn<'a>,
    what: Option<What>,
    value: Result<u32, ItemError>,
) -> Result<Task<'a>, AllocError>
    ensures { IfOk result (λ task. task ≡ next_turn place turn.entry what value) }
{
    let head = turn.head.get();
    if head.step_name.name.as_str() == head.name.name.as_str() {
        return stepped(place, turn, value);
    }
    Ok(Task::Refuses(step_fault(what, head.step_name.span)))
}

/// The scope of a turn, behind the signals so far.
fn turn_scope<'a>(
    alloc: Global,
    around: &Place,
    signals: Vec<Signal>,
    turn: &Turn<'a>,
) -> Result<Opening<'a>, AllocError>
    ensures { IfOk result (λ o. opened_of o ≡ turn_start (place_of around.now) signals.items turn.now) }
{
    let mut child = Opening::new(alloc, around.scope.copy()?, signals);
    child.constant_name(&turn.head.get().name, turn_decl(turn.value))?;
    Ok(child)
}

impl<'a> Flat<'a> {
    /// Opens the block of a turn, and gives what is left of it and of the loop.
    fn turn_block(
        &mut self,
        place: u32,
        turn: Turn<'a>,
        child: Opening<'a>,
    ) -> Result<Vec<Task<'a>>, AllocError>
        ensures { IfOk result (λ tasks. (p : Spot) → slice_get (flat_of self.old).places place ≡ Some p → TurnsOnce place p turn.entry (opened_of child.entry) (flat_of self.old) tasks.items (flat_of self.new)) }
    {
        let head = turn.head.get();
        let what = self.sees(place, head.step_name.name.as_str())?;
        let value = integer(head.step.get(), child.scope());
        let name = turn_name(self.alloc, turn.name.as_str(), turn.value)?;
        let mut tasks = told(self.alloc, &turn.taken)?;
        let mut inner = self.open_block(place, name.as_str(), child, turn.body.get().get())?;
        inner.push(next_turn(place, turn, what, value)?)?;
        tasks.append(&mut inner)?;
        Ok(tasks)
    }

    /// What is left of a loop from a turn on.
    pub(crate) fn turn(&mut self, place: u32, turn: Turn<'a>) -> Result<Vec<Task<'a>>, AllocError>
        ensures { IfOk result (λ tasks. (ms : List Tree) → Replaces ms (TurnTask place turn.entry) (flat_of self.old) tasks.items (flat_of self.new)) }
    {
        let full = self.is_full();
        let signals = self.take_signals();
        let Some(around) = self.place(place) else {
            return Err(AllocError);
        };
        let child = turn_scope(self.alloc, around, signals, &turn)?;
        let value = condition(turn.head.get().condition.get(), child.scope());
        match tested(full, value, turn.count) {
            Outcome::Goes => self.turn_block(place, turn, child),
            Outcome::Ends => {
                self.give_back(child);
                told(self.alloc, &turn.taken)
            }
            Outcome::Refused(error) => {
                self.give_back(child);
                one(self.alloc, Task::Refuses(error))
            }
        }
    }
}
