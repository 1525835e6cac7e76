//! Generate constructs (IEEE 1364-2005, 12.4): what a condition chooses, and how a loop starts.
ghost use Rattle.std.specs.Prelude.{◌≡◌, ◌∷◌, [], List, Some, IfOk};
ghost use Rattle.vlog_syntax.specs.declared.item.Item.TheVariants.{LoopGenerate as Loops};
ghost use Rattle.vlog_syntax.specs.declared.module.Module.{Module as Tree};
ghost use Rattle.flat_items.specs.Flattened.{taken_tasks, is_passed, other_tasks, chosen_tasks, genvar_fault};
ghost use Rattle.flat_items.specs.Replacing.{first_turn, Replaces};
ghost use Rattle.flat_items.specs.Views.{flat_of};
ghost use Rattle.flat_items.specs.declared.task.Task.TheVariants.{Arm as Chosen, Generates as Constructs, Turn as TurnTask};

use crate::constants::{condition, integer};
use crate::flat::Flat;
use crate::names::block_name;
use crate::task::{Task, Turn};
use flat_instances::ItemError;
use flat_scopes::{Lent, Refusal, What, has_label};
use mcy_base::{Span, Text};
use std::alloc::{AllocError, Global};
use vlog_syntax::{Boxed, GenerateLoop, Identifier, Item};

/// One task.
pub(crate) fn one<'a>(alloc: Global, task: Task<'a>) -> Result<Vec<Task<'a>>, AllocError>
    ensures { IfOk result (λ tasks. tasks.items ≡ task.entry ∷ []) }
{
    let mut tasks = Vec::new(alloc);
    tasks.push(task)?;
    Ok(tasks)
}

/// That a label stands already, if one does.
pub(crate) fn told<'a>(
    alloc: Global,
    taken: &Option<Lent<'a, Identifier>>,
) -> Result<Vec<Task<'a>>, AllocError>
    ensures { IfOk result (λ tasks. tasks.items ≡ taken_tasks taken.now) }
{
    let mut tasks = Vec::new(alloc);
    if let Some(label) = taken {
        let refusal = Refusal::Twice(label.get().span);
        tasks.push(Task::Refuses(ItemError::Declaration(refusal)))?;
    }
    Ok(tasks)
}

/// What is left of an item that a condition chose.
fn arm<'a>(
    alloc: Global,
    place: u32,
    number: u32,
    item: &'a Item,
    taken: Option<Lent<'a, Identifier>>,
) -> Result<Task<'a>, AllocError>
    ensures { IfOk result (λ task. task ≡ Chosen place number item.now taken.entry) }
{
    let item = Boxed::new(alloc, Lent::of(item))?;
    Ok(Task::Arm(place, number, item, taken))
}

/// Whether a label is one of the part that is passed over.
fn is_passed(first: &Item, taken: &Option<Lent<'_, Identifier>>) -> bool
    ensures { result ≡ is_passed first.now taken.now }
{
    match taken {
        Some(label) => has_label(first, label.get().name.as_str()),
        None => false,
    }
}

/// What stands behind `else`, and the label ahead of it, if it is one of the part before.
fn other<'a>(
    alloc: Global,
    place: u32,
    number: u32,
    first: &Item,
    second: &'a Item,
    taken: Option<Lent<'a, Identifier>>,
) -> Result<Vec<Task<'a>>, AllocError>
    ensures { IfOk result (λ tasks. tasks.items ≡ other_tasks place number first.now (Some second.now) taken.entry) }
{
    if !is_passed(first, &taken) {
        return one(alloc, arm(alloc, place, number, second, taken)?);
    }
    let mut tasks = told(alloc, &taken)?;
    tasks.push(arm(alloc, place, number, second, None)?)?;
    Ok(tasks)
}

/// What is left of a condition with this value.
fn choose<'a>(
    alloc: Global,
    place: u32,
    number: u32,
    value: Result<u128, ItemError>,
    first: &'a Item,
    second: &'a Option<Boxed<Item>>,
    taken: Option<Lent<'a, Identifier>>,
) -> Result<Vec<Task<'a>>, AllocError>
    ensures { IfOk result (λ tasks. tasks.items ≡ chosen_tasks place number value first.now second.now taken.entry) }
{
    match value {
        Err(error) => one(alloc, Task::Refuses(error)),
        Ok(value) => {
            if value != 0 {
                return one(alloc, arm(alloc, place, number, first, taken)?);
            }
            match second {
                Some(second) => other(alloc, place, number, first, second.get(), taken),
                None => told(alloc, &taken),
            }
        }
    }
}

/// Why a name is no genvar.
fn genvar_fault(what: Option<What>, span: Span) -> Option<ItemError>
    ensures { result ≡ genvar_fault what span }
{
    match what {
        Some(What::Genvar) => None,
        Some(What::Variable(_)) => Some(ItemError::NotConstant(span)),
        Some(What::Constant) => Some(ItemError::Unknown(span)),
        Some(What::Inside) => Some(ItemError::Unknown(span)),
        None => Some(ItemError::Unknown(span)),
    }
}

/// The first turn of a loop.
fn start<'a>(
    alloc: Global,
    place: u32,
    name: Text,
    head: &'a GenerateLoop,
    body: &'a Item,
    value: u32,
    taken: Option<Lent<'a, Identifier>>,
) -> Result<Vec<Task<'a>>, AllocError>
    ensures { IfOk result (λ tasks. tasks.items ≡ TurnTask place (first_turn name head.now body.now value taken.entry) ∷ []) }
{
    let body = Boxed::new(alloc, Lent::of(body))?;
    one(
        alloc,
        Task::Turn(
            place,
            Turn {
                name,
                head: Lent::of(head),
                body,
                count: 0,
                value,
                taken,
            },
        ),
    )
}

impl<'a> Flat<'a> {
    /// What is left of a loop: its first turn.
    fn starts(
        &self,
        place: u32,
        number: u32,
        head: &'a GenerateLoop,
        body: &'a Item,
        taken: Option<Lent<'a, Identifier>>,
    ) -> Result<Vec<Task<'a>>, AllocError>
        ensures { IfOk result (λ tasks. (ms : List Tree) → Replaces ms (Constructs place number (Loops head.now body.now) taken.entry) (flat_of self.now) tasks.items (flat_of self.now)) }
    {
        let what = self.sees(place, head.name.name.as_str())?;
        if let Some(error) = genvar_fault(what, head.name.span) {
            return one(self.alloc, Task::Refuses(error));
        }
        let Some(around) = self.place(place) else {
            return Err(AllocError);
        };
        match integer(head.start.get(), &around.scope) {
            Err(error) => one(self.alloc, Task::Refuses(error)),
            Ok(value) => {
                let name = block_name(self.alloc, &around.own, number, body)?;
                start(self.alloc, place, name, head, body, value, taken)
            }
        }
    }

    /// What is left of a generate construct.
    #[tactic(auto, using(crate::proofs::Rules::nothing_left))]
    pub(crate) fn generates(
        &self,
        place: u32,
        number: u32,
        item: &'a Item,
        taken: Option<Lent<'a, Identifier>>,
    ) -> Result<Vec<Task<'a>>, AllocError>
        ensures { IfOk result (λ tasks. (ms : List Tree) → Replaces ms (Constructs place number item.now taken.entry) (flat_of self.now) tasks.items (flat_of self.now)) }
    {
        match item {
            Item::IfGenerate(_, test, first, second) => {
                let Some(around) = self.place(place) else {
                    return Err(AllocError);
                };
                let value = condition(test.get(), &around.scope);
                let first = first.get();
                choose(self.alloc, place, number, value, first, second, taken)
            }
            Item::LoopGenerate(head, body) => {
                self.starts(place, number, head, body.get(), taken)
            }
            Item::Plain(_) => Ok(Vec::new(self.alloc)),
            Item::GenerateRegion(..) => Ok(Vec::new(self.alloc)),
            Item::GenerateBlock(..) => Ok(Vec::new(self.alloc)),
            Item::NullGenerate(_) => Ok(Vec::new(self.alloc)),
        }
    }
}
