//! The nodes of a statement: those of its parts first, from left to right, and then its own.
ghost use Rattle.std.specs.Prelude.{◌≡◌, [], ◌∷◌, IfOk, map};
ghost use Rattle.tb_machine.specs.Nodes.{choice_labels};
ghost use Rattle.tb_machine.specs.Steps.{labels_of};
ghost use Rattle.tb_code.specs.Codes.{Adds, part_of, part_number};

use crate::copies::copy_exprs;
use crate::kinds::{
    blocking, case, conditional, event_control, for_loop, forever, nonblocking, null, repeat,
    seq_block, system_task, while_loop,
};
use std::alloc::{AllocError, Global};
use tb_machine::{Choice, Node, Numbers};
use vlog_syntax::{CaseItem, Listed, Stmt};

/// A list of one number.
fn single(alloc: Global, number: u32) -> Result<Numbers, AllocError>
    ensures { IfOk result (λ numbers. numbers ≡ number ∷ []) }
{
    let mut numbers = Numbers::from_vec(Vec::new(alloc));
    numbers.push(number)?;
    Ok(numbers)
}

/// Adds a statement, and tells its number. A delay, which a testbench does not have but in its clock, waits for nothing.
#[cycle(statement)]
pub(crate) fn add_statement(
    alloc: Global,
    nodes: &mut Vec<Node>,
    statement: &Stmt,
) -> Result<u32, AllocError>
    ensures { IfOk result (λ number. Adds nodes.old.items nodes.new.items (number ∷ []) (statement.now ∷ [])) }
{
    match statement {
        Stmt::Null(_) => null(nodes),
        Stmt::SeqBlock(_, _, body) => {
            let body = add_all(alloc, nodes, body.as_slice())?;
            seq_block(nodes, body)
        }
        Stmt::Conditional(_, condition, yes, no) => {
            let yes = add_statement(alloc, nodes, yes.get())?;
            match no {
                Some(no) => {
                    let no = add_statement(alloc, nodes, no.get())?;
                    conditional(alloc, nodes, condition.get(), yes, Some(no))
                }
                None => conditional(alloc, nodes, condition.get(), yes, None),
            }
        }
        Stmt::Case(_, kind, selector, items) => {
            let items = add_items(alloc, nodes, items.as_slice())?;
            case(alloc, nodes, *kind, selector.get(), items)
        }
        Stmt::For(_, start, condition, step, body) => {
            let body = add_statement(alloc, nodes, body.get())?;
            for_loop(alloc, nodes, start, condition.get(), step, body)
        }
        Stmt::While(_, condition, body) => {
            let body = add_statement(alloc, nodes, body.get())?;
            while_loop(alloc, nodes, condition.get(), body)
        }
        Stmt::Repeat(_, count, body) => {
            let body = add_statement(alloc, nodes, body.get())?;
            repeat(alloc, nodes, count.get(), body)
        }
        Stmt::Forever(_, body) => {
            let body = add_statement(alloc, nodes, body.get())?;
            forever(nodes, body)
        }
        Stmt::EventControl(_, control, body) => {
            let body = add_statement(alloc, nodes, body.get())?;
            event_control(nodes, control, body)
        }
        Stmt::DelayControl(_, _, body) => {
            let body = add_statement(alloc, nodes, body.get())?;
            let body = single(alloc, body)?;
            seq_block(nodes, body)
        }
        Stmt::SystemTaskEnable(name, arguments) => {
            system_task(alloc, nodes, name, arguments.as_slice())
        }
        Stmt::BlockingAssignment(assignment) => blocking(alloc, nodes, assignment),
        Stmt::NonblockingAssignment(assignment) => nonblocking(alloc, nodes, assignment),
    }
}

/// Adds statements, and tells their numbers.
#[cycle(statement)]
fn add_all(alloc: Global, nodes: &mut Vec<Node>, statements: &[Stmt]) -> Result<Numbers, AllocError>
    ensures { IfOk result (λ numbers. Adds nodes.old.items nodes.new.items numbers statements.now) }
{
    let mut numbers = Numbers::from_vec(Vec::new(alloc));
    for statement in statements {
        let number = add_statement(alloc, nodes, statement)?;
        numbers.push(number)?;
    }
    Ok(numbers)
}

/// Adds the statement of an item, and tells the item.
#[cycle(statement)]
fn add_item(alloc: Global, nodes: &mut Vec<Node>, item: &CaseItem) -> Result<Choice, AllocError>
    ensures adds { IfOk result (λ choice. Adds nodes.old.items nodes.new.items (part_number choice ∷ []) (part_of item.now ∷ [])) }
    ensures labels { IfOk result (λ choice. choice_labels choice ≡ labels_of item.now) }
{
    let body = add_statement(alloc, nodes, item.body.get())?;
    let labels = copy_exprs(alloc, item.labels.as_slice())?;
    Ok(Choice { labels, body })
}

/// Adds the statements of items, and tells the items.
#[cycle(statement)]
fn add_items(
    alloc: Global,
    nodes: &mut Vec<Node>,
    items: &[CaseItem],
) -> Result<Listed<Choice>, AllocError>
    ensures adds { IfOk result (λ choices. Adds nodes.old.items nodes.new.items (map part_number choices) (map part_of items.now)) }
    ensures labels { IfOk result (λ choices. map choice_labels choices ≡ map labels_of items.now) }
{
    let mut choices = Listed::from_vec(Vec::new(alloc));
    for item in items {
        let choice = add_item(alloc, nodes, item)?;
        choices.push(choice)?;
    }
    Ok(choices)
}
