//! The machine: a process goes on, statement by statement, until it waits.
ghost use Rattle.std.specs.Prelude.{◌≡◌, ℕ, ◌<◌, ◌++◌, [], ◌∷◌, IfOk, List, Some, length, map, slice_get, if◌then◌else◌};
ghost use Rattle.std.specs.List.{All};
ghost use Rattle.vlog_syntax.specs.declared.stmt.Stmt.{Stmt};
ghost use Rattle.tb_machine.specs.declared.node.Node.{Node as Code};
ghost use Rattle.tb_machine.specs.Steps.{Do, Turns, assign, step, goes_on};
ghost use Rattle.tb_machine.specs.declared.machine.Stepped.TheVariants.{Goes};
ghost use Rattle.tb_machine.specs.Nodes.{Tree, tree_of, node_step, loop_work, work_of, works, optional_do, choice_at, choice_do, AreClosed, BodyBelow, PartsBelow, FramesBelow, IsCode, frame_number};
ghost use Rattle.tb_machine.specs.Known.{IsAnswered, AllAnswered, Assign};
ghost use Rattle.tb_machine.specs.declared.node.Part.TheVariants as p;
ghost use Rattle.tb_machine.specs.Machine.{IsStep, IsRan};

use crate::evaluator::Evaluator;
use crate::event::Event;
use crate::node::{Choice, Frame, Node, Part, Process};
use crate::scene::Scene;
use std::alloc::AllocError;
use vlog_syntax::Assignment;

/// What a step comes to.
#[derive(Clone, Copy, Debug, PartialEq, Eq)]
pub enum Stepped {
    Goes,
    Waits(Event),
    Finishes,
}

/// What a run of a process, or of several, comes to.
#[derive(Clone, Copy, Debug, PartialEq, Eq)]
pub enum Ended {
    Pauses,
    Finished,
    TooLong,
}

/// The statements of a block are to do, the first next.
fn push_all(stack: &mut Vec<Frame>, body: &[u32]) -> Result<(), AllocError>
    ensures works { (nodes : List Code) (tree : Tree) → IfOk result (λ _. works nodes tree stack.new.items ≡ map (λ k. Do (tree k)) body.now ++ works nodes tree stack.old.items) }
    ensures below { (limit : ℕ) → FramesBelow limit stack.old.items → All (λ k. k < limit) body.now → IfOk result (λ _. FramesBelow limit stack.new.items) }
{
    let mut left = body.len();
    while left > 0 {
        left -= 1;
        stack.push(Frame::Do(body[left]))?;
    }
    Ok(())
}

/// The part of an `if` that is taken.
fn part_of(holds: bool, yes: u32, no: Option<u32>) -> Option<u32>
    ensures work { (tree : Tree) → optional_do tree result ≡ (if holds then Do (tree yes) ∷ [] else optional_do tree no) }
    ensures below { (limit : ℕ) → yes < limit → BodyBelow limit no → BodyBelow limit result }
{
    if holds { Some(yes) } else { no }
}

/// The statement of the item that is taken.
fn body_at(items: &[Choice], taken: Option<usize>) -> Option<u32>
    ensures work { (tree : Tree) → optional_do tree result ≡ choice_do tree (choice_at items.now taken) }
    ensures below { (limit : ℕ) → All (λ i. i.body < limit) items.now → BodyBelow limit result }
{
    let item = items.get(taken?)?;
    Some(item.body)
}

/// The frame comes next.
fn push(stack: &mut Vec<Frame>, frame: Frame) -> Result<Stepped, AllocError>
    ensures pushed { IfOk result (λ r. (r ≡ Goes) × (stack.new.items ≡ stack.old.items ++ frame ∷ [])) }
{
    stack.push(frame)?;
    Ok(Stepped::Goes)
}

/// A statement is to do next, or none.
fn push_next(stack: &mut Vec<Frame>, next: Option<u32>) -> Result<Stepped, AllocError>
    ensures works { (nodes : List Code) (tree : Tree) → IfOk result (λ r. (r ≡ Goes) × (works nodes tree stack.new.items ≡ optional_do tree next ++ works nodes tree stack.old.items)) }
    ensures below { (limit : ℕ) → FramesBelow limit stack.old.items → BodyBelow limit next → IfOk result (λ _. FramesBelow limit stack.new.items) }
{
    if let Some(number) = next {
        stack.push(Frame::Do(number))?;
    }
    Ok(Stepped::Goes)
}

/// Carries out a statement.
fn execute<E: Evaluator>(
    nodes: &[Node],
    number: u32,
    node: &Node,
    stack: &mut Vec<Frame>,
    evaluator: &E,
    scene: &mut Scene,
) -> Result<Stepped, AllocError>
    requires known { number < length nodes.now }
    requires at { slice_get nodes.now number ≡ Some node.now }
    requires parts { PartsBelow (length nodes.now) node.now }
    requires below { FramesBelow (length nodes.now) stack.old.items }
    requires can { IsAnswered (E.answers evaluator.now) number node.now }
    requires serves { E.serves evaluator.now scene.old }
    ensures step { (tree : Tree) → IfOk result (λ r. IsStep nodes.now tree r stack.new.items scene.new (node_step (E.meaning evaluator.now) tree node.now (works nodes.now tree stack.old.items) scene.old)) }
    ensures below { IfOk result (λ _. FramesBelow (length nodes.now) stack.new.items) }
    ensures serves { IfOk result (λ _. E.serves evaluator.now scene.new) }
{
    match node {
        Node::Null => Ok(Stepped::Goes),
        Node::SeqBlock(body) => {
            push_all(stack, body.as_slice())?;
            Ok(Stepped::Goes)
        }
        Node::Conditional(condition, yes, no) => {
            let holds = evaluator.holds(number, condition, scene)?;
            push_next(stack, part_of(holds, *yes, *no))
        }
        Node::Case(kind, selector, items) => {
            let items = items.as_slice();
            let taken = evaluator.choice(number, *kind, selector, items, scene)?;
            push_next(stack, body_at(items, taken))
        }
        Node::For(..) => push(stack, Frame::First(number)),
        Node::While(..) => push(stack, Frame::First(number)),
        Node::Repeat(count, body) => {
            let turns = evaluator.count(number, count, scene)?;
            push(stack, Frame::Turns(turns, *body))
        }
        Node::Forever(body) => push(stack, Frame::Again(*body)),
        Node::EventControl(event, body) => {
            stack.push(Frame::Do(*body))?;
            Ok(Stepped::Waits(*event))
        }
        Node::Finish => Ok(Stepped::Finishes),
        Node::SystemTaskEnable(name, arguments) => {
            evaluator.task(number, name, arguments.as_slice(), scene)?;
            Ok(Stepped::Goes)
        }
        Node::Blocking(assignment) => {
            evaluator.assign(number, Part::Itself, assignment, scene)?;
            Ok(Stepped::Goes)
        }
        Node::Nonblocking(assignment) => {
            evaluator.schedule(number, assignment, scene)?;
            Ok(Stepped::Goes)
        }
    }
}

/// Carries out the assignment that is due before a test: the start of a loop, or the step after a turn.
fn assign_due<E: Evaluator>(
    number: u32,
    is_first: bool,
    start: &Assignment,
    step: &Assignment,
    evaluator: &E,
    scene: &mut Scene,
) -> Result<(), AllocError>
    requires start { E.answers evaluator.now number (Assign p.Start start.now) }
    requires step { E.answers evaluator.now number (Assign p.Step step.now) }
    requires serves { E.serves evaluator.now scene.old }
    ensures assigned { IfOk result (λ _. scene.new ≡ assign (E.meaning evaluator.now) (if is_first then start.now else step.now) scene.old) }
    ensures serves { IfOk result (λ _. E.serves evaluator.now scene.new) }
{
    if is_first {
        evaluator.assign(number, Part::Start, start, scene)
    } else {
        evaluator.assign(number, Part::Step, step, scene)
    }
}

/// Tests a loop, and begins a turn where the test holds. The assignment that is due comes first.
fn test_loop<E: Evaluator>(
    nodes: &[Node],
    number: u32,
    node: &Node,
    is_first: bool,
    stack: &mut Vec<Frame>,
    evaluator: &E,
    scene: &mut Scene,
) -> Result<Stepped, AllocError>
    requires known { number < length nodes.now }
    requires at { slice_get nodes.now number ≡ Some node.now }
    requires parts { PartsBelow (length nodes.now) node.now }
    requires below { FramesBelow (length nodes.now) stack.old.items }
    requires can { IsAnswered (E.answers evaluator.now) number node.now }
    requires serves { E.serves evaluator.now scene.old }
    ensures step { (tree : Tree) → IfOk result (λ r. IsStep nodes.now tree r stack.new.items scene.new (step (E.meaning evaluator.now) (loop_work tree is_first (Some node.now)) (works nodes.now tree stack.old.items) scene.old)) }
    ensures below { IfOk result (λ _. FramesBelow (length nodes.now) stack.new.items) }
    ensures serves { IfOk result (λ _. E.serves evaluator.now scene.new) }
{
    match node {
        Node::For(start, condition, step, body) => {
            assign_due(number, is_first, start, step, evaluator, scene)?;
            if evaluator.holds(number, condition, scene)? {
                stack.push(Frame::Next(number))?;
                stack.push(Frame::Do(*body))?;
            }
            Ok(Stepped::Goes)
        }
        Node::While(condition, body) => {
            if evaluator.holds(number, condition, scene)? {
                stack.push(Frame::Next(number))?;
                stack.push(Frame::Do(*body))?;
            }
            Ok(Stepped::Goes)
        }
        _ => Ok(Stepped::Goes),
    }
}

/// Carries out the next part of a process's work.
fn step<E: Evaluator>(
    nodes: &[Node],
    frame: Frame,
    stack: &mut Vec<Frame>,
    evaluator: &E,
    scene: &mut Scene,
) -> Result<Stepped, AllocError>
    requires known { frame_number frame < length nodes.now }
    requires closed { AreClosed nodes.now }
    requires below { FramesBelow (length nodes.now) stack.old.items }
    requires can { AllAnswered (E.answers evaluator.now) nodes.now }
    requires serves { E.serves evaluator.now scene.old }
    ensures step { (trees : List Stmt) → IsCode nodes.now trees → IfOk result (λ r. IsStep nodes.now (tree_of trees) r stack.new.items scene.new (step (E.meaning evaluator.now) (work_of nodes.now (tree_of trees) frame) (works nodes.now (tree_of trees) stack.old.items) scene.old)) }
    ensures below { IfOk result (λ _. FramesBelow (length nodes.now) stack.new.items) }
    ensures serves { IfOk result (λ _. E.serves evaluator.now scene.new) }
{
    match frame {
        Frame::Do(number) => {
            let node = &nodes[number as usize];
            execute(nodes, number, node, stack, evaluator, scene)
        }
        Frame::Again(number) => {
            stack.push(frame)?;
            let node = &nodes[number as usize];
            execute(nodes, number, node, stack, evaluator, scene)
        }
        Frame::First(number) => {
            let node = &nodes[number as usize];
            test_loop(nodes, number, node, true, stack, evaluator, scene)
        }
        Frame::Next(number) => {
            let node = &nodes[number as usize];
            test_loop(nodes, number, node, false, stack, evaluator, scene)
        }
        Frame::Turns(turns, number) => {
            if turns > 0 {
                stack.push(Frame::Turns(turns - 1, number))?;
                stack.push(Frame::Do(number))?;
            }
            Ok(Stepped::Goes)
        }
    }
}

/// A process goes on until it waits or ends, with so many statements left of the phase.
pub fn go_on<E: Evaluator>(
    nodes: &[Node],
    process: &mut Process,
    left: &mut u32,
    evaluator: &E,
    scene: &mut Scene,
) -> Result<Ended, AllocError>
    requires closed { AreClosed nodes.now }
    requires below { FramesBelow (length nodes.now) process.old.stack.items }
    requires can { AllAnswered (E.answers evaluator.now) nodes.now }
    requires serves { E.serves evaluator.now scene.old }
    ensures ran { (trees : List Stmt) → IsCode nodes.now trees → IfOk result (λ r. IsRan nodes.now (tree_of trees) r left.new process.new scene.new (goes_on (E.meaning evaluator.now) process.old.event left.old (works nodes.now (tree_of trees) process.old.stack.items) scene.old)) }
    ensures below { IfOk result (λ _. FramesBelow (length nodes.now) process.new.stack.items) }
    ensures serves { IfOk result (λ _. E.serves evaluator.now scene.new) }
{
    while let Some(frame) = process.stack.pop() {
        if *left == 0 {
            return Ok(Ended::TooLong);
        }
        *left -= 1;
        match step(nodes, frame, &mut process.stack, evaluator, scene)? {
            Stepped::Goes => {}
            Stepped::Waits(event) => {
                process.event = event;
                return Ok(Ended::Pauses);
            }
            Stepped::Finishes => return Ok(Ended::Finished),
        }
    }
    Ok(Ended::Pauses)
}
