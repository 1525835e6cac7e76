//! The marks of statements: those of a block after each other, of a choice from its parts, of a case from its arms, and of a loop
//! turn by turn.
//!
//! Where a loop is refused that alone is marked, and nothing of its parts; where a case is, that and its items one after the other. A
//! scope is lent to a statement, and given back as it was.
ghost use Rattle.std.specs.Prelude.{◌≡◌, ◌≤◌, ◌<◌, length, map, take, Some, IfOk, IfSome, OnOk, IsSome};
ghost use Rattle.std.specs.Option.{option_map};
ghost use Rattle.vlog_syntax.specs.declared.left_side.LeftSide.{out-LeftSide};
ghost use Rattle.vlog_meaning.specs.declared.scope.Decl.TheVariants.{Constant};
ghost use Rattle.vlog_meaning.specs.Scopes.{Names, names_of, with_name};
ghost use Rattle.vlog_effects.specs.Laws.{item_steps};
ghost use Rattle.vlog_effects.specs.Steps.{steps_of, case_steps, loop_steps, name_alone, turns, max_turns, in_turn, bodies_of, done_by, labelled};
ghost use Rattle.elab_proc.specs.Refusals.{AreSized};
ghost use Rattle.elab_proc.specs.Turns.{loop_of, AlikeBut};
ghost use Rattle.case_arms.specs.Arms.{item_body};
ghost use Rattle.process_latches.specs.Marking.{Marked};
ghost use Rattle.process_latches.specs.Sound.{sound};
ghost use Rattle.process_latches.specs.Turning.{IsOwn, Chosen, AreArms, AlsoWrites, IsMarkedTurn, last_steps};

use crate::assignments::mark_assignment;
use crate::marks::{Marks, Write};
use case_arms::arms_in;
use elab_proc::{Header, MAX_TURNS, case_fault, holds, is_default, next_word};
use mcy_base::{Span, Word};
use std::alloc::{AllocError, Global};
use vlog_meaning::{Decl, Scope, constant_at};
use vlog_syntax::{Assignment, CaseItem, CaseKind, Expr, LeftSide, Stmt};

/// Two parts of a choice follow, of which these are the marks.
fn choose(alloc: Global, first: Marks, second: &Marks, marks: &mut Marks) -> Result<(), AllocError>
    ensures { OnOk result (Chosen first second.now marks.old marks.new) }
{
    let mut both = first;
    both.meet(alloc, second)?;
    marks.add(&both)?;
    Ok(())
}

/// Adds the marks of a statement (IEEE 1364-2005, 9.2 to 9.6). A loop without a `for`, a wait and a system task have none: they are
/// refused where they stand. An error comes only where there is no memory; then the scope is only to be dropped.
#[cycle(walk)]
pub fn mark(
    alloc: Global,
    stmt: &Stmt,
    scope: &mut Scope,
    marks: &mut Marks,
) -> Result<(), AllocError>
    requires { AreSized (names_of scope.old) }
    ensures marked { OnOk result (Marked (sound (steps_of stmt.now (names_of scope.old))) marks.old marks.new) }
    ensures kept { OnOk result (names_of scope.new ≡ names_of scope.old) }
{
    match stmt {
        Stmt::Null(_) => Ok(()),
        Stmt::While(..) => Ok(()),
        Stmt::Repeat(..) => Ok(()),
        Stmt::Forever(..) => Ok(()),
        Stmt::EventControl(..) => Ok(()),
        Stmt::DelayControl(..) => Ok(()),
        Stmt::SystemTaskEnable(..) => Ok(()),
        Stmt::SeqBlock(_, _, body) => mark_block(alloc, body.as_slice(), scope, marks),
        Stmt::Conditional(_, condition, yes, no) => {
            let test = condition.get();
            marks.read_test(alloc, test, scope)?;
            let body = yes.get();
            let mut first = Marks::new(alloc);
            mark(alloc, body, scope, &mut first)?;
            let mut second = Marks::new(alloc);
            match no {
                Some(no) => {
                    let other = no.get();
                    mark(alloc, other, scope, &mut second)?;
                    choose(alloc, first, &second, marks)?;
                    Ok(())
                }
                None => {
                    choose(alloc, first, &second, marks)?;
                    Ok(())
                }
            }
        }
        Stmt::Case(_, kind, selector, items) => {
            mark_case(alloc, *kind, items.as_slice(), selector.get(), scope, marks)
        }
        Stmt::For(span, start, condition, step, body) => {
            mark_loop(
                alloc,
                *span,
                start,
                condition.get(),
                step,
                body.get(),
                scope,
                marks,
            )
        }
        Stmt::BlockingAssignment(assignment) => {
            mark_assignment(alloc, assignment, true, scope, marks)
        }
        Stmt::NonblockingAssignment(assignment) => {
            mark_assignment(alloc, assignment, false, scope, marks)
        }
    }
}

/// Adds the marks of the statements of a block.
#[cycle(walk)]
fn mark_block(
    alloc: Global,
    body: &[Stmt],
    scope: &mut Scope,
    marks: &mut Marks,
) -> Result<(), AllocError>
    requires { AreSized (names_of scope.old) }
    ensures marked { OnOk result (Marked (sound (in_turn (map steps_of body.now) (names_of scope.old))) marks.old marks.new) }
    ensures kept { OnOk result (names_of scope.new ≡ names_of scope.old) }
{
    for stmt in body {
        mark(alloc, stmt, scope, marks)?;
    }
    Ok(())
}

/// Adds the marks of a case. Where its selector or a label is refused, that is marked, and then the items one after the other.
#[cycle(walk)]
fn mark_case(
    alloc: Global,
    kind: CaseKind,
    items: &[CaseItem],
    selector: &Expr,
    scope: &mut Scope,
    marks: &mut Marks,
) -> Result<(), AllocError>
    requires { AreSized (names_of scope.old) }
    ensures marked { OnOk result (Marked (sound (case_steps kind selector.now (map item_steps items.now) (names_of scope.old))) marks.old marks.new) }
    ensures kept { OnOk result (names_of scope.new ≡ names_of scope.old) }
{
    match case_fault(selector, items, scope) {
        Some(_) => {
            marks.stop();
            mark_bodies(alloc, items, scope, marks)
        }
        None => {
            let chosen = arms_in(alloc, kind, selector, items, scope)?;
            marks.read(alloc, selector, scope)?;
            let last = mark_last(alloc, items, chosen.last, scope)?;
            let arms = mark_arms(alloc, items, chosen.before, last, scope)?;
            marks.add(&arms)?;
            Ok(())
        }
    }
}

/// Adds the marks of the bodies of all items of a case, one after the other.
#[cycle(walk)]
fn mark_bodies(
    alloc: Global,
    items: &[CaseItem],
    scope: &mut Scope,
    marks: &mut Marks,
) -> Result<(), AllocError>
    requires { AreSized (names_of scope.old) }
    ensures marked { OnOk result (Marked (sound (bodies_of (map item_steps items.now) (names_of scope.old))) marks.old marks.new) }
    ensures kept { OnOk result (names_of scope.new ≡ names_of scope.old) }
{
    for item in items {
        mark(alloc, item.body.get(), scope, marks)?;
    }
    Ok(())
}

/// The marks of the item at a place, if there is one.
#[cycle(walk)]
fn mark_last(
    alloc: Global,
    items: &[CaseItem],
    place: Option<usize>,
    scope: &mut Scope,
) -> Result<Marks, AllocError>
    requires sized { AreSized (names_of scope.old) }
    requires within { IfSome place (λ k. k < length items.now) }
    ensures marked { IfOk result (λ m. IsOwn (sound (done_by (option_map (item_body items.now) place) (names_of scope.old))) m) }
    ensures kept { OnOk result (names_of scope.new ≡ names_of scope.old) }
{
    let mut marks = Marks::new(alloc);
    match place {
        Some(place) => {
            let item = &items[place];
            mark(alloc, item.body.get(), scope, &mut marks)?;
            Ok(marks)
        }
        None => Ok(marks),
    }
}

/// These marks, with more variables that are assigned.
fn with_writes(marks: Marks, writes: Vec<Write>) -> Result<Marks, AllocError>
    ensures { IfOk result (λ m. AlsoWrites writes.items marks m) }
{
    let mut more = marks;
    more.writes.extend_from_slice(writes.as_slice())?;
    Ok(more)
}

/// The marks of the items with labels before a place, as the arms of a case in which another item of these marks is done where none
/// of them matches.
#[cycle(walk)]
fn mark_arms(
    alloc: Global,
    items: &[CaseItem],
    before: usize,
    last: Marks,
    scope: &mut Scope,
) -> Result<Marks, AllocError>
    requires sized { AreSized (names_of scope.old) }
    requires within { before ≤ length items.now }
    ensures marked { IfOk result (λ m. AreArms (names_of scope.old) (labelled (map item_steps (take before items.now))) last m) }
    ensures kept { OnOk result (names_of scope.new ≡ names_of scope.old) }
{
    let mut met = Marks {
        covered: last.covered,
        early: last.early,
        writes: Vec::new(alloc),
        is_stopped: last.is_stopped,
    };
    for place in 0..before {
        let item = &items[place];
        if is_default(item) {
            continue;
        }
        let mut arm = Marks::new(alloc);
        arm.read_all(alloc, item.labels.as_slice(), scope)?;
        mark(alloc, item.body.get(), scope, &mut arm)?;
        met.meet(alloc, &arm)?;
    }
    let arms = with_writes(met, last.writes)?;
    Ok(arms)
}

/// Adds the marks of a loop.
#[cycle(walk)]
fn mark_loop(
    alloc: Global,
    place: Span,
    start: &Assignment,
    condition: &Expr,
    step: &Assignment,
    body: &Stmt,
    scope: &mut Scope,
    marks: &mut Marks,
) -> Result<(), AllocError>
    requires { AreSized (names_of scope.old) }
    ensures marked { OnOk result (Marked (sound (loop_steps place start.now condition.now step.now (steps_of body.now) (names_of scope.old) (name_alone (out-LeftSide start.now.left)))) marks.old marks.new) }
    ensures kept { OnOk result (names_of scope.new ≡ names_of scope.old) }
{
    let LeftSide::Name(name) = &start.left else {
        marks.stop();
        return Ok(());
    };
    let value = start.value.get();
    let declared = scope.get(name.name.as_str());
    match declared {
        Some(
            Decl::Signal {
                width,
                is_signed,
                ..
            },
        ) => match constant_at(value, scope, width) {
            Err(_) => {
                marks.stop();
                Ok(())
            }
            Ok(first) => {
                let header = Header {
                    place,
                    name,
                    width,
                    is_signed,
                    condition,
                    step,
                };
                mark_turns(alloc, &header, body, first, scope, marks)
            }
        },
        Some(Decl::Constant { .. }) => {
            marks.stop();
            Ok(())
        }
        None => {
            marks.stop();
            Ok(())
        }
    }
}

/// Adds the marks of the turns of a loop whose variable has this value in the first one.
#[cycle(walk)]
fn mark_turns(
    alloc: Global,
    header: &Header<'_>,
    body: &Stmt,
    first: Word,
    scope: &mut Scope,
    marks: &mut Marks,
) -> Result<(), AllocError>
    requires sized { AreSized (names_of scope.old) }
    requires declared { IsSome (names_of scope.old header.now.name.now.name) }
    requires width { first.width ≡ header.now.width }
    ensures marked { OnOk result (Marked (sound (turns max_turns (loop_of header.now) (steps_of body.now) (names_of scope.old) first.bits)) marks.old marks.new) }
    ensures kept { OnOk result (names_of scope.new ≡ names_of scope.old) }
{
    let name = header.name.name.as_str();
    let declared = scope.replace(name, header.variable(first));
    mark_each_turn(alloc, header, body, first, scope, marks)?;
    scope.replace(name, declared);
    Ok(())
}

/// The same, where the loop's variable is declared as anything.
#[cycle(walk)]
fn mark_each_turn(
    alloc: Global,
    header: &Header<'_>,
    body: &Stmt,
    first: Word,
    scope: &mut Scope,
    marks: &mut Marks,
) -> Result<(), AllocError>
    requires sized { AreSized (names_of scope.old) }
    requires declared { IsSome (names_of scope.old header.now.name.now.name) }
    requires width { first.width ≡ header.now.width }
    ensures marked { OnOk result ((names : Names) → AlikeBut header.now.name.now.name (names_of scope.old) names → Marked (sound (turns max_turns (loop_of header.now) (steps_of body.now) names first.bits)) marks.old marks.new) }
    ensures kept { OnOk result (AlikeBut header.now.name.now.name (names_of scope.new) (names_of scope.old)) }
    ensures declared { OnOk result (IsSome (names_of scope.new header.now.name.now.name)) }
{
    let mut word = first;
    for turn in 0..MAX_TURNS {
        let after = mark_turn(alloc, header, body, word, scope, marks)?;
        match after {
            None => return Ok(()),
            Some(next) => word = next,
        }
    }
    scope.replace(header.name.name.as_str(), header.variable(word));
    mark_last_test(header.place, header.condition, scope, marks);
    Ok(())
}

/// Marks that a loop at this place is refused which has had all turns that it may have, where another one would come.
fn mark_last_test(place: Span, condition: &Expr, scope: &Scope, marks: &mut Marks)
    ensures { Marked (sound (last_steps place (names_of scope.now) condition.now)) marks.old marks.new }
{
    match holds(condition, scope) {
        Ok(false) => {}
        Ok(true) => marks.stop(),
        Err(_) => marks.stop(),
    }
}

/// Adds the marks of a turn in which the loop's variable has this value, and gives its value in the next one, if another comes.
#[cycle(walk)]
fn mark_turn(
    alloc: Global,
    header: &Header<'_>,
    body: &Stmt,
    word: Word,
    scope: &mut Scope,
    marks: &mut Marks,
) -> Result<Option<Word>, AllocError>
    requires sized { AreSized (names_of scope.old) }
    requires declared { IsSome (names_of scope.old header.now.name.now.name) }
    requires width { word.width ≡ header.now.width }
    ensures turn { IfOk result (λ t. IsMarkedTurn (loop_of header.now) (steps_of body.now) (with_name (names_of scope.old) header.now.name.now.name (Some (Constant word 0 header.now.is_signed))) t marks.old marks.new) }
    ensures kept { OnOk result (names_of scope.new ≡ with_name (names_of scope.old) header.now.name.now.name (Some (Constant word 0 header.now.is_signed))) }
{
    scope.replace(header.name.name.as_str(), header.variable(word));
    match holds(header.condition, scope) {
        Err(_) => {
            marks.stop();
            Ok(None)
        }
        Ok(false) => Ok(None),
        Ok(true) => {
            mark(alloc, body, scope, marks)?;
            match next_word(header, scope) {
                Err(_) => {
                    marks.stop();
                    Ok(None)
                }
                Ok(next) => Ok(Some(next)),
            }
        }
    }
}
