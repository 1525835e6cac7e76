//! What is refused in statements: each is looked at in the scope that it sees.
//!
//! A scope is lent to a statement, and given back as it was: in the turns of a loop its variable is a constant, and after
//! the loop it is declared as before.
ghost use Rattle.std.specs.Prelude.{◌≡◌, ◌≤◌, map, Some, IfOk, OnOk, IsSome};
ghost use Rattle.std.specs.List.{flat_map};
ghost use Rattle.vlog_syntax.specs.declared.stmt.Stmt.{Stmt as Statement};
ghost use Rattle.vlog_syntax.specs.declared.stmt.CaseItem.{CaseItem as Item};
ghost use Rattle.vlog_syntax.specs.declared.left_side.LeftSide.{out-LeftSide};
ghost use Rattle.vlog_meaning.specs.declared.scope.Decl.TheVariants.{Constant};
ghost use Rattle.vlog_meaning.specs.Scopes.{Names, names_of, with_name};
ghost use Rattle.vlog_effects.specs.Laws.{item_steps};
ghost use Rattle.vlog_effects.specs.Steps.{Selection, assigning, steps_of, done_by, default_of, labelled, arms_of, case_steps, loop_steps, name_alone, turns, max_turns};
ghost use Rattle.elab_proc.specs.Order.{IsFirst};
ghost use Rattle.elab_proc.specs.Refusals.{step_refusals, arm_refusals, assign_refusals, kind_refusals, body_in, AreSized};
ghost use Rattle.elab_proc.specs.Turns.{loop_of, IsTurn, AlikeBut};

use crate::cases::{always, case_fault, case_size, is_default};
use crate::left_side::{names_refusal, same_form};
use crate::refusal::{Refusal, earlier, wrong};
use crate::sides::{Cells, own_fault};
use crate::turns::{Header, Turn, holds, last_test, next_word, of_const};
use mcy_base::{Span, Word};
use std::alloc::{AllocError, Global};
use vlog_meaning::{Cause, Decl, Fault, Scope, constant_at};
use vlog_refusals::sides_fault;
use vlog_syntax::{Assignment, Boxed, CaseItem, CaseKind, Expr, Feature, LeftSide, Stmt};

/// On what the refusals of statements rest besides their scope: the kind of the process, and which signals have a writer
/// outside it, by their numbers. A signal past the end has none.
#[derive(Drop)]
pub struct ProcessRules<'a> {
    pub alloc: Global,
    pub is_combinational: bool,
    pub written: &'a [bool],
}

/// The most turns of one loop.
pub const MAX_TURNS: u32 = 4096;

/// A nonblocking assignment in a combinational process.
fn kind_refusal(is_combinational: bool, is_blocking: bool, span: Span) -> Option<Refusal>
    ensures { IsFirst (kind_refusals is_combinational is_blocking span) result }
{
    if is_combinational && !is_blocking {
        Some(Refusal::Unsupported(span, Feature::NonblockingInComb))
    } else {
        None
    }
}

/// What is refused first in an assignment.
fn assignment_refusal(
    walk: &ProcessRules<'_>,
    assignment: &Assignment,
    is_blocking: bool,
    scope: &Scope,
) -> Result<Option<Refusal>, AllocError>
    ensures { IfOk result (λ o. IsFirst (assign_refusals walk.now.is_combinational walk.now.written.now (assigning is_blocking assignment.now (names_of scope.now))) o) }
{
    let left = same_form(walk.alloc, &assignment.left)?;
    let sides = wrong(sides_fault(Cells, &left, assignment.value.get(), scope));
    let names = names_refusal(&assignment.left, scope, walk.written);
    let kind = kind_refusal(walk.is_combinational, is_blocking, assignment.span);
    Ok(earlier(sides, earlier(names, kind)))
}

/// What is refused first in a statement of a process, by its place, if anything is: in its expressions and left sides, loops
/// and cases (IEEE 1364-2005, 9.2 to 9.6). The scope has signals of 1 to 128 bits, and is given back as it was; where there
/// is no memory, it is only to be dropped.
#[cycle(walk)]
pub fn statement_refusal(
    walk: &ProcessRules<'_>,
    stmt: &Stmt,
    scope: &mut Scope,
) -> Result<Option<Refusal>, AllocError>
    requires { AreSized (names_of scope.old) }
    ensures first { IfOk result (λ o. IsFirst (step_refusals walk.now.is_combinational walk.now.written.now (steps_of stmt.now (names_of scope.old))) o) }
    ensures kept { OnOk result (names_of scope.new ≡ names_of scope.old) }
{
    match stmt {
        Stmt::Null(_) => Ok(None),
        Stmt::SeqBlock(_, _, body) => block_refusal(walk, body.as_slice(), scope),
        Stmt::Conditional(_, condition, yes, no) => {
            let condition = condition.get();
            let body = yes.get();
            let test = wrong(own_fault(condition, scope));
            let first = statement_refusal(walk, body, scope)?;
            let found = earlier(test, first);
            match no {
                Some(no) => {
                    let other = no.get();
                    let second = statement_refusal(walk, other, scope)?;
                    Ok(earlier(found, second))
                }
                None => Ok(found),
            }
        }
        Stmt::Case(_, kind, selector, items) => {
            case_refusal(walk, *kind, items.as_slice(), selector.get(), scope)
        }
        Stmt::For(span, start, condition, step, body) => {
            loop_refusal(walk, *span, start, condition.get(), step, body.get(), scope)
        }
        Stmt::While(span, ..)
        | Stmt::Repeat(span, ..)
        | Stmt::Forever(span, _)
        | Stmt::EventControl(span, ..)
        | Stmt::DelayControl(span, ..) => Ok(Some(Refusal::Unsupported(*span, Feature::Delay))),
        Stmt::SystemTaskEnable(name, _) => {
            Ok(Some(Refusal::Unsupported(name.span, Feature::SystemTask)))
        }
        Stmt::BlockingAssignment(assignment) => assignment_refusal(walk, assignment, true, scope),
        Stmt::NonblockingAssignment(assignment) => {
            assignment_refusal(walk, assignment, false, scope)
        }
    }
}

/// What is refused first in the statements of a block.
#[cycle(walk)]
fn block_refusal(
    walk: &ProcessRules<'_>,
    body: &[Stmt],
    scope: &mut Scope,
) -> Result<Option<Refusal>, AllocError>
    requires { AreSized (names_of scope.old) }
    ensures first { IfOk result (λ o. IsFirst (flat_map (λ (s : Statement). step_refusals walk.now.is_combinational walk.now.written.now (steps_of s (names_of scope.old))) body.now) o) }
    ensures kept { OnOk result (names_of scope.new ≡ names_of scope.old) }
{
    let mut found = None;
    for stmt in body {
        found = earlier(found, statement_refusal(walk, stmt, scope)?);
    }
    Ok(found)
}

/// What is refused first in a case: where its selector or a label is, all its items are looked at, and else those that are not dropped.
#[cycle(walk)]
fn case_refusal(
    walk: &ProcessRules<'_>,
    kind: CaseKind,
    items: &[CaseItem],
    selector: &Expr,
    scope: &mut Scope,
) -> Result<Option<Refusal>, AllocError>
    requires { AreSized (names_of scope.old) }
    ensures first { IfOk result (λ o. IsFirst (step_refusals walk.now.is_combinational walk.now.written.now (case_steps kind selector.now (map item_steps items.now) (names_of scope.old))) o) }
    ensures kept { OnOk result (names_of scope.new ≡ names_of scope.old) }
{
    match case_fault(selector, items, scope) {
        Some(fault) => {
            let found = bodies_refusal(walk, items, scope)?;
            Ok(earlier(Some(Refusal::Wrong(fault)), found))
        }
        None => {
            let size = case_size(selector, items, scope);
            items_refusal(walk, kind, size.width, items, scope)
        }
    }
}

/// What is refused first in the bodies of all items of a case.
#[cycle(walk)]
fn bodies_refusal(
    walk: &ProcessRules<'_>,
    items: &[CaseItem],
    scope: &mut Scope,
) -> Result<Option<Refusal>, AllocError>
    requires { AreSized (names_of scope.old) }
    ensures first { IfOk result (λ o. IsFirst (flat_map (λ (i : Item). step_refusals walk.now.is_combinational walk.now.written.now (steps_of (body_in i) (names_of scope.old))) items.now) o) }
    ensures kept { OnOk result (names_of scope.new ≡ names_of scope.old) }
{
    let mut found = None;
    for item in items {
        found = earlier(found, statement_refusal(walk, item.body.get(), scope)?);
    }
    Ok(found)
}

/// What is refused first in the items of a case with a selector of this width, up to one that always matches.
#[cycle(walk)]
fn items_refusal(
    walk: &ProcessRules<'_>,
    kind: CaseKind,
    width: u8,
    items: &[CaseItem],
    scope: &mut Scope,
) -> Result<Option<Refusal>, AllocError>
    requires narrow { width ≤ 128 }
    requires sized { AreSized (names_of scope.old) }
    ensures first { IfOk result (λ o. (c : Selection) → c.kind ≡ kind → c.width ≡ width → c.names ≡ names_of scope.old → IsFirst (arm_refusals walk.now.is_combinational walk.now.written.now (arms_of c (labelled (map item_steps items.now)) (default_of (map item_steps items.now)))) o) }
    ensures kept { OnOk result (names_of scope.new ≡ names_of scope.old) }
{
    let mut found = None;
    for item in items {
        if is_default(item) {
            continue;
        }
        found = earlier(found, statement_refusal(walk, item.body.get(), scope)?);
        if always(kind, width, item.labels.as_slice()) {
            return Ok(found);
        }
    }
    let default = default_refusal(walk, items, scope)?;
    Ok(earlier(found, default))
}

/// What is refused first in the first item without labels, if there is one.
#[cycle(walk)]
fn default_refusal(
    walk: &ProcessRules<'_>,
    items: &[CaseItem],
    scope: &mut Scope,
) -> Result<Option<Refusal>, AllocError>
    requires { AreSized (names_of scope.old) }
    ensures first { IfOk result (λ o. IsFirst (step_refusals walk.now.is_combinational walk.now.written.now (done_by (default_of (map item_steps items.now)) (names_of scope.old))) o) }
    ensures kept { OnOk result (names_of scope.new ≡ names_of scope.old) }
{
    for item in items {
        if is_default(item) {
            return statement_refusal(walk, item.body.get(), scope);
        }
    }
    Ok(None)
}

/// What is refused first in a loop with its `for` at this place.
#[cycle(walk)]
fn loop_refusal(
    walk: &ProcessRules<'_>,
    place: Span,
    start: &Assignment,
    condition: &Expr,
    step: &Assignment,
    body: &Stmt,
    scope: &mut Scope,
) -> Result<Option<Refusal>, AllocError>
    requires { AreSized (names_of scope.old) }
    ensures first { IfOk result (λ o. IsFirst (step_refusals walk.now.is_combinational walk.now.written.now (loop_steps place start.now condition.now step.now (steps_of body.now) (names_of scope.old) (name_alone (out-LeftSide start.now.left)))) o) }
    ensures kept { OnOk result (names_of scope.new ≡ names_of scope.old) }
{
    let LeftSide::Name(name) = &start.left else {
        return Ok(Some(Refusal::Wrong(Fault {
            cause: Cause::NotConstant,
            span: start.left.first_token(),
        })));
    };
    let value = start.value.get();
    let declared = scope.get(name.name.as_str());
    match declared {
        Some(
            Decl::Signal {
                width,
                is_signed,
                ..
            },
        ) => match constant_at(value, scope, width) {
            Err(error) => Ok(Some(of_const(error))),
            Ok(first) => {
                let header = Header {
                    place,
                    name,
                    width,
                    is_signed,
                    condition,
                    step,
                };
                turns_refusal(walk, &header, body, first, scope)
            }
        },
        Some(Decl::Constant { .. }) | None => Ok(Some(Refusal::Wrong(Fault {
            cause: Cause::Unknown,
            span: name.span,
        }))),
    }
}

/// What is refused first in the turns of a loop whose variable has this value in the first one.
#[cycle(walk)]
fn turns_refusal(
    walk: &ProcessRules<'_>,
    header: &Header<'_>,
    body: &Stmt,
    first: Word,
    scope: &mut Scope,
) -> Result<Option<Refusal>, AllocError>
    requires sized { AreSized (names_of scope.old) }
    requires declared { IsSome (names_of scope.old header.now.name.now.name) }
    requires width { first.width ≡ header.now.width }
    ensures first { IfOk result (λ o. IsFirst (step_refusals walk.now.is_combinational walk.now.written.now (turns max_turns (loop_of header.now) (steps_of body.now) (names_of scope.old) first.bits)) o) }
    ensures kept { OnOk result (names_of scope.new ≡ names_of scope.old) }
{
    let name = header.name.name.as_str();
    let declared = scope.replace(name, header.variable(first));
    let found = each_turn_refusal(walk, header, body, first, scope)?;
    scope.replace(name, declared);
    Ok(found)
}

/// The same, where the loop's variable is declared as anything.
#[cycle(walk)]
fn each_turn_refusal(
    walk: &ProcessRules<'_>,
    header: &Header<'_>,
    body: &Stmt,
    first: Word,
    scope: &mut Scope,
) -> Result<Option<Refusal>, AllocError>
    requires sized { AreSized (names_of scope.old) }
    requires declared { IsSome (names_of scope.old header.now.name.now.name) }
    requires width { first.width ≡ header.now.width }
    ensures first { IfOk result (λ o. (names : Names) → AlikeBut header.now.name.now.name (names_of scope.old) names → IsFirst (step_refusals walk.now.is_combinational walk.now.written.now (turns max_turns (loop_of header.now) (steps_of body.now) names first.bits)) o) }
    ensures kept { OnOk result (AlikeBut header.now.name.now.name (names_of scope.new) (names_of scope.old)) }
    ensures declared { OnOk result (IsSome (names_of scope.new header.now.name.now.name)) }
{
    let mut found = None;
    let mut word = first;
    for turn in 0..MAX_TURNS {
        let answer = turn_refusal(walk, header, body, word, scope)?;
        match answer {
            Turn::Ends(last) => return Ok(earlier(found, last)),
            Turn::GoesOn(refusal, next) => {
                found = earlier(found, refusal);
                word = next;
            }
        }
    }
    scope.replace(header.name.name.as_str(), header.variable(word));
    Ok(earlier(found, last_test(header.place, header.condition, scope)))
}

/// What is refused first in a turn in which the loop's variable has this value.
#[cycle(walk)]
fn turn_refusal(
    walk: &ProcessRules<'_>,
    header: &Header<'_>,
    body: &Stmt,
    word: Word,
    scope: &mut Scope,
) -> Result<Turn, AllocError>
    requires sized { AreSized (names_of scope.old) }
    requires declared { IsSome (names_of scope.old header.now.name.now.name) }
    requires width { word.width ≡ header.now.width }
    ensures turn { IfOk result (λ t. IsTurn walk.now.is_combinational walk.now.written.now (loop_of header.now) (steps_of body.now) (with_name (names_of scope.old) header.now.name.now.name (Some (Constant word 0 header.now.is_signed))) t) }
    ensures kept { OnOk result (names_of scope.new ≡ with_name (names_of scope.old) header.now.name.now.name (Some (Constant word 0 header.now.is_signed))) }
{
    scope.replace(header.name.name.as_str(), header.variable(word));
    match holds(header.condition, scope) {
        Err(error) => Ok(Turn::Ends(Some(of_const(error)))),
        Ok(false) => Ok(Turn::Ends(None)),
        Ok(true) => {
            let found = statement_refusal(walk, body, scope)?;
            match next_word(header, scope) {
                Err(refusal) => Ok(Turn::Ends(earlier(found, Some(refusal)))),
                Ok(next) => Ok(Turn::GoesOn(found, next)),
            }
        }
    }
}
