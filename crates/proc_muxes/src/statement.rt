//! Statements: those of a block, the parts of an `if` and the items of a case are built one after the other (IEEE 1364-2005, 9.4
//! to 9.6 and 9.8).
//!
//! The items of a case are opened in their order, and their muxes are made from the last one back. So calls nest as deep as
//! statements do, however many items there are. A loop is built turn by turn, with its variable as a constant of the scope. A scope
//! is lent to a statement, and given back as it was.
ghost use Rattle.std.specs.Prelude.{◌≡◌, ◌+◌, ◌<◌, ◌≤◌, ℕ, Some, List, map, take, length, IfOk, IfErr, IfSome, IsSome};
ghost use Rattle.std.specs.Option.{option_map};
ghost use Rattle.vlog_syntax.specs.declared.left_side.LeftSide.{out-LeftSide};
ghost use Rattle.vlog_meaning.specs.declared.scope.Decl.TheVariants.{Constant};
ghost use Rattle.vlog_meaning.specs.Operators.{IsSized};
ghost use Rattle.vlog_meaning.specs.Scopes.{names_of, with_name};
ghost use Rattle.vlog_effects.specs.Laws.{item_steps};
ghost use Rattle.vlog_effects.specs.Steps.{Selection, Steps, steps_of, in_turn, else_steps, case_steps, loop_steps, name_alone, turns, max_turns, done_by, labelled};
ghost use Rattle.net_builder.specs.Building.{AllBelow, HasSignals};
ghost use Rattle.net_builder.specs.Refusals.{IsShort};
ghost use Rattle.elab_proc.specs.Turns.{loop_of, turn_steps, AlikeBut};
ghost use Rattle.case_arms.specs.Arms.{item_body};
ghost use Rattle.case_arms.specs.Naming.{IsOf};
ghost use Rattle.proc_muxes.specs.Cases.{AreReadyItems, Opened};
ghost use Rattle.proc_muxes.specs.Clear.{IsReady};
ghost use Rattle.proc_muxes.specs.Counts.{cells_of, items_cells};
ghost use Rattle.proc_muxes.specs.Laid.{lay_steps};
ghost use Rattle.proc_muxes.specs.Shows.{StandsBelow};
ghost use Rattle.proc_muxes.specs.Turns.{AsksTurn, IsBuiltTurn};
ghost use Rattle.proc_muxes.specs.Working.{work, Built};

use crate::assignment::build_assignment;
use crate::change::Changes;
use crate::choice::{choose, set_aside};
use crate::condition::build_test;
use crate::matching::{Selector, build_match};
use crate::open_arms::{OpenArm, OpenArms};
use crate::variables::Variables;
use case_arms::arms_in;
use elab_expr::build_expr;
use elab_proc::{Header, MAX_TURNS, case_size, holds, is_default, next_word};
use mcy_base::{Span, Word};
use net_builder::{Builder, ElabError};
use vlog_meaning::{Decl, Scope, constant_at};
use vlog_syntax::{Assignment, Boxed, CaseItem, CaseKind, Expr, LeftSide, Stmt};

/// Adds the cells of a statement in which nothing is refused, and gives what it has changed. Where
/// there are too many cells, or there is no memory, the builder may hold a part of it and is only to be dropped.
#[cycle(statement)]
pub fn build_statement(
    builder: &mut Builder,
    variables: &mut Variables,
    scope: &mut Scope,
    stmt: &Stmt,
) -> Result<Changes, ElabError>
    requires ready { IsReady (names_of scope.old) (steps_of stmt.now (names_of scope.old)) (work builder.old variables.old) }
    requires places { length variables.old ≡ length builder.old.signals }
    ensures built { IfOk result (λ changes. Built (steps_of stmt.now (names_of scope.old)) (work builder.old variables.old) (work builder.new variables.new) changes) }
    ensures laid { IfOk result (λ changes. work builder.new variables.new ≡ lay_steps (steps_of stmt.now (names_of scope.old)) (work builder.old variables.old)) }
    ensures places { IfOk result (λ changes. length variables.new ≡ length builder.new.signals) }
    ensures kept { IfOk result (λ changes. names_of scope.new ≡ names_of scope.old) }
    ensures short { IfErr result (λ e. IsShort (length builder.old.cells + cells_of (steps_of stmt.now (names_of scope.old))) e) }
{
    match stmt {
        Stmt::Null(_) => Ok(Changes::new(builder.alloc())),
        Stmt::SeqBlock(_, _, body) => build_block(builder, variables, scope, body.as_slice()),
        Stmt::BlockingAssignment(assignment) => {
            build_assignment(builder, variables, scope, assignment, true)
        }
        Stmt::NonblockingAssignment(assignment) => {
            build_assignment(builder, variables, scope, assignment, false)
        }
        Stmt::Conditional(span, condition, yes, no) => {
            let condition = condition.get();
            let yes = yes.get();
            let test = build_test(builder, scope, condition)?;
            let changes = build_statement(builder, variables, scope, yes)?;
            let first = set_aside(builder, variables, changes.as_slice())?;
            let others = build_else(builder, variables, scope, no)?;
            Ok(choose(builder, variables, *span, &test, changes, first, others)?)
        }
        Stmt::Case(_, kind, selector, items) => {
            let selector = selector.get();
            build_case(builder, variables, scope, *kind, items.as_slice(), selector)
        }
        Stmt::For(span, start, condition, step, body) => {
            let test = condition.get();
            let turn = body.get();
            build_loop(builder, variables, scope, *span, start, test, step, turn)
        }
        // All others are refused.
        _ => unreachable!(),
    }
}

/// The same of statements that run one after the other.
#[cycle(statement)]
fn build_block(
    builder: &mut Builder,
    variables: &mut Variables,
    scope: &mut Scope,
    body: &[Stmt],
) -> Result<Changes, ElabError>
    requires ready { IsReady (names_of scope.old) (in_turn (map steps_of body.now) (names_of scope.old)) (work builder.old variables.old) }
    requires places { length variables.old ≡ length builder.old.signals }
    ensures built { IfOk result (λ changes. Built (in_turn (map steps_of body.now) (names_of scope.old)) (work builder.old variables.old) (work builder.new variables.new) changes) }
    ensures places { IfOk result (λ changes. length variables.new ≡ length builder.new.signals) }
    ensures kept { IfOk result (λ changes. names_of scope.new ≡ names_of scope.old) }
    ensures short { IfErr result (λ e. IsShort (length builder.old.cells + cells_of (in_turn (map steps_of body.now) (names_of scope.old))) e) }
{
    let mut changes = Changes::new(builder.alloc());
    for stmt in body {
        let more = build_statement(builder, variables, scope, stmt)?;
        changes.join(more)?;
    }
    Ok(changes)
}

/// The same of an else-part, which may be absent.
#[cycle(statement)]
fn build_else(
    builder: &mut Builder,
    variables: &mut Variables,
    scope: &mut Scope,
    no: &Option<Boxed<Stmt>>,
) -> Result<Changes, ElabError>
    requires ready { IsReady (names_of scope.old) (else_steps (option_map steps_of no.now) (names_of scope.old)) (work builder.old variables.old) }
    requires places { length variables.old ≡ length builder.old.signals }
    ensures built { IfOk result (λ changes. Built (else_steps (option_map steps_of no.now) (names_of scope.old)) (work builder.old variables.old) (work builder.new variables.new) changes) }
    ensures places { IfOk result (λ changes. length variables.new ≡ length builder.new.signals) }
    ensures kept { IfOk result (λ changes. names_of scope.new ≡ names_of scope.old) }
    ensures short { IfErr result (λ e. IsShort (length builder.old.cells + cells_of (else_steps (option_map steps_of no.now) (names_of scope.old))) e) }
{
    match no {
        Some(no) => build_statement(builder, variables, scope, no.get()),
        None => Ok(Changes::new(builder.alloc())),
    }
}

/// The same of a case (IEEE 1364-2005, 9.5): its selector, its arms, and what is done where none of them matches.
#[cycle(statement)]
fn build_case(
    builder: &mut Builder,
    variables: &mut Variables,
    scope: &mut Scope,
    kind: CaseKind,
    items: &[CaseItem],
    selector: &Expr,
) -> Result<Changes, ElabError>
    requires ready { IsReady (names_of scope.old) (case_steps kind selector.now (map item_steps items.now) (names_of scope.old)) (work builder.old variables.old) }
    requires places { length variables.old ≡ length builder.old.signals }
    ensures built { IfOk result (λ changes. Built (case_steps kind selector.now (map item_steps items.now) (names_of scope.old)) (work builder.old variables.old) (work builder.new variables.new) changes) }
    ensures places { IfOk result (λ changes. length variables.new ≡ length builder.new.signals) }
    ensures kept { IfOk result (λ changes. names_of scope.new ≡ names_of scope.old) }
    ensures short { IfErr result (λ e. IsShort (length builder.old.cells + cells_of (case_steps kind selector.now (map item_steps items.now) (names_of scope.old))) e) }
{
    let chosen = arms_in(builder.alloc(), kind, selector, items, scope)?;
    let size = case_size(selector, items, scope);
    let bits = build_expr(builder, selector, scope, size.width, size.is_signed)?;
    let selected = Selector { kind, size, bits };
    let mut arms = build_arms(builder, variables, scope, &selected, items, chosen.before)?;
    let mut changes = build_last(builder, variables, scope, items, chosen.last)?;
    while let Some(arm) = arms.pop() {
        let OpenArm {
            at,
            test,
            changes: own,
            first,
        } = arm;
        changes = choose(builder, variables, at, &test, own, first, changes)?;
    }
    Ok(changes)
}

/// Opens the arms of the items with labels before a place.
#[cycle(statement)]
fn build_arms(
    builder: &mut Builder,
    variables: &mut Variables,
    scope: &mut Scope,
    selector: &Selector,
    items: &[CaseItem],
    before: usize,
) -> Result<OpenArms, ElabError>
    requires sized { IsSized selector.now.size }
    requires long { length selector.now.bits ≡ selector.now.size.width }
    requires below { AllBelow builder.old.nets selector.now.bits }
    requires within { before ≤ length items.now }
    requires ready { AreReadyItems (names_of scope.old) selector.now.size (take before items.now) (work builder.old variables.old) }
    requires signals { HasSignals (names_of scope.old) builder.old }
    requires stands { StandsBelow (work builder.old variables.old) }
    requires places { length variables.old ≡ length builder.old.signals }
    ensures opened { IfOk result (λ arms. (c : Selection) → IsOf c (names_of scope.old) selector.now.kind selector.now.size → Opened c selector.now.bits (labelled (map item_steps (take before items.now))) arms (work builder.old variables.old) (work builder.new variables.new)) }
    ensures places { IfOk result (λ arms. length variables.new ≡ length builder.new.signals) }
    ensures kept { IfOk result (λ arms. names_of scope.new ≡ names_of scope.old) }
    ensures short { IfErr result (λ e. (c : Selection) → IsOf c (names_of scope.old) selector.now.kind selector.now.size → IsShort (length builder.old.cells + items_cells c (labelled (map item_steps (take before items.now)))) e) }
{
    let mut arms = OpenArms::new(builder.alloc());
    for place in 0..before {
        let item = &items[place];
        if is_default(item) {
            continue;
        }
        let labels = item.labels.as_slice();
        let test = build_match(builder, scope, selector, labels)?;
        let body = item.body.get();
        let changes = build_statement(builder, variables, scope, body)?;
        let changed = changes.as_slice();
        let first = set_aside(builder, variables, changed)?;
        arms.push(OpenArm {
            at: item.span,
            test,
            changes,
            first,
        })?;
    }
    Ok(arms)
}

/// Builds the item at a place, if there is one.
#[cycle(statement)]
fn build_last(
    builder: &mut Builder,
    variables: &mut Variables,
    scope: &mut Scope,
    items: &[CaseItem],
    place: Option<usize>,
) -> Result<Changes, ElabError>
    requires within { IfSome place (λ k. k < length items.now) }
    requires ready { IsReady (names_of scope.old) (done_by (option_map (item_body items.now) place) (names_of scope.old)) (work builder.old variables.old) }
    requires places { length variables.old ≡ length builder.old.signals }
    ensures built { IfOk result (λ changes. Built (done_by (option_map (item_body items.now) place) (names_of scope.old)) (work builder.old variables.old) (work builder.new variables.new) changes) }
    ensures places { IfOk result (λ changes. length variables.new ≡ length builder.new.signals) }
    ensures kept { IfOk result (λ changes. names_of scope.new ≡ names_of scope.old) }
    ensures short { IfErr result (λ e. IsShort (length builder.old.cells + cells_of (done_by (option_map (item_body items.now) place) (names_of scope.old))) e) }
{
    match place {
        Some(place) => {
            let item = &items[place];
            let body = item.body.get();
            build_statement(builder, variables, scope, body)
        }
        None => Ok(Changes::new(builder.alloc())),
    }
}

/// A turn of a loop: what its body has changed, and the value of the loop's variable in the next one.
#[derive(Drop)]
pub(crate) struct Turn {
    pub changes: Changes,
    pub next: Word,
}

/// The same of a loop (IEEE 1364-2005, 9.6): its turns, in which its variable is a constant.
#[cycle(statement)]
fn build_loop(
    builder: &mut Builder,
    variables: &mut Variables,
    scope: &mut Scope,
    place: Span,
    start: &Assignment,
    condition: &Expr,
    step: &Assignment,
    body: &Stmt,
) -> Result<Changes, ElabError>
    requires ready { IsReady (names_of scope.old) (loop_steps place start.now condition.now step.now (steps_of body.now) (names_of scope.old) (name_alone (out-LeftSide start.now.left))) (work builder.old variables.old) }
    requires places { length variables.old ≡ length builder.old.signals }
    ensures built { IfOk result (λ changes. Built (loop_steps place start.now condition.now step.now (steps_of body.now) (names_of scope.old) (name_alone (out-LeftSide start.now.left))) (work builder.old variables.old) (work builder.new variables.new) changes) }
    ensures places { IfOk result (λ changes. length variables.new ≡ length builder.new.signals) }
    ensures kept { IfOk result (λ changes. names_of scope.new ≡ names_of scope.old) }
    ensures short { IfErr result (λ e. IsShort (length builder.old.cells + cells_of (loop_steps place start.now condition.now step.now (steps_of body.now) (names_of scope.old) (name_alone (out-LeftSide start.now.left)))) e) }
{
    let LeftSide::Name(name) = &start.left else {
        unreachable!()
    };
    let value = start.value.get();
    let declared = scope.get(name.name.as_str());
    match declared {
        Some(
            Decl::Signal {
                width,
                is_signed,
                ..
            },
        ) => match constant_at(value, scope, width) {
            Err(_) => unreachable!(),
            Ok(first) => {
                let header = Header {
                    place,
                    name,
                    width,
                    is_signed,
                    condition,
                    step,
                };
                build_turns(builder, variables, scope, &header, body, first)
            }
        },
        Some(Decl::Constant { .. }) => unreachable!(),
        None => unreachable!(),
    }
}

/// The turns of a loop whose variable has this value in the first one. The scope is given back as it was.
#[cycle(statement)]
fn build_turns(
    builder: &mut Builder,
    variables: &mut Variables,
    scope: &mut Scope,
    header: &Header<'_>,
    body: &Stmt,
    first: Word,
) -> Result<Changes, ElabError>
    requires declared { IsSome (names_of scope.old header.now.name.now.name) }
    requires width { first.width ≡ header.now.width }
    requires ready { IsReady (names_of scope.old) (turns max_turns (loop_of header.now) (steps_of body.now) (names_of scope.old) first.bits) (work builder.old variables.old) }
    requires places { length variables.old ≡ length builder.old.signals }
    ensures built { IfOk result (λ changes. Built (turns max_turns (loop_of header.now) (steps_of body.now) (names_of scope.old) first.bits) (work builder.old variables.old) (work builder.new variables.new) changes) }
    ensures places { IfOk result (λ changes. length variables.new ≡ length builder.new.signals) }
    ensures kept { IfOk result (λ changes. names_of scope.new ≡ names_of scope.old) }
    ensures short { IfErr result (λ e. IsShort (length builder.old.cells + cells_of (turns max_turns (loop_of header.now) (steps_of body.now) (names_of scope.old) first.bits)) e) }
{
    let name = header.name.name.as_str();
    let declared = scope.replace(name, header.variable(first));
    let changes = build_each_turn(builder, variables, scope, header, body, first)?;
    scope.replace(name, declared);
    Ok(changes)
}

/// The same, where the loop's variable is declared as anything. After as many turns as a loop may have none comes, since it would be
/// refused.
#[cycle(statement)]
fn build_each_turn(
    builder: &mut Builder,
    variables: &mut Variables,
    scope: &mut Scope,
    header: &Header<'_>,
    body: &Stmt,
    first: Word,
) -> Result<Changes, ElabError>
    requires declared { IsSome (names_of scope.old header.now.name.now.name) }
    requires width { first.width ≡ header.now.width }
    requires ready { IsReady (names_of scope.old) (turns max_turns (loop_of header.now) (steps_of body.now) (names_of scope.old) first.bits) (work builder.old variables.old) }
    requires places { length variables.old ≡ length builder.old.signals }
    ensures built { IfOk result (λ changes. Built (turns max_turns (loop_of header.now) (steps_of body.now) (names_of scope.old) first.bits) (work builder.old variables.old) (work builder.new variables.new) changes) }
    ensures places { IfOk result (λ changes. length variables.new ≡ length builder.new.signals) }
    ensures kept { IfOk result (λ changes. AlikeBut header.now.name.now.name (names_of scope.new) (names_of scope.old)) }
    ensures declared { IfOk result (λ changes. IsSome (names_of scope.new header.now.name.now.name)) }
    ensures short { IfErr result (λ e. IsShort (length builder.old.cells + cells_of (turns max_turns (loop_of header.now) (steps_of body.now) (names_of scope.old) first.bits)) e) }
{
    let mut changes = Changes::new(builder.alloc());
    let mut word = first;
    for turn in 0..MAX_TURNS {
        let after = build_turn(builder, variables, scope, header, body, word)?;
        match after {
            None => return Ok(changes),
            Some(turn) => {
                let Turn {
                    changes: more,
                    next,
                } = turn;
                changes.join(more)?;
                word = next;
            }
        }
    }
    Ok(changes)
}

/// A turn in which the loop's variable has this value, if it comes.
#[cycle(statement)]
fn build_turn(
    builder: &mut Builder,
    variables: &mut Variables,
    scope: &mut Scope,
    header: &Header<'_>,
    body: &Stmt,
    word: Word,
) -> Result<Option<Turn>, ElabError>
    requires declared { IsSome (names_of scope.old header.now.name.now.name) }
    requires width { word.width ≡ header.now.width }
    requires ready { AsksTurn (loop_of header.now) (steps_of body.now) (with_name (names_of scope.old) header.now.name.now.name (Some (Constant word 0 header.now.is_signed))) (work builder.old variables.old) }
    requires places { length variables.old ≡ length builder.old.signals }
    ensures turn { IfOk result (λ t. IsBuiltTurn (loop_of header.now) (steps_of body.now) (with_name (names_of scope.old) header.now.name.now.name (Some (Constant word 0 header.now.is_signed))) t (work builder.old variables.old) (work builder.new variables.new)) }
    ensures places { IfOk result (λ t. length variables.new ≡ length builder.new.signals) }
    ensures kept { IfOk result (λ t. names_of scope.new ≡ with_name (names_of scope.old) header.now.name.now.name (Some (Constant word 0 header.now.is_signed))) }
    ensures short { IfErr result (λ e. (v : ℕ → Steps) → IsShort (length builder.old.cells + cells_of (turn_steps (loop_of header.now) (steps_of body.now) (with_name (names_of scope.old) header.now.name.now.name (Some (Constant word 0 header.now.is_signed))) v)) e) }
{
    scope.replace(header.name.name.as_str(), header.variable(word));
    match holds(header.condition, scope) {
        Err(_) => unreachable!(),
        Ok(false) => Ok(None),
        Ok(true) => {
            let changes = build_statement(builder, variables, scope, body)?;
            match next_word(header, scope) {
                Err(_) => unreachable!(),
                Ok(next) => Ok(Some(Turn { changes, next })),
            }
        }
    }
}
