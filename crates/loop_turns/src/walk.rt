//! The turns of statements, taken from those that are left.
//!
//! A scope is lent to a statement, and given back as it was: a loop's variable is a constant in its turns.
ghost use Rattle.std.specs.Prelude.{◌≡◌, ◌≤◌, ◌+◌, ℕ, Some, IsSome, map};
ghost use Rattle.vlog_syntax.specs.declared.left_side.LeftSide.{out-LeftSide};
ghost use Rattle.vlog_meaning.specs.declared.scope.Decl.TheVariants.{Constant};
ghost use Rattle.vlog_meaning.specs.Scopes.{Names, names_of, with_name};
ghost use Rattle.vlog_effects.specs.Steps.{max_turns, name_alone};
ghost use Rattle.elab_proc.specs.Refusals.{AreSized};
ghost use Rattle.elab_proc.specs.Turns.{loop_of, AlikeBut};
ghost use Rattle.loop_turns.specs.Counts.{IsLeft, IsTaken, IsTurn, item_turns, loop_turns, summed, turns, turns_of};

use elab_proc::{Header, MAX_TURNS, holds, next_word};
use mcy_base::{Span, Word};
use vlog_meaning::{Decl, Scope, constant_at};
use vlog_syntax::{Assignment, CaseItem, Expr, LeftSide, Stmt};

/// What is left after a turn, and whether another one comes.
#[derive(Clone, Copy)]
pub(crate) enum Turn {
    /// There are more turns than were left.
    Passes,
    /// It is the last one.
    Ends(u32),
    /// Another one comes, in which the loop's variable has this value.
    GoesOn(u32, Word),
}

/// What is left of so many turns after those of a statement; none where its loops take more. The scope has signals of 1 to 128 bits,
/// and is given back as it was.
#[cycle(count)]
pub(crate) fn statement_left(stmt: &Stmt, scope: &mut Scope, left: u32) -> Option<u32>
    requires { AreSized (names_of scope.old) }
    ensures left { IsLeft (turns_of stmt.now (names_of scope.old)) left result }
    ensures kept { names_of scope.new ≡ names_of scope.old }
{
    match stmt {
        Stmt::SeqBlock(_, _, body) => block_left(body.as_slice(), scope, left),
        Stmt::Conditional(_, _, yes, no) => {
            let rest = statement_left(yes.get(), scope, left);
            match no {
                Some(no) => then_left(rest, no.get(), scope),
                None => rest,
            }
        }
        Stmt::Case(_, _, _, items) => items_left(items.as_slice(), scope, left),
        Stmt::For(place, start, condition, step, body) => {
            loop_left(
                *place,
                start,
                condition.get(),
                step,
                body.get(),
                scope,
                left,
            )
        }
        Stmt::Null(_) => Some(left),
        Stmt::While(..) => Some(left),
        Stmt::Repeat(..) => Some(left),
        Stmt::Forever(..) => Some(left),
        Stmt::EventControl(..) => Some(left),
        Stmt::DelayControl(..) => Some(left),
        Stmt::SystemTaskEnable(..) => Some(left),
        Stmt::BlockingAssignment(_) => Some(left),
        Stmt::NonblockingAssignment(_) => Some(left),
    }
}

/// What is left after a statement, where so many are left before it.
#[cycle(count)]
fn then_left(rest: Option<u32>, stmt: &Stmt, scope: &mut Scope) -> Option<u32>
    requires { AreSized (names_of scope.old) }
    ensures left { (before left : ℕ) → IsLeft before left rest → IsLeft (before + turns_of stmt.now (names_of scope.old)) left result }
    ensures kept { names_of scope.new ≡ names_of scope.old }
{
    match rest {
        None => None,
        Some(rest) => statement_left(stmt, scope, rest),
    }
}

/// What is left after the statements of a block.
#[cycle(count)]
fn block_left(body: &[Stmt], scope: &mut Scope, left: u32) -> Option<u32>
    requires { AreSized (names_of scope.old) }
    ensures left { IsLeft (summed (map turns_of body.now) (names_of scope.old)) left result }
    ensures kept { names_of scope.new ≡ names_of scope.old }
{
    let mut rest = left;
    for stmt in body {
        match statement_left(stmt, scope, rest) {
            None => return None,
            Some(after) => rest = after,
        }
    }
    Some(rest)
}

/// What is left after the items of a case.
#[cycle(count)]
fn items_left(items: &[CaseItem], scope: &mut Scope, left: u32) -> Option<u32>
    requires { AreSized (names_of scope.old) }
    ensures left { IsLeft (summed (map item_turns items.now) (names_of scope.old)) left result }
    ensures kept { names_of scope.new ≡ names_of scope.old }
{
    let mut rest = left;
    for item in items {
        match statement_left(item.body.get(), scope, rest) {
            None => return None,
            Some(after) => rest = after,
        }
    }
    Some(rest)
}

/// What is left after a loop with its `for` at this place.
#[cycle(count)]
fn loop_left(
    place: Span,
    start: &Assignment,
    condition: &Expr,
    step: &Assignment,
    body: &Stmt,
    scope: &mut Scope,
    left: u32,
) -> Option<u32>
    requires { AreSized (names_of scope.old) }
    ensures left { IsLeft (loop_turns place start.now condition.now step.now (turns_of body.now) (names_of scope.old) (name_alone (out-LeftSide start.now.left))) left result }
    ensures kept { names_of scope.new ≡ names_of scope.old }
{
    let LeftSide::Name(name) = &start.left else {
        return Some(left);
    };
    let value = start.value.get();
    let declared = scope.get(name.name.as_str());
    match declared {
        Some(
            Decl::Signal {
                width,
                is_signed,
                ..
            },
        ) => match constant_at(value, scope, width) {
            Err(_) => Some(left),
            Ok(first) => {
                let header = Header {
                    place,
                    name,
                    width,
                    is_signed,
                    condition,
                    step,
                };
                turns_left(&header, body, first, scope, left)
            }
        },
        Some(Decl::Constant { .. }) => Some(left),
        None => Some(left),
    }
}

/// What is left after the turns of a loop whose variable has this value in the first one.
#[cycle(count)]
fn turns_left(
    header: &Header<'_>,
    body: &Stmt,
    first: Word,
    scope: &mut Scope,
    left: u32,
) -> Option<u32>
    requires sized { AreSized (names_of scope.old) }
    requires declared { IsSome (names_of scope.old header.now.name.now.name) }
    requires width { first.width ≡ header.now.width }
    ensures left { IsLeft (turns max_turns (loop_of header.now) (turns_of body.now) (names_of scope.old) first.bits) left result }
    ensures kept { names_of scope.new ≡ names_of scope.old }
{
    let name = header.name.name.as_str();
    let declared = scope.replace(name, header.variable(first));
    let rest = each_turn_left(header, body, first, scope, left);
    scope.replace(name, declared);
    rest
}

/// The same, where the loop's variable is declared as anything.
#[cycle(count)]
fn each_turn_left(
    header: &Header<'_>,
    body: &Stmt,
    first: Word,
    scope: &mut Scope,
    left: u32,
) -> Option<u32>
    requires sized { AreSized (names_of scope.old) }
    requires declared { IsSome (names_of scope.old header.now.name.now.name) }
    requires width { first.width ≡ header.now.width }
    ensures left { (names : Names) → AlikeBut header.now.name.now.name (names_of scope.old) names → IsLeft (turns max_turns (loop_of header.now) (turns_of body.now) names first.bits) left result }
    ensures kept { AlikeBut header.now.name.now.name (names_of scope.new) (names_of scope.old) }
    ensures declared { IsSome (names_of scope.new header.now.name.now.name) }
{
    let mut rest = left;
    let mut word = first;
    for turn in 0..MAX_TURNS {
        match turn_left(header, body, word, scope, rest) {
            Turn::Passes => return None,
            Turn::Ends(last) => return Some(last),
            Turn::GoesOn(after, next) => {
                rest = after;
                word = next;
            }
        }
    }
    Some(rest)
}

/// What is left after a turn in which the loop's variable has this value.
#[cycle(count)]
fn turn_left(header: &Header<'_>, body: &Stmt, word: Word, scope: &mut Scope, left: u32) -> Turn
    requires sized { AreSized (names_of scope.old) }
    requires declared { IsSome (names_of scope.old header.now.name.now.name) }
    requires width { word.width ≡ header.now.width }
    ensures turn { IsTurn (loop_of header.now) (turns_of body.now) (with_name (names_of scope.old) header.now.name.now.name (Some (Constant word 0 header.now.is_signed))) left result }
    ensures kept { names_of scope.new ≡ with_name (names_of scope.old) header.now.name.now.name (Some (Constant word 0 header.now.is_signed)) }
{
    scope.replace(header.name.name.as_str(), header.variable(word));
    match holds(header.condition, scope) {
        Err(_) => Turn::Ends(left),
        Ok(false) => Turn::Ends(left),
        Ok(true) => turn_taken(header, body, scope, left),
    }
}

/// What is left after a turn that comes.
#[cycle(count)]
fn turn_taken(header: &Header<'_>, body: &Stmt, scope: &mut Scope, left: u32) -> Turn
    requires sized { AreSized (names_of scope.old) }
    requires some { 1 ≤ header.now.width }
    requires narrow { header.now.width ≤ 128 }
    ensures turn { IsTaken (loop_of header.now) (turns_of body.now) (names_of scope.old) left result }
    ensures kept { names_of scope.new ≡ names_of scope.old }
{
    if left == 0 {
        return Turn::Passes;
    }
    match statement_left(body, scope, left - 1) {
        None => Turn::Passes,
        Some(rest) => match next_word(header, scope) {
            Err(_) => Turn::Ends(rest),
            Ok(next) => Turn::GoesOn(rest, next),
        },
    }
}
