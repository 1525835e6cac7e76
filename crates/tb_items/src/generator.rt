//! Clock generators, by their form: `initial begin C = k; forever #n C = ~C; end`, where k is a constant, and `always #n C = ~C;`.
//! In both `!` may stand for `~`, and `(C)` for the C behind it; `C <= k` may stand for `C = k`.
ghost use Rattle.std.specs.Prelude.{◌≡◌, ◌&&◌};
ghost use Rattle.vlog_syntax.specs.declared.expr.Expr.{out-Expr};
ghost use Rattle.vlog_syntax.specs.declared.left_side.LeftSide.{out-LeftSide};
ghost use Rattle.vlog_syntax.specs.declared.stmt.Stmt.{out-Stmt};
ghost use Rattle.vlog_meaning.specs.Scopes.{names_of};
ghost use Rattle.tb_items.specs.Generators.{inversion_of, name_in, is_named, same_name, inverted, toggled, delayed, toggle_in, always_generator, is_constant, begun, forever, pair_generator, list_generator, initial_generator, generator_of};

use flat_scopes::Lent;
use vlog_meaning::{Scope, constant_fault};
use vlog_syntax::{Expr, Identifier, LeftSide, Process, ProcessKind, Stmt, UnaryOperator};

/// How a generator turns its clock: each bit, `~`, or its truth value, `!`.
#[derive(Clone, Copy, Debug, PartialEq, Eq)]
pub enum Inversion {
    Bits,
    Truth,
}

/// `#delay C = ~C;`
#[derive(Drop)]
pub struct Toggle<'a> {
    pub clock: Lent<'a, Identifier>,
    pub delay: Lent<'a, Expr>,
    pub inversion: Inversion,
}

/// A clock generator.
#[derive(Drop)]
pub struct Generator<'a> {
    /// The name of the clock, where it is assigned first.
    pub clock: Lent<'a, Identifier>,
    /// The constant that it is assigned at first, by an `initial`.
    pub first: Option<Lent<'a, Expr>>,
    pub delay: Lent<'a, Expr>,
    pub inversion: Inversion,
}

/// What `~` and `!` do.
fn inversion_of(operator: UnaryOperator) -> Option<Inversion>
    ensures { result ≡ inversion_of operator }
{
    match operator {
        UnaryOperator::BitwiseNot => Some(Inversion::Bits),
        UnaryOperator::LogicalNot => Some(Inversion::Truth),
        _ => None,
    }
}

/// Whether an expression is this name, in parentheses or not.
#[cycle(named)]
fn is_named(name: &str, expr: &Expr) -> bool
    ensures { result ≡ is_named name.now (name_in expr.now) }
{
    match expr {
        Expr::Name(other) => name == other.name.as_str(),
        Expr::Parenthesized(_, inner) => is_named(name, inner.get()),
        _ => false,
    }
}

/// The toggle of a name, where the operand is the name.
fn same_name<'a>(
    delay: &'a Expr,
    name: &'a Identifier,
    inversion: Option<Inversion>,
    operand: &Expr,
) -> Option<Toggle<'a>>
    ensures { result ≡ same_name delay.now name.now inversion (name_in operand.now) }
{
    let Some(inversion) = inversion else {
        return None;
    };
    if is_named(name.name.as_str(), operand) {
        Some(Toggle {
            clock: Lent::of(name),
            delay: Lent::of(delay),
            inversion,
        })
    } else {
        None
    }
}

/// The toggle of a name, where the value is the name, inverted.
fn inverted<'a>(delay: &'a Expr, name: &'a Identifier, value: &Expr) -> Option<Toggle<'a>>
    ensures { result ≡ inverted delay.now name.now (out-Expr value.now) }
{
    match value {
        Expr::Unary(_, operator, operand) => {
            same_name(delay, name, inversion_of(*operator), operand.get())
        }
        _ => None,
    }
}

/// The toggle of the name on the left side, where the value is the name, inverted.
fn toggled<'a>(delay: &'a Expr, left: &'a LeftSide, value: &Expr) -> Option<Toggle<'a>>
    ensures { result ≡ toggled delay.now (out-LeftSide left.now) value.now }
{
    match left {
        LeftSide::Name(name) => inverted(delay, name, value),
        _ => None,
    }
}

/// The toggle that a statement is behind a delay.
fn delayed<'a>(delay: &'a Expr, body: &'a Stmt) -> Option<Toggle<'a>>
    ensures { result ≡ delayed delay.now (out-Stmt body.now) }
{
    match body {
        Stmt::BlockingAssignment(assignment) => {
            toggled(delay, &assignment.left, assignment.value.get())
        }
        _ => None,
    }
}

/// `#n C = ~C;`
fn toggle_in(stmt: &Stmt) -> Option<Toggle<'_>>
    ensures { result ≡ toggle_in (out-Stmt stmt.now) }
{
    match stmt {
        Stmt::DelayControl(_, delay, body) => delayed(delay.get(), body.get()),
        _ => None,
    }
}

/// `always #n C = ~C;`
fn always_generator(toggle: Option<Toggle<'_>>) -> Option<Generator<'_>>
    ensures { result ≡ always_generator toggle.entry }
{
    match toggle {
        Some(toggle) => Some(Generator {
            clock: toggle.clock,
            first: None,
            delay: toggle.delay,
            inversion: toggle.inversion,
        }),
        None => None,
    }
}

/// Whether an expression is a constant.
fn is_constant(expr: &Expr, scope: &Scope) -> bool
    ensures { result ≡ is_constant (names_of scope.now) expr.now }
{
    match constant_fault(expr, scope) {
        None => true,
        Some(_) => false,
    }
}

/// The generator of a name that is assigned a constant and then toggled.
fn begun<'a>(
    scope: &Scope,
    left: &'a LeftSide,
    value: &'a Expr,
    toggle: Option<Toggle<'a>>,
) -> Option<Generator<'a>>
    ensures { result ≡ begun (names_of scope.now) (out-LeftSide left.now) value.now toggle.entry }
{
    let LeftSide::Name(name) = left else {
        return None;
    };
    let Some(toggle) = toggle else {
        return None;
    };
    if name.name.as_str() == toggle.clock.get().name.as_str() && is_constant(value, scope) {
        Some(Generator {
            clock: Lent::of(name),
            first: Some(Lent::of(value)),
            delay: toggle.delay,
            inversion: toggle.inversion,
        })
    } else {
        None
    }
}

/// `forever #n C = ~C;`
fn forever(stmt: &Stmt) -> Option<Toggle<'_>>
    ensures { result ≡ forever (out-Stmt stmt.now) }
{
    match stmt {
        Stmt::Forever(_, body) => toggle_in(body.get()),
        _ => None,
    }
}

/// `C = k; forever #n C = ~C;`
fn pair_generator<'a>(scope: &Scope, first: &'a Stmt, second: &'a Stmt) -> Option<Generator<'a>>
    ensures { result ≡ pair_generator (names_of scope.now) (out-Stmt first.now) (out-Stmt second.now) }
{
    match first {
        Stmt::BlockingAssignment(assignment) => begun(
            scope,
            &assignment.left,
            assignment.value.get(),
            forever(second),
        ),
        Stmt::NonblockingAssignment(assignment) => begun(
            scope,
            &assignment.left,
            assignment.value.get(),
            forever(second),
        ),
        _ => None,
    }
}

/// The same, of two statements.
fn list_generator<'a>(scope: &Scope, body: &'a [Stmt]) -> Option<Generator<'a>>
    ensures { result ≡ list_generator (names_of scope.now) body.now }
{
    match body {
        [first, second] => pair_generator(scope, first, second),
        _ => None,
    }
}

/// The same, in a block.
fn initial_generator<'a>(scope: &Scope, body: &'a Stmt) -> Option<Generator<'a>>
    ensures { result ≡ initial_generator (names_of scope.now) (out-Stmt body.now) }
{
    match body {
        Stmt::SeqBlock(_, _, body) => list_generator(scope, body.as_slice()),
        _ => None,
    }
}

/// The clock generator that a process is, if it is one.
pub fn generator_of<'a>(scope: &Scope, process: &'a Process) -> Option<Generator<'a>>
    ensures { result ≡ generator_of (names_of scope.now) process.now }
{
    match process.kind {
        ProcessKind::Always => always_generator(toggle_in(process.body.get())),
        ProcessKind::Initial => initial_generator(scope, process.body.get()),
    }
}
