//! Statements (IEEE 1364-2005, 9).
ghost use Rattle.std.specs.Prelude.{◌≡◌, IfOk};
ghost use Rattle.vlog_syntax.specs.declared.stmt.Stmt.TheVariants as s;

use crate::boxed::Boxed;
use crate::expr::{Expr, copy_boxed, copy_exprs};
use crate::identifier::Identifier;
use crate::left_side::LeftSide;
use crate::listed::Listed;
use mcy_base::{Bytes, Span};
use std::alloc::{AllocError, Global};

/// Which bits of a label are no matter (IEEE 1364-2005, 9.5.1).
#[derive(Clone, Copy)]
pub enum CaseKind {
    Case,
    Casez,
    Casex,
}

/// At which changes of its name an event comes (IEEE 1364-2005, 9.7.1).
#[derive(Clone, Copy)]
pub enum Edge {
    Any,
    Posedge,
    Negedge,
}

/// A name in an event control, with its edge.
pub struct EventExpression {
    pub edge: Edge,
    pub name: Identifier,
}

impl Drop for EventExpression {
    fn drop(self) {
        let EventExpression {
            edge: _edge,
            name: _name,
        } = self;
    }
}

/// What a statement waits for (IEEE 1364-2005, 9.7).
pub enum EventControl {
    /// `@*`, `@(*)`
    Implicit,
    /// `@name`, `@(posedge a or b)`
    List(Listed<EventExpression>),
}

impl Drop for EventControl {
    fn drop(self) {
        match self {
            EventControl::Implicit => {}
            EventControl::List(_events) => {}
        }
    }
}

/// `left = value`, with the place of its `=`.
pub struct Assignment {
    pub left: LeftSide,
    pub span: Span,
    pub value: Boxed<Expr>,
}

impl Drop for Assignment {
    fn drop(self) {
        let Assignment {
            left: _left,
            span: _span,
            value: _value,
        } = self;
    }
}

/// An argument of a system task.
pub enum Argument {
    /// The characters of a string, its escapes replaced (IEEE 1364-2005, 3.6.3).
    String(Bytes, Span),
    Expr(Boxed<Expr>),
}

impl Drop for Argument {
    fn drop(self) {
        match self {
            Argument::String(_text, _span) => {}
            Argument::Expr(_expr) => {}
        }
    }
}

/// An item of a case statement. The default has no labels.
#[cycle(statement)]
pub struct CaseItem {
    pub span: Span,
    pub labels: Listed<Expr>,
    pub body: Boxed<Stmt>,
}

impl Drop for CaseItem {
    #[cycle(let_go)]
    fn drop(self) {
        let CaseItem {
            span: _span,
            labels: _labels,
            body: _body,
        } = self;
    }
}

/// A statement. The place is that of its first token, attributes aside.
#[cycle(statement)]
pub enum Stmt {
    /// `;`
    Null(Span),
    /// `begin : name .. end`
    SeqBlock(Span, Option<Identifier>, Listed<Stmt>),
    /// `if (condition) yes else no`
    Conditional(Span, Boxed<Expr>, Boxed<Stmt>, Option<Boxed<Stmt>>),
    /// `case (selector) .. endcase`
    Case(Span, CaseKind, Boxed<Expr>, Listed<CaseItem>),
    /// `for (start; condition; step) body`
    For(Span, Assignment, Boxed<Expr>, Assignment, Boxed<Stmt>),
    /// `while (condition) body`
    While(Span, Boxed<Expr>, Boxed<Stmt>),
    /// `repeat (count) body`
    Repeat(Span, Boxed<Expr>, Boxed<Stmt>),
    /// `forever body`
    Forever(Span, Boxed<Stmt>),
    /// `@(..) body`
    EventControl(Span, EventControl, Boxed<Stmt>),
    /// `#delay body`
    DelayControl(Span, Boxed<Expr>, Boxed<Stmt>),
    /// `$name(..);`
    SystemTaskEnable(Identifier, Listed<Argument>),
    /// `left = value;`
    BlockingAssignment(Assignment),
    /// `left <= value;`, with the place of its `<=`.
    NonblockingAssignment(Assignment),
}

impl Drop for Stmt {
    #[cycle(let_go)]
    fn drop(self) {
        match self {
            Stmt::Null(_span) => {}
            Stmt::SeqBlock(_span, _name, _body) => {}
            Stmt::Conditional(_span, _condition, _yes, _no) => {}
            Stmt::Case(_span, _kind, _selector, _items) => {}
            Stmt::For(_span, _start, _condition, _step, _body) => {}
            Stmt::While(_span, _condition, _body) => {}
            Stmt::Repeat(_span, _count, _body) => {}
            Stmt::Forever(_span, _body) => {}
            Stmt::EventControl(_span, _control, _body) => {}
            Stmt::DelayControl(_span, _delay, _body) => {}
            Stmt::SystemTaskEnable(_name, _arguments) => {}
            Stmt::BlockingAssignment(_assignment) => {}
            Stmt::NonblockingAssignment(_assignment) => {}
        }
    }
}

impl EventExpression {
    /// The same event.
    fn copy(&self, alloc: Global) -> Result<EventExpression, AllocError>
        ensures { IfOk result (λ e. e ≡ self.now) }
    {
        Ok(EventExpression {
            edge: self.edge,
            name: self.name.copy(alloc)?,
        })
    }
}

impl EventControl {
    /// The same event control.
    fn copy(&self, alloc: Global) -> Result<EventControl, AllocError>
        ensures { IfOk result (λ e. e ≡ self.now) }
    {
        match self {
            EventControl::Implicit => Ok(EventControl::Implicit),
            EventControl::List(events) => {
                Ok(EventControl::List(copy_events(alloc, events.as_slice())?))
            }
        }
    }
}

/// The same events.
fn copy_events(
    alloc: Global,
    events: &[EventExpression],
) -> Result<Listed<EventExpression>, AllocError>
    ensures { IfOk result (λ l. l ≡ events.now) }
{
    let mut copies = Listed::from_vec(Vec::new(alloc));
    for event in events {
        copies.push(event.copy(alloc)?)?;
    }
    Ok(copies)
}

impl Assignment {
    /// The same assignment.
    fn copy(&self, alloc: Global) -> Result<Assignment, AllocError>
        ensures { IfOk result (λ a. a ≡ self.now) }
    {
        Ok(Assignment {
            left: self.left.copy(alloc)?,
            span: self.span,
            value: copy_boxed(alloc, self.value.get())?,
        })
    }
}

impl Argument {
    /// The same argument.
    fn copy(&self, alloc: Global) -> Result<Argument, AllocError>
        ensures { IfOk result (λ a. a ≡ self.now) }
    {
        match self {
            Argument::String(text, span) => {
                Ok(Argument::String(Bytes::copy(alloc, text.as_slice())?, *span))
            }
            Argument::Expr(expr) => Ok(Argument::Expr(copy_boxed(alloc, expr.get())?)),
        }
    }
}

/// The same arguments.
fn copy_arguments(alloc: Global, arguments: &[Argument]) -> Result<Listed<Argument>, AllocError>
    ensures { IfOk result (λ l. l ≡ arguments.now) }
{
    let mut copies = Listed::from_vec(Vec::new(alloc));
    for argument in arguments {
        copies.push(argument.copy(alloc)?)?;
    }
    Ok(copies)
}

/// The same name, where there is one.
fn copy_name(alloc: Global, name: &Option<Identifier>) -> Result<Option<Identifier>, AllocError>
    ensures { IfOk result (λ n. n ≡ name.now) }
{
    match name {
        Some(name) => Ok(Some(name.copy(alloc)?)),
        None => Ok(None),
    }
}

impl Stmt {
    /// The same statement.
    #[cycle(copy)]
    pub fn copy(&self, alloc: Global) -> Result<Stmt, AllocError>
        ensures { IfOk result (λ s. s ≡ self.now) }
    {
        match self {
            Stmt::Null(span) => Ok(Stmt::Null(*span)),
            Stmt::SeqBlock(span, name, body) => {
                let body = copy_statements(alloc, body.as_slice())?;
                seq_block(alloc, *span, name, body)
            }
            Stmt::Conditional(span, condition, yes, no) => {
                let yes = copy_body(alloc, yes.get())?;
                match no {
                    Some(no) => {
                        let no = copy_body(alloc, no.get())?;
                        conditional(alloc, *span, condition.get(), yes, Some(no))
                    }
                    None => conditional(alloc, *span, condition.get(), yes, None),
                }
            }
            Stmt::Case(span, kind, selector, items) => {
                let items = copy_items(alloc, items.as_slice())?;
                case(alloc, *span, *kind, selector.get(), items)
            }
            Stmt::For(span, start, condition, step, body) => {
                let body = copy_body(alloc, body.get())?;
                for_loop(alloc, *span, start, condition.get(), step, body)
            }
            Stmt::While(span, condition, body) => {
                let body = copy_body(alloc, body.get())?;
                let (condition, body) = guarded(alloc, condition.get(), body)?;
                Ok(Stmt::While(*span, condition, body))
            }
            Stmt::Repeat(span, count, body) => {
                let body = copy_body(alloc, body.get())?;
                let (count, body) = guarded(alloc, count.get(), body)?;
                Ok(Stmt::Repeat(*span, count, body))
            }
            Stmt::Forever(span, body) => {
                let body = copy_body(alloc, body.get())?;
                Ok(Stmt::Forever(*span, body))
            }
            Stmt::EventControl(span, control, body) => {
                let body = copy_body(alloc, body.get())?;
                event_control(alloc, *span, control, body)
            }
            Stmt::DelayControl(span, delay, body) => {
                let body = copy_body(alloc, body.get())?;
                let (delay, body) = guarded(alloc, delay.get(), body)?;
                Ok(Stmt::DelayControl(*span, delay, body))
            }
            Stmt::SystemTaskEnable(name, arguments) => task_enable(alloc, name, arguments),
            Stmt::BlockingAssignment(assignment) => {
                Ok(Stmt::BlockingAssignment(assignment.copy(alloc)?))
            }
            Stmt::NonblockingAssignment(assignment) => {
                Ok(Stmt::NonblockingAssignment(assignment.copy(alloc)?))
            }
        }
    }
}

/// The same statement in a box.
#[cycle(copy)]
fn copy_body(alloc: Global, statement: &Stmt) -> Result<Boxed<Stmt>, AllocError>
    ensures { IfOk result (λ b. b ≡ statement.now) }
{
    Boxed::new(alloc, statement.copy(alloc)?)
}

/// A copy of the expression, and the statement behind it.
fn guarded(
    alloc: Global,
    guard: &Expr,
    body: Boxed<Stmt>,
) -> Result<(Boxed<Expr>, Boxed<Stmt>), AllocError>
    ensures { IfOk result (λ p. (p.0 ≡ guard.now) × (p.1 ≡ body)) }
{
    Ok((copy_boxed(alloc, guard)?, body))
}

/// A block with a copy of the name.
fn seq_block(
    alloc: Global,
    span: Span,
    name: &Option<Identifier>,
    body: Listed<Stmt>,
) -> Result<Stmt, AllocError>
    ensures { IfOk result (λ x. x ≡ s.SeqBlock span name.now body) }
{
    Ok(Stmt::SeqBlock(span, copy_name(alloc, name)?, body))
}

/// An `if` with a copy of the condition.
fn conditional(
    alloc: Global,
    span: Span,
    condition: &Expr,
    yes: Boxed<Stmt>,
    no: Option<Boxed<Stmt>>,
) -> Result<Stmt, AllocError>
    ensures { IfOk result (λ x. x ≡ s.Conditional span condition.now yes no) }
{
    Ok(Stmt::Conditional(span, copy_boxed(alloc, condition)?, yes, no))
}

/// A case statement with a copy of the selector.
fn case(
    alloc: Global,
    span: Span,
    kind: CaseKind,
    selector: &Expr,
    items: Listed<CaseItem>,
) -> Result<Stmt, AllocError>
    ensures { IfOk result (λ x. x ≡ s.Case span kind selector.now items) }
{
    Ok(Stmt::Case(span, kind, copy_boxed(alloc, selector)?, items))
}

/// A loop with copies of its start, its condition and its step.
fn for_loop(
    alloc: Global,
    span: Span,
    start: &Assignment,
    condition: &Expr,
    step: &Assignment,
    body: Boxed<Stmt>,
) -> Result<Stmt, AllocError>
    ensures { IfOk result (λ x. x ≡ s.For span start.now condition.now step.now body) }
{
    let start = start.copy(alloc)?;
    let step = step.copy(alloc)?;
    Ok(Stmt::For(span, start, copy_boxed(alloc, condition)?, step, body))
}

/// A statement behind a copy of its event control.
fn event_control(
    alloc: Global,
    span: Span,
    control: &EventControl,
    body: Boxed<Stmt>,
) -> Result<Stmt, AllocError>
    ensures { IfOk result (λ x. x ≡ s.EventControl span control.now body) }
{
    Ok(Stmt::EventControl(span, control.copy(alloc)?, body))
}

/// The same call of a system task.
fn task_enable(
    alloc: Global,
    name: &Identifier,
    arguments: &Listed<Argument>,
) -> Result<Stmt, AllocError>
    ensures { IfOk result (λ x. x ≡ s.SystemTaskEnable name.now arguments.now) }
{
    let arguments = copy_arguments(alloc, arguments.as_slice())?;
    Ok(Stmt::SystemTaskEnable(name.copy(alloc)?, arguments))
}

impl CaseItem {
    /// The same item.
    #[cycle(copy)]
    fn copy(&self, alloc: Global) -> Result<CaseItem, AllocError>
        ensures { IfOk result (λ i. i ≡ self.now) }
    {
        Ok(CaseItem {
            span: self.span,
            labels: copy_exprs(alloc, self.labels.as_slice())?,
            body: copy_body(alloc, self.body.get())?,
        })
    }
}

/// The same statements.
#[cycle(copy)]
fn copy_statements(alloc: Global, statements: &[Stmt]) -> Result<Listed<Stmt>, AllocError>
    ensures { IfOk result (λ l. l ≡ statements.now) }
{
    let mut copies = Listed::from_vec(Vec::new(alloc));
    for statement in statements {
        copies.push(statement.copy(alloc)?)?;
    }
    Ok(copies)
}

/// The same items.
#[cycle(copy)]
fn copy_items(alloc: Global, items: &[CaseItem]) -> Result<Listed<CaseItem>, AllocError>
    ensures { IfOk result (λ l. l ≡ items.now) }
{
    let mut copies = Listed::from_vec(Vec::new(alloc));
    for item in items {
        copies.push(item.copy(alloc)?)?;
    }
    Ok(copies)
}
