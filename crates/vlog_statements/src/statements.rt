//! Statements, from their parts (IEEE 1364-2005, A.6).
#![tactic(auto, unfolding(crate::specs::Statements::made_statement, vlog_parts::specs::Kinds::is_of_kind, vlog_grammar::specs::Grammar::production))]

ghost use Rattle.std.specs.Prelude.{◌≡◌, ◌∷◌, true, IfOk};
ghost use Rattle.vlog_grammar.specs.declared.rule.Rule.TheVariants as r;
ghost use Rattle.vlog_parts.specs.declared.value.Value.TheVariants as v;
ghost use Rattle.vlog_parts.specs.Sorts.{is_case_item};
ghost use Rattle.vlog_parts.specs.Numbered.{first, second};
ghost use Rattle.vlog_parts.specs.Values.{case_item_of, case_items_of};
ghost use Rattle.vlog_parts.specs.Kinds.{sorted};
ghost use Rattle.vlog_statements.specs.Statements as spec;

use crate::events::make_event;
use std::alloc::{AllocError, Global};
use vlog_grammar::Rule;
use vlog_items::assignment;
use vlog_parts::{AssignmentSign, CaseKeyword, Parts, Value, boxed_stmt, identifier};
use vlog_syntax::{Assignment, Boxed, CaseItem, CaseKind, Expr, LeftSide, Listed, Stmt};

/// A sequential block.
fn seq_block<'a>(alloc: Global, parts: &mut Parts<'a>) -> Result<Value<'a>, AllocError>
    ensures { IfOk result (λ x. x ≡ spec.made_statement r.SeqBlock parts.old) }
{
    let span = parts.span();
    let name = parts.label();
    let body = parts.stmts(alloc);
    boxed_stmt(alloc, Stmt::SeqBlock(span, name, body.into_listed()))
}

/// A conditional statement.
fn conditional<'a>(alloc: Global, parts: &mut Parts<'a>) -> Result<Value<'a>, AllocError>
    requires { sorted r.ConditionalStatement parts.old ≡ true }
    ensures { IfOk result (λ x. x ≡ spec.made_statement r.ConditionalStatement parts.old) }
{
    let span = parts.span();
    parts.skip();
    let condition = parts.expr();
    parts.skip();
    let yes = parts.stmt();
    let no = parts.option_stmt();
    boxed_stmt(alloc, Stmt::Conditional(span, condition, yes, no))
}

/// A case statement.
fn case<'a>(alloc: Global, parts: &mut Parts<'a>) -> Result<Value<'a>, AllocError>
    requires { sorted r.CaseStatement parts.old ≡ true }
    ensures { IfOk result (λ x. x ≡ spec.made_statement r.CaseStatement parts.old) }
{
    let keyword = parts.case_keyword();
    parts.skip();
    let selector = parts.expr();
    parts.skip();
    let items = parts.case_items(alloc);
    boxed_stmt(
        alloc,
        Stmt::Case(keyword.span, keyword.kind, selector, items.into_listed()),
    )
}

/// A loop that counts.
fn for_statement<'a>(alloc: Global, parts: &mut Parts<'a>) -> Result<Value<'a>, AllocError>
    requires { sorted r.ForStatement parts.old ≡ true }
    ensures { IfOk result (λ x. x ≡ spec.made_statement r.ForStatement parts.old) }
{
    let span = parts.span();
    parts.skip();
    let start = assignment(parts);
    parts.skip();
    let condition = parts.expr();
    parts.skip();
    let step = assignment(parts);
    parts.skip();
    let body = parts.stmt();
    boxed_stmt(alloc, Stmt::For(span, start, condition, step, body))
}

/// A loop with a condition.
fn while_statement<'a>(alloc: Global, parts: &mut Parts<'a>) -> Result<Value<'a>, AllocError>
    requires { sorted r.WhileStatement parts.old ≡ true }
    ensures { IfOk result (λ x. x ≡ spec.made_statement r.WhileStatement parts.old) }
{
    let span = parts.span();
    parts.skip();
    let condition = parts.expr();
    parts.skip();
    let body = parts.stmt();
    boxed_stmt(alloc, Stmt::While(span, condition, body))
}

/// A loop with a count.
fn repeat<'a>(alloc: Global, parts: &mut Parts<'a>) -> Result<Value<'a>, AllocError>
    requires { sorted r.RepeatStatement parts.old ≡ true }
    ensures { IfOk result (λ x. x ≡ spec.made_statement r.RepeatStatement parts.old) }
{
    let span = parts.span();
    parts.skip();
    let count = parts.expr();
    parts.skip();
    let body = parts.stmt();
    boxed_stmt(alloc, Stmt::Repeat(span, count, body))
}

/// A loop without an end.
fn forever<'a>(alloc: Global, parts: &mut Parts<'a>) -> Result<Value<'a>, AllocError>
    requires { sorted r.ForeverStatement parts.old ≡ true }
    ensures { IfOk result (λ x. x ≡ spec.made_statement r.ForeverStatement parts.old) }
{
    let span = parts.span();
    boxed_stmt(alloc, Stmt::Forever(span, parts.stmt()))
}

/// A statement behind an event control.
fn event_control_statement<'a>(
    alloc: Global,
    parts: &mut Parts<'a>,
) -> Result<Value<'a>, AllocError>
    requires { sorted r.EventControlStatement parts.old ≡ true }
    ensures { IfOk result (λ x. x ≡ spec.made_statement r.EventControlStatement parts.old) }
{
    let span = parts.span();
    let control = parts.event_control();
    let body = parts.stmt();
    boxed_stmt(alloc, Stmt::EventControl(span, control, body))
}

/// A statement behind a delay.
fn delay_control_statement<'a>(
    alloc: Global,
    parts: &mut Parts<'a>,
) -> Result<Value<'a>, AllocError>
    requires { sorted r.DelayControlStatement parts.old ≡ true }
    ensures { IfOk result (λ x. x ≡ spec.made_statement r.DelayControlStatement parts.old) }
{
    let span = parts.span();
    let delay = parts.expr();
    let body = parts.stmt();
    boxed_stmt(alloc, Stmt::DelayControl(span, delay, body))
}

/// A call of a system task.
#[tactic(auto)]
fn system_task<'a>(alloc: Global, parts: &mut Parts<'a>) -> Result<Value<'a>, AllocError>
    ensures { IfOk result (λ x. x ≡ spec.system_task parts.old) }
{
    let name = identifier(alloc, parts.token())?;
    let arguments = parts.arguments(alloc);
    boxed_stmt(alloc, Stmt::SystemTaskEnable(name, arguments.into_listed()))
}

/// An assignment by its sign.
#[tactic(auto, unfolding(crate::specs::Statements::assigned))]
fn assigned(left: LeftSide, sign: AssignmentSign, value: Boxed<Expr>) -> Stmt
    ensures { result ≡ spec.assigned left sign value }
{
    match sign {
        AssignmentSign::Blocking(span) => {
            Stmt::BlockingAssignment(Assignment { left, span, value })
        }
        AssignmentSign::Nonblocking(span) => {
            Stmt::NonblockingAssignment(Assignment { left, span, value })
        }
    }
}

/// An assignment.
fn assignment_statement<'a>(alloc: Global, parts: &mut Parts<'a>) -> Result<Value<'a>, AllocError>
    requires { sorted r.Assignment parts.old ≡ true }
    ensures { IfOk result (λ x. x ≡ spec.made_statement r.Assignment parts.old) }
{
    let left = parts.left();
    let sign = parts.sign();
    let value = parts.expr();
    boxed_stmt(alloc, assigned(left, sign, value))
}

/// A statement, and those behind it.
fn more_statements<'a>(alloc: Global, parts: &mut Parts<'a>) -> Result<Value<'a>, AllocError>
    requires { sorted r.MoreStatements parts.old ≡ true }
    ensures { IfOk result (λ x. x ≡ spec.made_statement r.MoreStatements parts.old) }
{
    let stmts = parts.some_stmts(alloc)?;
    Ok(Value::Stmts(stmts))
}

/// The keyword of a case statement.
#[tactic(auto)]
fn case_keyword<'a>(kind: CaseKind, parts: &mut Parts<'a>) -> Value<'a>
    ensures { result ≡ spec.case_keyword kind parts.old }
{
    let span = parts.span();
    Value::CaseKeyword(CaseKeyword { span, kind })
}

/// An item, and those behind it.
#[tactic(auto)]
fn more_case_items<'a>(alloc: Global, parts: &mut Parts<'a>) -> Result<Value<'a>, AllocError>
    requires { is_case_item (first parts.old) ≡ true }
    ensures { IfOk result (λ x. x ≡ v.CaseItems (case_item_of (first parts.old) ∷ case_items_of (second parts.old))) }
{
    let items = parts.some_case_items(alloc)?;
    Ok(Value::CaseItems(items))
}

/// An item with labels.
fn labelled_case_item<'a>(alloc: Global, parts: &mut Parts<'a>) -> Result<Value<'a>, AllocError>
    requires { sorted r.LabelledCaseItem parts.old ≡ true }
    ensures { IfOk result (λ x. x ≡ spec.made_statement r.LabelledCaseItem parts.old) }
{
    let label = parts.expr().into_inner();
    let span = label.first_token();
    let labels = parts.exprs(alloc).with(label)?;
    parts.skip();
    let body = parts.stmt();
    Ok(Value::CaseItem(CaseItem {
        span,
        labels: labels.into_listed(),
        body,
    }))
}

/// The default.
fn default_case_item<'a>(alloc: Global, parts: &mut Parts<'a>) -> Value<'a>
    requires { sorted r.DefaultCaseItem parts.old ≡ true }
    ensures { result ≡ spec.made_statement r.DefaultCaseItem parts.old }
{
    let span = parts.span();
    parts.skip();
    let body = parts.stmt();
    Value::CaseItem(CaseItem {
        span,
        labels: Listed::from_vec(Vec::new(alloc)),
        body,
    })
}

/// A statement of one token.
fn null_statement<'a>(alloc: Global, parts: &mut Parts<'a>) -> Result<Value<'a>, AllocError>
    ensures { IfOk result (λ x. x ≡ spec.made_statement r.NullStatement parts.old) }
{
    boxed_stmt(alloc, Stmt::Null(parts.span()))
}

/// The sign of a blocking assignment.
fn blocking<'a>(parts: &mut Parts<'a>) -> Value<'a>
    ensures { result ≡ spec.made_statement r.Blocking parts.old }
{
    let span = parts.span();
    Value::Sign(AssignmentSign::Blocking(span))
}

/// The sign of a nonblocking assignment.
fn nonblocking<'a>(parts: &mut Parts<'a>) -> Value<'a>
    ensures { result ≡ spec.made_statement r.Nonblocking parts.old }
{
    let span = parts.span();
    Value::Sign(AssignmentSign::Nonblocking(span))
}

/// What a production of statements means.
#[inline(never)]
pub fn make_statement<'a>(
    alloc: Global,
    rule: Rule,
    parts: &mut Parts<'a>,
) -> Result<Value<'a>, AllocError>
    requires { sorted rule parts.old ≡ true }
    ensures { IfOk result (λ x. x ≡ spec.made_statement rule parts.old) }
{
    match rule {
        Rule::NullStatement => null_statement(alloc, parts),
        Rule::SeqBlock => seq_block(alloc, parts),
        Rule::ConditionalStatement => conditional(alloc, parts),
        Rule::CaseStatement => case(alloc, parts),
        Rule::ForStatement => for_statement(alloc, parts),
        Rule::WhileStatement => while_statement(alloc, parts),
        Rule::RepeatStatement => repeat(alloc, parts),
        Rule::ForeverStatement => forever(alloc, parts),
        Rule::EventControlStatement => event_control_statement(alloc, parts),
        Rule::DelayControlStatement => delay_control_statement(alloc, parts),
        Rule::SystemTaskEnable => system_task(alloc, parts),
        Rule::UnaryFunctionEnable => system_task(alloc, parts),
        Rule::Assignment => assignment_statement(alloc, parts),
        Rule::Blocking => Ok(blocking(parts)),
        Rule::Nonblocking => Ok(nonblocking(parts)),
        Rule::MoreStatements => more_statements(alloc, parts),
        Rule::CaseExact => Ok(case_keyword(CaseKind::Case, parts)),
        Rule::CaseZ => Ok(case_keyword(CaseKind::Casez, parts)),
        Rule::CaseX => Ok(case_keyword(CaseKind::Casex, parts)),
        Rule::FirstCaseItem => more_case_items(alloc, parts),
        Rule::FirstDefault => more_case_items(alloc, parts),
        Rule::NextCaseItem => more_case_items(alloc, parts),
        Rule::NextDefault => more_case_items(alloc, parts),
        Rule::NextLabelledItem => more_case_items(alloc, parts),
        Rule::LabelledCaseItem => labelled_case_item(alloc, parts),
        Rule::DefaultCaseItem => Ok(default_case_item(alloc, parts)),
        _ => make_event(alloc, rule, parts),
    }
}
