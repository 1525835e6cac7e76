//! Events and arguments of system tasks, from their parts (IEEE 1364-2005, A.6.5, A.6.9).
#![tactic(auto, unfolding(crate::specs::Events::made_event, vlog_parts::specs::Kinds::is_of_kind, vlog_grammar::specs::Grammar::production))]

ghost use Rattle.std.specs.Prelude.{◌≡◌, ◌∷◌, true, IfOk};
ghost use Rattle.vlog_grammar.specs.declared.rule.Rule.TheVariants as r;
ghost use Rattle.vlog_parts.specs.declared.value.Value.TheVariants as v;
ghost use Rattle.vlog_parts.specs.Sorts.{is_event, is_identifier};
ghost use Rattle.vlog_parts.specs.Numbered.{second, third};
ghost use Rattle.vlog_parts.specs.Values.{event_of, events_of};
ghost use Rattle.vlog_parts.specs.Kinds.{sorted};
ghost use Rattle.vlog_statements.specs.Events as spec;

use std::alloc::{AllocError, Global};
use vlog_grammar::Rule;
use vlog_items::make_item;
use vlog_parts::{NO_SPAN, Parts, Stack, Value, string};
use vlog_syntax::{Argument, Edge, EventControl, EventExpression};

/// A name alone, as the only event.
fn event_identifier<'a>(alloc: Global, parts: &mut Parts<'a>) -> Result<Value<'a>, AllocError>
    requires { sorted r.EventIdentifier parts.old ≡ true }
    ensures { IfOk result (λ x. x ≡ spec.made_event r.EventIdentifier parts.old) }
{
    let name = parts.identifier();
    let events = Stack::new(alloc).with(EventExpression {
        edge: Edge::Any,
        name,
    })?;
    Ok(Value::EventControl(EventControl::List(events.into_listed())))
}

/// A list of events.
fn event_list<'a>(alloc: Global, parts: &mut Parts<'a>) -> Result<Value<'a>, AllocError>
    requires { sorted r.EventList parts.old ≡ true }
    ensures { IfOk result (λ x. x ≡ spec.made_event r.EventList parts.old) }
{
    let events = parts.some_events(alloc)?;
    Ok(Value::EventControl(EventControl::List(events.into_listed())))
}

/// A name behind the word of its edge.
#[tactic(auto)]
fn edge_event<'a>(edge: Edge, parts: &mut Parts<'a>) -> Value<'a>
    requires { is_identifier (second parts.old) ≡ true }
    ensures { result ≡ spec.edge_event edge parts.old }
{
    parts.skip();
    let name = parts.identifier();
    Value::Event(EventExpression { edge, name })
}

/// A name alone.
fn plain_event<'a>(parts: &mut Parts<'a>) -> Value<'a>
    requires { sorted r.PlainEvent parts.old ≡ true }
    ensures { result ≡ spec.made_event r.PlainEvent parts.old }
{
    let name = parts.identifier();
    Value::Event(EventExpression {
        edge: Edge::Any,
        name,
    })
}

/// An event behind `or` or `,`, and those behind it.
#[tactic(auto)]
fn next_event<'a>(alloc: Global, parts: &mut Parts<'a>) -> Result<Value<'a>, AllocError>
    requires { is_event (second parts.old) ≡ true }
    ensures { IfOk result (λ x. x ≡ v.Events (event_of (second parts.old) ∷ events_of (third parts.old))) }
{
    parts.skip();
    let events = parts.some_events(alloc)?;
    Ok(Value::Events(events))
}

/// An argument, and those behind it.
fn first_task_argument<'a>(alloc: Global, parts: &mut Parts<'a>) -> Result<Value<'a>, AllocError>
    requires { sorted r.FirstTaskArgument parts.old ≡ true }
    ensures { IfOk result (λ x. x ≡ spec.made_event r.FirstTaskArgument parts.old) }
{
    let arguments = parts.some_arguments(alloc)?;
    Ok(Value::Arguments(arguments))
}

/// An argument behind a `,`, and those behind it.
fn next_task_argument<'a>(alloc: Global, parts: &mut Parts<'a>) -> Result<Value<'a>, AllocError>
    requires { sorted r.NextTaskArgument parts.old ≡ true }
    ensures { IfOk result (λ x. x ≡ spec.made_event r.NextTaskArgument parts.old) }
{
    parts.skip();
    let arguments = parts.some_arguments(alloc)?;
    Ok(Value::Arguments(arguments))
}

/// A string.
fn string_argument<'a>(alloc: Global, parts: &mut Parts<'a>) -> Result<Value<'a>, AllocError>
    ensures { IfOk result (λ x. x ≡ spec.made_event r.StringArgument parts.old) }
{
    let token = parts.token();
    let span = token.map_or(NO_SPAN, |token| token.span);
    Ok(Value::Argument(Argument::String(string(alloc, token)?, span)))
}

/// An expression.
fn expression_argument<'a>(parts: &mut Parts<'a>) -> Value<'a>
    requires { sorted r.ExpressionArgument parts.old ≡ true }
    ensures { result ≡ spec.made_event r.ExpressionArgument parts.old }
{
    let expr = parts.expr();
    Value::Argument(Argument::Expr(expr))
}

/// What a production of events or of arguments of system tasks means.
#[inline(never)]
pub fn make_event<'a>(
    alloc: Global,
    rule: Rule,
    parts: &mut Parts<'a>,
) -> Result<Value<'a>, AllocError>
    requires { sorted rule parts.old ≡ true }
    ensures { IfOk result (λ x. x ≡ spec.made_event rule parts.old) }
{
    match rule {
        Rule::EventAny => Ok(Value::EventControl(EventControl::Implicit)),
        Rule::EventAnyInParens => Ok(Value::EventControl(EventControl::Implicit)),
        Rule::EventIdentifier => event_identifier(alloc, parts),
        Rule::EventList => event_list(alloc, parts),
        Rule::PosedgeEvent => Ok(edge_event(Edge::Posedge, parts)),
        Rule::NegedgeEvent => Ok(edge_event(Edge::Negedge, parts)),
        Rule::PlainEvent => Ok(plain_event(parts)),
        Rule::OrEvent => next_event(alloc, parts),
        Rule::CommaEvent => next_event(alloc, parts),
        Rule::FirstTaskArgument => first_task_argument(alloc, parts),
        Rule::NextTaskArgument => next_task_argument(alloc, parts),
        Rule::StringArgument => string_argument(alloc, parts),
        Rule::ExpressionArgument => Ok(expression_argument(parts)),
        _ => make_item(alloc, rule, parts),
    }
}
