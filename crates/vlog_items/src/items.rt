//! Items, from their parts (IEEE 1364-2005, A.1.4, A.4.2, A.6.1).
#![tactic(auto, unfolding(crate::specs::Items::made_item, vlog_parts::specs::Kinds::is_of_kind, vlog_grammar::specs::Grammar::production))]

ghost use Rattle.std.specs.Prelude.{◌≡◌, ◌∷◌, true, IfOk};
ghost use Rattle.vlog_grammar.specs.declared.rule.Rule.TheVariants as r;
ghost use Rattle.vlog_parts.specs.declared.value.Value.TheVariants as v;
ghost use Rattle.vlog_parts.specs.Sorts.{is_expr, is_item, is_left, is_stmt};
ghost use Rattle.vlog_parts.specs.Numbered.{first, rest, second, third};
ghost use Rattle.vlog_parts.specs.Values.{item_of, items_of};
ghost use Rattle.vlog_items.specs.Items as spec;
ghost use Rattle.vlog_parts.specs.Kinds.{sorted};

use crate::instances::{
    connection_by_name, module_instance, module_instantiation, named_connections, named_parameters,
    next_module_instance, next_named_connection, next_ordered_connection, ordered_connections,
    ordered_parameters,
};
use std::alloc::{AllocError, Global};
use vlog_declarations::make_declaration;
use vlog_grammar::Rule;
use vlog_parts::{Parts, Value, boxed_assignment, boxed_item, boxed_plain};
use vlog_syntax::{Assignment, Delay, GenerateLoop, Item, PlainItem, Process, ProcessKind};

/// A delay.
fn some_delay<'a>(parts: &mut Parts<'a>) -> Value<'a>
    requires { sorted r.SomeDelay parts.old ≡ true }
    ensures { result ≡ spec.made_item r.SomeDelay parts.old }
{
    let span = parts.span();
    let value = parts.expr();
    Value::Delay(Delay { span, value })
}

/// `left = value`.
#[tactic(auto)]
pub fn assignment(parts: &mut Parts<'_>) -> Assignment
    requires left { is_left (first parts.old) ≡ true }
    requires value { is_expr (third parts.old) ≡ true }
    ensures value { result ≡ spec.assignment (first parts.old) (second parts.old) (third parts.old) }
    ensures rest { parts.new ≡ rest (rest (rest parts.old)) }
{
    let left = parts.left();
    let span = parts.span();
    let value = parts.expr();
    Assignment { left, span, value }
}

/// An assignment of a net.
fn net_assigned<'a>(alloc: Global, parts: &mut Parts<'a>) -> Result<Value<'a>, AllocError>
    requires { sorted r.NetAssigned parts.old ≡ true }
    ensures { IfOk result (λ x. x ≡ spec.made_item r.NetAssigned parts.old) }
{
    boxed_assignment(alloc, assignment(parts))
}

/// An assignment behind a `,`, and those behind it.
fn next_net_assignment<'a>(alloc: Global, parts: &mut Parts<'a>) -> Result<Value<'a>, AllocError>
    requires { sorted r.NextNetAssignment parts.old ≡ true }
    ensures { IfOk result (λ x. x ≡ spec.made_item r.NextNetAssignment parts.old) }
{
    parts.skip();
    let all = parts.some_assignments(alloc)?;
    Ok(Value::Assignments(all))
}

/// A continuous assignment.
fn continuous_assign<'a>(alloc: Global, parts: &mut Parts<'a>) -> Result<Value<'a>, AllocError>
    requires { sorted r.ContinuousAssign parts.old ≡ true }
    ensures { IfOk result (λ x. x ≡ spec.made_item r.ContinuousAssign parts.old) }
{
    let span = parts.span();
    let delay = parts.delay();
    let first = parts.assignment();
    let (assignments, delay) = parts.assignments(alloc).with_beside(first, delay)?;
    boxed_plain(
        alloc,
        PlainItem::ContinuousAssign(span, delay, assignments.into_listed()),
    )
}

/// A process.
#[tactic(auto)]
fn process<'a>(
    alloc: Global,
    kind: ProcessKind,
    parts: &mut Parts<'a>,
) -> Result<Value<'a>, AllocError>
    requires { is_stmt (second parts.old) ≡ true }
    ensures { IfOk result (λ x. x ≡ spec.process kind parts.old) }
{
    let span = parts.span();
    let body = parts.stmt();
    boxed_plain(alloc, PlainItem::Process(Process { span, kind, body }))
}

/// An item behind its attributes, and those behind it.
#[tactic(auto)]
fn more_items<'a>(alloc: Global, parts: &mut Parts<'a>) -> Result<Value<'a>, AllocError>
    requires { is_item (second parts.old) ≡ true }
    ensures { IfOk result (λ x. x ≡ v.Items (item_of (second parts.old) ∷ items_of (third parts.old))) }
{
    parts.skip();
    let items = parts.some_items(alloc)?;
    Ok(Value::Items(items))
}

/// A generate region.
fn generate_region<'a>(alloc: Global, parts: &mut Parts<'a>) -> Result<Value<'a>, AllocError>
    ensures { IfOk result (λ x. x ≡ spec.made_item r.GenerateRegion parts.old) }
{
    let span = parts.span();
    let items = parts.items(alloc);
    boxed_item(alloc, Item::GenerateRegion(span, items.into_listed()))
}

/// The head of a loop generate construct, up to its `)`.
fn generate_loop(parts: &mut Parts<'_>) -> GenerateLoop
    requires { sorted r.LoopGenerate parts.old ≡ true }
    ensures value { result ≡ spec.generate_loop parts.old }
    ensures rest { parts.new ≡ rest (rest (rest (rest (rest (rest (rest (rest (rest (rest (rest parts.old)))))))))) }
{
    let span = parts.span();
    parts.skip();
    let name = parts.identifier();
    parts.skip();
    let start = parts.expr();
    parts.skip();
    let condition = parts.expr();
    parts.skip();
    let step_name = parts.identifier();
    parts.skip();
    let step = parts.expr();
    GenerateLoop {
        span,
        name,
        start,
        condition,
        step_name,
        step,
    }
}

/// A loop generate construct.
fn loop_generate<'a>(alloc: Global, parts: &mut Parts<'a>) -> Result<Value<'a>, AllocError>
    requires { sorted r.LoopGenerate parts.old ≡ true }
    ensures { IfOk result (λ x. x ≡ spec.made_item r.LoopGenerate parts.old) }
{
    let head = generate_loop(parts);
    parts.skip();
    boxed_item(alloc, Item::LoopGenerate(head, parts.item()))
}

/// A conditional generate construct.
fn conditional_generate<'a>(alloc: Global, parts: &mut Parts<'a>) -> Result<Value<'a>, AllocError>
    requires { sorted r.ConditionalGenerate parts.old ≡ true }
    ensures { IfOk result (λ x. x ≡ spec.made_item r.ConditionalGenerate parts.old) }
{
    let span = parts.span();
    parts.skip();
    let condition = parts.expr();
    parts.skip();
    let yes = parts.item();
    let no = parts.option_item();
    boxed_item(alloc, Item::IfGenerate(span, condition, yes, no))
}

/// A generate block.
fn generate_begin_end<'a>(alloc: Global, parts: &mut Parts<'a>) -> Result<Value<'a>, AllocError>
    ensures { IfOk result (λ x. x ≡ spec.made_item r.GenerateBeginEnd parts.old) }
{
    let span = parts.span();
    let name = parts.label();
    let items = parts.items(alloc);
    boxed_item(alloc, Item::GenerateBlock(span, name, items.into_listed()))
}

/// A `;` in the place of a generate block.
fn null_generate<'a>(alloc: Global, parts: &mut Parts<'a>) -> Result<Value<'a>, AllocError>
    ensures { IfOk result (λ x. x ≡ spec.made_item r.NullGenerate parts.old) }
{
    boxed_item(alloc, Item::NullGenerate(parts.span()))
}

/// What a production of items or of instances means.
#[inline(never)]
pub fn make_item<'a>(
    alloc: Global,
    rule: Rule,
    parts: &mut Parts<'a>,
) -> Result<Value<'a>, AllocError>
    requires { sorted rule parts.old ≡ true }
    ensures { IfOk result (λ x. x ≡ spec.made_item rule parts.old) }
{
    match rule {
        Rule::MoreModuleItems => more_items(alloc, parts),
        Rule::MoreGenerateItems => more_items(alloc, parts),
        Rule::GenerateRegion => generate_region(alloc, parts),
        Rule::ContinuousAssign => continuous_assign(alloc, parts),
        Rule::AlwaysConstruct => process(alloc, ProcessKind::Always, parts),
        Rule::InitialConstruct => process(alloc, ProcessKind::Initial, parts),
        Rule::ModuleInstantiation => module_instantiation(alloc, parts),
        Rule::LoopGenerate => loop_generate(alloc, parts),
        Rule::ConditionalGenerate => conditional_generate(alloc, parts),
        Rule::GenerateBeginEnd => generate_begin_end(alloc, parts),
        Rule::NullGenerate => null_generate(alloc, parts),
        Rule::SomeDelay => Ok(some_delay(parts)),
        Rule::NetAssigned => net_assigned(alloc, parts),
        Rule::NextNetAssignment => next_net_assignment(alloc, parts),
        Rule::NamedParameters => named_parameters(alloc, parts),
        Rule::OrderedParameters => ordered_parameters(alloc, parts),
        Rule::InstanceOfModule => module_instance(alloc, parts),
        Rule::NextModuleInstance => next_module_instance(alloc, parts),
        Rule::NamedConnections => named_connections(alloc, parts),
        Rule::OrderedConnections => ordered_connections(alloc, parts),
        Rule::ConnectionByName => Ok(connection_by_name(parts)),
        Rule::NextNamedConnection => next_named_connection(alloc, parts),
        Rule::NextOrderedConnection => next_ordered_connection(alloc, parts),
        _ => make_declaration(alloc, rule, parts),
    }
}
