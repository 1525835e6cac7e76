//! Instances, from their parts (IEEE 1364-2005, A.4.1).
#![tactic(auto, unfolding(crate::specs::Items::made_item, vlog_parts::specs::Kinds::is_of_kind, vlog_grammar::specs::Grammar::production))]

ghost use Rattle.std.specs.Prelude.{◌≡◌, true, IfOk};
ghost use Rattle.vlog_grammar.specs.declared.rule.Rule.TheVariants as r;
ghost use Rattle.vlog_syntax.specs.declared.item.Connections.TheVariants as co;
ghost use Rattle.vlog_items.specs.Items as spec;
ghost use Rattle.vlog_parts.specs.Kinds.{sorted};

use std::alloc::{AllocError, Global};
use vlog_parts::{Parts, Stack, Value, boxed_instance, boxed_plain, identifier};
use vlog_syntax::{
    Boxed, Connections, Expr, Instance, NamedConnection, ParameterValues, PlainItem,
};

/// Parameters by name.
pub fn named_parameters<'a>(alloc: Global, parts: &mut Parts<'a>) -> Result<Value<'a>, AllocError>
    requires { sorted r.NamedParameters parts.old ≡ true }
    ensures { IfOk result (λ x. x ≡ spec.made_item r.NamedParameters parts.old) }
{
    let all = parts.some_connections(alloc)?;
    Ok(Value::ParameterValues(ParameterValues::Named(all.into_listed())))
}

/// Parameters by place.
pub fn ordered_parameters<'a>(alloc: Global, parts: &mut Parts<'a>) -> Result<Value<'a>, AllocError>
    requires { sorted r.OrderedParameters parts.old ≡ true }
    ensures { IfOk result (λ x. x ≡ spec.made_item r.OrderedParameters parts.old) }
{
    let all = parts.some_exprs(alloc)?;
    Ok(Value::ParameterValues(ParameterValues::Ordered(all.into_listed())))
}

/// An instance.
pub fn module_instance<'a>(alloc: Global, parts: &mut Parts<'a>) -> Result<Value<'a>, AllocError>
    requires { sorted r.InstanceOfModule parts.old ≡ true }
    ensures { IfOk result (λ x. x ≡ spec.made_item r.InstanceOfModule parts.old) }
{
    let name = parts.identifier();
    parts.skip();
    let ports = parts.ports();
    boxed_instance(alloc, Instance { name, ports })
}

/// An instance behind a `,`, and those behind it.
pub fn next_module_instance<'a>(
    alloc: Global,
    parts: &mut Parts<'a>,
) -> Result<Value<'a>, AllocError>
    requires { sorted r.NextModuleInstance parts.old ≡ true }
    ensures { IfOk result (λ x. x ≡ spec.made_item r.NextModuleInstance parts.old) }
{
    parts.skip();
    let all = parts.some_instances(alloc)?;
    Ok(Value::Instances(all))
}

/// Ports by name.
pub fn named_connections<'a>(alloc: Global, parts: &mut Parts<'a>) -> Result<Value<'a>, AllocError>
    requires { sorted r.NamedConnections parts.old ≡ true }
    ensures { IfOk result (λ x. x ≡ spec.made_item r.NamedConnections parts.old) }
{
    let all = parts.some_connections(alloc)?;
    Ok(Value::Connections(Connections::Named(all.into_listed())))
}

/// Ports by place. One that is left empty, alone, is none.
#[tactic(auto, unfolding(crate::specs::Items::placed))]
fn placed(
    first: Option<Boxed<Expr>>,
    others: Stack<Option<Boxed<Expr>>>,
) -> Result<Connections, AllocError>
    ensures { IfOk result (λ c. c ≡ co.Ordered (spec.placed first others)) }
{
    let mut ports = others;
    if first.is_some() || ports.len() > 0 {
        ports.push(first)?;
    }
    Ok(Connections::Ordered(ports.into_listed()))
}

/// Ports by place.
pub fn ordered_connections<'a>(
    alloc: Global,
    parts: &mut Parts<'a>,
) -> Result<Value<'a>, AllocError>
    ensures { IfOk result (λ x. x ≡ spec.made_item r.OrderedConnections parts.old) }
{
    let first = parts.option_expr();
    let others = parts.ordered(alloc);
    Ok(Value::Connections(placed(first, others)?))
}

/// A port by its name.
pub fn connection_by_name<'a>(parts: &mut Parts<'a>) -> Value<'a>
    requires { sorted r.ConnectionByName parts.old ≡ true }
    ensures { result ≡ spec.made_item r.ConnectionByName parts.old }
{
    parts.skip();
    let name = parts.identifier();
    parts.skip();
    let value = parts.option_expr();
    Value::Connection(NamedConnection { name, value })
}

/// A port behind a `,`, and those behind it.
pub fn next_named_connection<'a>(
    alloc: Global,
    parts: &mut Parts<'a>,
) -> Result<Value<'a>, AllocError>
    requires { sorted r.NextNamedConnection parts.old ≡ true }
    ensures { IfOk result (λ x. x ≡ spec.made_item r.NextNamedConnection parts.old) }
{
    parts.skip();
    let all = parts.some_connections(alloc)?;
    Ok(Value::NamedConnections(all))
}

/// A port behind a `,`, and those behind it.
pub fn next_ordered_connection<'a>(
    alloc: Global,
    parts: &mut Parts<'a>,
) -> Result<Value<'a>, AllocError>
    ensures { IfOk result (λ x. x ≡ spec.made_item r.NextOrderedConnection parts.old) }
{
    parts.skip();
    let first = parts.option_expr();
    let all = parts.ordered(alloc).with(first)?;
    Ok(Value::OrderedConnections(all))
}

/// Instances of a module.
pub fn module_instantiation<'a>(
    alloc: Global,
    parts: &mut Parts<'a>,
) -> Result<Value<'a>, AllocError>
    requires { sorted r.ModuleInstantiation parts.old ≡ true }
    ensures { IfOk result (λ x. x ≡ spec.made_item r.ModuleInstantiation parts.old) }
{
    let module = identifier(alloc, parts.token())?;
    let parameters = parts.parameter_values(alloc);
    let first = parts.instance();
    let (instances, (module, parameters)) = parts
        .instances(alloc)
        .with_beside(first, (module, parameters))?;
    boxed_plain(
        alloc,
        PlainItem::ModuleInstantiation(module, parameters, instances.into_listed()),
    )
}
