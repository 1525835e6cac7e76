//! What a production means, in a box where it is large.
ghost use Rattle.std.specs.Prelude.{◌≡◌, ◌∷◌, IfOk};
ghost use Rattle.vlog_syntax.specs.declared.item.Item.TheVariants as i;
ghost use Rattle.vlog_parts.specs.declared.value.Value.TheVariants as v;

use crate::declaration_parts::OutputNames;
use crate::expression_parts::Branches;
use crate::module_parts::{OutputPorts, ParameterPort};
use crate::stack::Stack;
use crate::value::Value;
use std::alloc::{AllocError, Global};
use vlog_syntax::{Assignment, Boxed, Expr, Instance, Item, LeftSide, Module, PlainItem, Stmt};

/// An expression in a box.
#[inline(never)]
pub fn boxed_expr<'a>(alloc: Global, expr: Expr) -> Result<Value<'a>, AllocError>
    ensures { IfOk result (λ x. x ≡ v.Expr expr) }
{
    Ok(Value::Expr(Boxed::new(alloc, expr)?))
}

/// The branches of a condition in a box.
#[inline(never)]
pub fn boxed_branches<'a>(alloc: Global, branches: Branches) -> Result<Value<'a>, AllocError>
    ensures { IfOk result (λ x. x ≡ v.Branches branches) }
{
    Ok(Value::Branches(Boxed::new(alloc, branches)?))
}

/// A statement in a box.
#[inline(never)]
pub fn boxed_stmt<'a>(alloc: Global, stmt: Stmt) -> Result<Value<'a>, AllocError>
    ensures { IfOk result (λ x. x ≡ v.Stmt stmt) }
{
    Ok(Value::Stmt(Boxed::new(alloc, stmt)?))
}

/// An item in a box.
#[inline(never)]
pub fn boxed_item<'a>(alloc: Global, item: Item) -> Result<Value<'a>, AllocError>
    ensures { IfOk result (λ x. x ≡ v.Item item) }
{
    Ok(Value::Item(Boxed::new(alloc, item)?))
}

/// An item that holds no other, in its boxes.
pub fn boxed_plain<'a>(alloc: Global, item: PlainItem) -> Result<Value<'a>, AllocError>
    ensures { IfOk result (λ x. x ≡ v.Item (i.Plain item)) }
{
    let item = Boxed::new(alloc, item)?;
    boxed_item(alloc, Item::Plain(item))
}

/// A left side in a box.
#[inline(never)]
pub fn boxed_left<'a>(alloc: Global, left: LeftSide) -> Result<Value<'a>, AllocError>
    ensures { IfOk result (λ x. x ≡ v.LeftSide left) }
{
    Ok(Value::LeftSide(Boxed::new(alloc, left)?))
}

/// An assignment in a box.
#[inline(never)]
pub fn boxed_assignment<'a>(alloc: Global, assignment: Assignment) -> Result<Value<'a>, AllocError>
    ensures { IfOk result (λ x. x ≡ v.Assignment assignment) }
{
    Ok(Value::Assignment(Boxed::new(alloc, assignment)?))
}

/// An instance in a box.
#[inline(never)]
pub fn boxed_instance<'a>(alloc: Global, instance: Instance) -> Result<Value<'a>, AllocError>
    ensures { IfOk result (λ x. x ≡ v.Instance instance) }
{
    Ok(Value::Instance(Boxed::new(alloc, instance)?))
}

/// Outputs of one type in a box.
#[inline(never)]
pub fn boxed_output_names<'a>(alloc: Global, names: OutputNames) -> Result<Value<'a>, AllocError>
    ensures { IfOk result (λ x. x ≡ v.OutputNames names) }
{
    Ok(Value::OutputNames(Boxed::new(alloc, names)?))
}

/// Outputs of one type, and the declarations behind them, in a box.
#[inline(never)]
pub fn boxed_output_ports<'a>(alloc: Global, ports: OutputPorts) -> Result<Value<'a>, AllocError>
    ensures { IfOk result (λ x. x ≡ v.OutputPorts ports) }
{
    Ok(Value::OutputPorts(Boxed::new(alloc, ports)?))
}

/// A parameter in the head of a module in a box.
#[inline(never)]
pub fn boxed_parameter_port<'a>(alloc: Global, port: ParameterPort) -> Result<Value<'a>, AllocError>
    ensures { IfOk result (λ x. x ≡ v.ParameterPort port) }
{
    Ok(Value::ParameterPort(Boxed::new(alloc, port)?))
}

/// A module, and those behind it.
pub fn some_modules<'a>(first: Module, behind: Stack<Module>) -> Result<Value<'a>, AllocError>
    ensures { IfOk result (λ x. x ≡ v.Modules (first ∷ behind)) }
{
    Ok(Value::Modules(behind.with(first)?))
}
