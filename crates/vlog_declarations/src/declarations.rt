//! Declarations, from their parts (IEEE 1364-2005, A.2).
#![tactic(auto, unfolding(crate::specs::Declarations::made_declaration, vlog_parts::specs::Kinds::is_of_kind, vlog_grammar::specs::Grammar::production))]

ghost use Rattle.std.specs.Prelude.{◌≡◌, ◌∷◌, true, IfOk};
ghost use Rattle.vlog_grammar.specs.declared.rule.Rule.TheVariants as r;
ghost use Rattle.vlog_parts.specs.declared.value.Value.TheVariants as v;
ghost use Rattle.vlog_parts.specs.Sorts.{is_declared, is_parameter, is_parameter_type};
ghost use Rattle.vlog_parts.specs.Numbered.{first, rest, second, third};
ghost use Rattle.vlog_parts.specs.Values.{declared_of, declareds_of};
ghost use Rattle.vlog_declarations.specs.Declarations as spec;
ghost use Rattle.vlog_syntax.specs.declared.item.PlainItem.TheVariants as p;
ghost use Rattle.vlog_parts.specs.Kinds.{sorted};

use crate::modules::make_module;
use mcy_base::Span;
use std::alloc::{AllocError, Global};
use vlog_grammar::Rule;
use vlog_parts::{OutputNames, Parts, Value, boxed_output_names, boxed_plain};
use vlog_syntax::{
    DataDeclaration, DataType, DeclaredName, Direction, Identifier, ParameterAssignment,
    ParameterDeclaration, ParameterKind, ParameterType, PlainItem, PortDeclaration, Range,
    VectorType,
};

/// A range.
fn some_range<'a>(parts: &mut Parts<'a>) -> Value<'a>
    requires { sorted r.SomeRange parts.old ≡ true }
    ensures { result ≡ spec.made_declaration r.SomeRange parts.old }
{
    let span = parts.span();
    let msb = parts.expr();
    parts.skip();
    let lsb = parts.expr();
    Value::Range(Range { span, msb, lsb })
}

/// A vector without a sign.
fn unsigned_range<'a>(parts: &mut Parts<'a>) -> Value<'a>
    ensures { result ≡ spec.made_declaration r.UnsignedRange parts.old }
{
    Value::Vector(VectorType {
        is_signed: false,
        range: parts.range(),
    })
}

/// A vector with a sign.
fn signed_range<'a>(parts: &mut Parts<'a>) -> Value<'a>
    ensures { result ≡ spec.made_declaration r.SignedRange parts.old }
{
    parts.skip();
    Value::Vector(VectorType {
        is_signed: true,
        range: parts.range(),
    })
}

/// A declared name.
fn name_declared<'a>(parts: &mut Parts<'a>) -> Value<'a>
    requires { sorted r.NameDeclared parts.old ≡ true }
    ensures { result ≡ spec.made_declaration r.NameDeclared parts.old }
{
    Value::DeclaredName(DeclaredName {
        name: parts.identifier(),
        initial: None,
    })
}

/// The name of what is declared.
#[tactic(auto)]
fn declared_name(parts: &mut Parts<'_>) -> Identifier
    requires { is_declared (first parts.old) ≡ true }
    ensures name { result ≡ (declared_of (first parts.old)).name }
    ensures rest { parts.new ≡ rest parts.old }
{
    parts.declared().into_name()
}

/// A declared name with its initial value, where it has one.
fn variable_declared<'a>(parts: &mut Parts<'a>) -> Value<'a>
    requires { sorted r.VariableDeclared parts.old ≡ true }
    ensures { result ≡ spec.made_declaration r.VariableDeclared parts.old }
{
    let name = declared_name(parts);
    let initial = parts.option_expr();
    Value::DeclaredName(DeclaredName { name, initial })
}

/// A name behind a `,`, and those behind it.
#[tactic(auto)]
fn next_declared_name<'a>(alloc: Global, parts: &mut Parts<'a>) -> Result<Value<'a>, AllocError>
    requires { is_declared (second parts.old) ≡ true }
    ensures { IfOk result (λ x. x ≡ v.DeclaredNames (declared_of (second parts.old) ∷ declareds_of (third parts.old))) }
{
    parts.skip();
    let names = parts.some_declareds(alloc)?;
    Ok(Value::DeclaredNames(names))
}

/// A parameter with its value.
fn param_assigned<'a>(parts: &mut Parts<'a>) -> Value<'a>
    requires { sorted r.ParamAssigned parts.old ≡ true }
    ensures { result ≡ spec.made_declaration r.ParamAssigned parts.old }
{
    let name = declared_name(parts);
    parts.skip();
    let value = parts.expr();
    Value::Parameter(ParameterAssignment { name, value })
}

/// A parameter behind a `,`, and those behind it.
fn next_param_assignment<'a>(alloc: Global, parts: &mut Parts<'a>) -> Result<Value<'a>, AllocError>
    requires { sorted r.NextParamAssignment parts.old ≡ true }
    ensures { IfOk result (λ x. x ≡ spec.made_declaration r.NextParamAssignment parts.old) }
{
    parts.skip();
    let all = parts.some_parameters(alloc)?;
    Ok(Value::Parameters(all))
}

/// Outputs that are wires.
fn output_net<'a>(alloc: Global, parts: &mut Parts<'a>) -> Result<Value<'a>, AllocError>
    requires { sorted r.OutputNet parts.old ≡ true }
    ensures { IfOk result (λ x. x ≡ spec.made_declaration r.OutputNet parts.old) }
{
    let data_type = DataType::Wire(parts.vector());
    let names = parts.names_of_type(alloc, data_type)?;
    boxed_output_names(alloc, names)
}

/// Outputs that are variables.
fn output_reg<'a>(alloc: Global, parts: &mut Parts<'a>) -> Result<Value<'a>, AllocError>
    requires { sorted r.OutputReg parts.old ≡ true }
    ensures { IfOk result (λ x. x ≡ spec.made_declaration r.OutputReg parts.old) }
{
    parts.skip();
    let data_type = DataType::Reg(parts.vector());
    let names = parts.names_of_type(alloc, data_type)?;
    boxed_output_names(alloc, names)
}

/// Outputs that are integers.
fn output_integer<'a>(alloc: Global, parts: &mut Parts<'a>) -> Result<Value<'a>, AllocError>
    requires { sorted r.OutputInteger parts.old ≡ true }
    ensures { IfOk result (λ x. x ≡ spec.made_declaration r.OutputInteger parts.old) }
{
    parts.skip();
    let names = parts.names_of_type(alloc, DataType::Integer)?;
    boxed_output_names(alloc, names)
}

/// A declaration of parameters.
#[tactic(auto)]
fn parameter_declaration<'a>(
    alloc: Global,
    kind: ParameterKind,
    parts: &mut Parts<'a>,
) -> Result<Value<'a>, AllocError>
    requires data_type { is_parameter_type (second parts.old) ≡ true }
    requires first { is_parameter (third parts.old) ≡ true }
    ensures { IfOk result (λ x. x ≡ spec.parameters kind parts.old) }
{
    let span = parts.span();
    let data_type = parts.parameter_type();
    let first = parts.parameter();
    let (assignments, data_type) = parts.parameters(alloc).with_beside(first, data_type)?;
    boxed_plain(
        alloc,
        PlainItem::ParameterDeclaration(ParameterDeclaration {
            span,
            kind,
            data_type,
            assignments: assignments.into_listed(),
        }),
    )
}

/// A declaration of wires or variables.
#[tactic(auto)]
fn data_declaration<'a>(
    alloc: Global,
    span: Span,
    declared: OutputNames,
) -> Result<Value<'a>, AllocError>
    ensures { IfOk result (λ x. x ≡ spec.plain (p.DataDeclaration (record { span = span; data_type = declared.data_type; names = declared.names }))) }
{
    let OutputNames { data_type, names } = declared;
    boxed_plain(
        alloc,
        PlainItem::DataDeclaration(DataDeclaration {
            span,
            data_type,
            names: names.into_listed(),
        }),
    )
}

/// A declaration of ports.
#[tactic(auto)]
fn port_declaration<'a>(
    alloc: Global,
    span: Span,
    direction: Direction,
    declared: OutputNames,
) -> Result<Value<'a>, AllocError>
    ensures { IfOk result (λ x. x ≡ spec.plain (p.PortDeclaration (record { span = span; direction = direction; data_type = declared.data_type; names = declared.names }))) }
{
    let OutputNames { data_type, names } = declared;
    boxed_plain(
        alloc,
        PlainItem::PortDeclaration(PortDeclaration {
            span,
            direction,
            data_type,
            names: names.into_listed(),
        }),
    )
}

/// A declaration of inputs.
fn input_declaration<'a>(alloc: Global, parts: &mut Parts<'a>) -> Result<Value<'a>, AllocError>
    requires { sorted r.InputDeclaration parts.old ≡ true }
    ensures { IfOk result (λ x. x ≡ spec.made_declaration r.InputDeclaration parts.old) }
{
    let span = parts.span();
    let data_type = DataType::Wire(parts.vector());
    let declared = parts.names_of_type(alloc, data_type)?;
    port_declaration(alloc, span, Direction::Input, declared)
}

/// A declaration of outputs.
fn output_declaration<'a>(alloc: Global, parts: &mut Parts<'a>) -> Result<Value<'a>, AllocError>
    requires { sorted r.OutputDeclaration parts.old ≡ true }
    ensures { IfOk result (λ x. x ≡ spec.made_declaration r.OutputDeclaration parts.old) }
{
    let span = parts.span();
    port_declaration(alloc, span, Direction::Output, parts.output_names())
}

/// A declaration of wires.
fn net_declaration<'a>(alloc: Global, parts: &mut Parts<'a>) -> Result<Value<'a>, AllocError>
    requires { sorted r.NetDeclaration parts.old ≡ true }
    ensures { IfOk result (λ x. x ≡ spec.made_declaration r.NetDeclaration parts.old) }
{
    let span = parts.span();
    let data_type = DataType::Wire(parts.vector());
    let declared = parts.names_of_type(alloc, data_type)?;
    data_declaration(alloc, span, declared)
}

/// A declaration of variables.
fn reg_declaration<'a>(alloc: Global, parts: &mut Parts<'a>) -> Result<Value<'a>, AllocError>
    requires { sorted r.RegDeclaration parts.old ≡ true }
    ensures { IfOk result (λ x. x ≡ spec.made_declaration r.RegDeclaration parts.old) }
{
    let span = parts.span();
    let data_type = DataType::Reg(parts.vector());
    let declared = parts.names_of_type(alloc, data_type)?;
    data_declaration(alloc, span, declared)
}

/// A declaration of integers.
fn integer_declaration<'a>(alloc: Global, parts: &mut Parts<'a>) -> Result<Value<'a>, AllocError>
    requires { sorted r.IntegerDeclaration parts.old ≡ true }
    ensures { IfOk result (λ x. x ≡ spec.made_declaration r.IntegerDeclaration parts.old) }
{
    let span = parts.span();
    let declared = parts.names_of_type(alloc, DataType::Integer)?;
    data_declaration(alloc, span, declared)
}

/// A declaration of genvars.
fn genvar_declaration<'a>(alloc: Global, parts: &mut Parts<'a>) -> Result<Value<'a>, AllocError>
    requires { sorted r.GenvarDeclaration parts.old ≡ true }
    ensures { IfOk result (λ x. x ≡ spec.made_declaration r.GenvarDeclaration parts.old) }
{
    let span = parts.span();
    let names = parts.some_declareds(alloc)?;
    boxed_plain(
        alloc,
        PlainItem::GenvarDeclaration(span, names.into_listed()),
    )
}

/// The type of parameters that are vectors.
fn vector_parameter<'a>(parts: &mut Parts<'a>) -> Value<'a>
    requires { sorted r.VectorParameter parts.old ≡ true }
    ensures { result ≡ spec.made_declaration r.VectorParameter parts.old }
{
    let vector = parts.vector();
    Value::ParameterType(ParameterType::Vector(vector))
}

/// What a production of declarations means.
#[inline(never)]
pub fn make_declaration<'a>(
    alloc: Global,
    rule: Rule,
    parts: &mut Parts<'a>,
) -> Result<Value<'a>, AllocError>
    requires { sorted rule parts.old ≡ true }
    ensures { IfOk result (λ x. x ≡ spec.made_declaration rule parts.old) }
{
    match rule {
        Rule::UnsignedRange => Ok(unsigned_range(parts)),
        Rule::SignedRange => Ok(signed_range(parts)),
        Rule::SomeRange => Ok(some_range(parts)),
        Rule::NameDeclared => Ok(name_declared(parts)),
        Rule::NextDeclaredName => next_declared_name(alloc, parts),
        Rule::NextVariable => next_declared_name(alloc, parts),
        Rule::VariableDeclared => Ok(variable_declared(parts)),
        Rule::VectorParameter => Ok(vector_parameter(parts)),
        Rule::IntegerParameter => Ok(Value::ParameterType(ParameterType::Integer)),
        Rule::ParamAssigned => Ok(param_assigned(parts)),
        Rule::NextParamAssignment => next_param_assignment(alloc, parts),
        Rule::OutputNet => output_net(alloc, parts),
        Rule::OutputReg => output_reg(alloc, parts),
        Rule::OutputInteger => output_integer(alloc, parts),
        Rule::InputDeclaration => input_declaration(alloc, parts),
        Rule::OutputDeclaration => output_declaration(alloc, parts),
        Rule::ParameterDeclaration => parameter_declaration(alloc, ParameterKind::Parameter, parts),
        Rule::LocalParameterDeclaration => parameter_declaration(
            alloc,
            ParameterKind::Localparam,
            parts,
        ),
        Rule::NetDeclaration => net_declaration(alloc, parts),
        Rule::RegDeclaration => reg_declaration(alloc, parts),
        Rule::IntegerDeclaration => integer_declaration(alloc, parts),
        Rule::GenvarDeclaration => genvar_declaration(alloc, parts),
        _ => make_module(alloc, rule, parts),
    }
}
