//! Modules, from their parts (IEEE 1364-2005, A.1).
#![tactic(auto, unfolding(crate::specs::Modules::made_module, vlog_parts::specs::Kinds::is_of_kind, vlog_grammar::specs::Grammar::production))]

ghost use Rattle.std.specs.Prelude.{◌≡◌, [], true, IfOk};
ghost use Rattle.vlog_grammar.specs.declared.rule.Rule.TheVariants as r;
ghost use Rattle.vlog_parts.specs.declared.value.Value.TheVariants as v;
ghost use Rattle.vlog_parts.specs.declared.module_parts.ParameterPort.TheVariants as pp;
ghost use Rattle.vlog_parts.specs.Sorts.{is_declared};
ghost use Rattle.vlog_parts.specs.Numbered.{first};
ghost use Rattle.vlog_parts.specs.Values.{declarations_of};
ghost use Rattle.vlog_parts.specs.Kinds.{sorted};
ghost use Rattle.vlog_declarations.specs.Modules as spec;

use mcy_base::Span;
use std::alloc::{AllocError, Global};
use vlog_grammar::Rule;
use vlog_parts::{
    MoreParameters, MorePorts, OutputPorts, ParameterPort, Parts, Stack, Value, boxed_output_ports,
    boxed_parameter_port, some_modules,
};
use vlog_syntax::{
    DataType, Direction, Module, ParameterAssignment, ParameterDeclaration, ParameterKind,
    ParameterType, PortDeclaration, Ports,
};

/// A parameter in front of those behind it, of its type.
#[tactic(auto, unfolding(crate::specs::Modules::joined))]
fn joined_next(
    assignment: ParameterAssignment,
    more: MoreParameters,
) -> Result<MoreParameters, AllocError>
    ensures { IfOk result (λ m. m ≡ spec.joined (pp.Next assignment) more) }
{
    let MoreParameters { same, others } = more;
    let (same, others) = same.with_beside(assignment, others)?;
    Ok(MoreParameters { same, others })
}

/// A parameter with its type, in front of those behind it.
#[tactic(auto, unfolding(crate::specs::Modules::joined))]
fn joined_first(
    span: Span,
    data_type: ParameterType,
    assignment: ParameterAssignment,
    more: MoreParameters,
) -> Result<Stack<ParameterDeclaration>, AllocError>
    ensures { IfOk result (λ l. l ≡ (spec.joined (pp.First span data_type assignment) more).others) }
{
    let MoreParameters { same, others } = more;
    let (same, (others, data_type)) = same.with_beside(assignment, (others, data_type))?;
    others.with(ParameterDeclaration {
        span,
        kind: ParameterKind::Parameter,
        data_type,
        assignments: same.into_listed(),
    })
}

/// A parameter in front of those behind it.
#[tactic(auto, unfolding(crate::specs::Modules::joined))]
fn joined(
    alloc: Global,
    port: ParameterPort,
    more: MoreParameters,
) -> Result<MoreParameters, AllocError>
    ensures { IfOk result (λ m. m ≡ spec.joined port more) }
{
    match port {
        ParameterPort::Next(assignment) => joined_next(assignment, more),
        ParameterPort::First(span, data_type, assignment) => {
            let others = joined_first(span, data_type, assignment, more)?;
            Ok(MoreParameters {
                same: Stack::new(alloc),
                others,
            })
        }
    }
}

/// The parameters of a module.
fn parameter_port_list<'a>(alloc: Global, parts: &mut Parts<'a>) -> Result<Value<'a>, AllocError>
    requires { sorted r.ParameterPortList parts.old ≡ true }
    ensures { IfOk result (λ x. x ≡ spec.made_module r.ParameterPortList parts.old) }
{
    parts.skip();
    parts.skip();
    let span = parts.span();
    let data_type = parts.parameter_type();
    let first = parts.parameter();
    let more = parts.more_parameters(alloc);
    let all = joined_first(span, data_type, first, more)?;
    Ok(Value::ParameterDeclarations(all))
}

/// A parameter behind a `,`, and those behind it.
fn next_parameter_port<'a>(alloc: Global, parts: &mut Parts<'a>) -> Result<Value<'a>, AllocError>
    requires { sorted r.NextParameterPort parts.old ≡ true }
    ensures { IfOk result (λ x. x ≡ spec.made_module r.NextParameterPort parts.old) }
{
    parts.skip();
    let port = parts.parameter_port();
    let more = parts.more_parameters(alloc);
    Ok(Value::MoreParameters(joined(alloc, port, more)?))
}

/// A parameter with its type.
fn parameter_port_declaration<'a>(
    alloc: Global,
    parts: &mut Parts<'a>,
) -> Result<Value<'a>, AllocError>
    requires { sorted r.ParameterPortDeclaration parts.old ≡ true }
    ensures { IfOk result (λ x. x ≡ spec.made_module r.ParameterPortDeclaration parts.old) }
{
    let span = parts.span();
    let data_type = parts.parameter_type();
    let parameter = parts.parameter();
    boxed_parameter_port(alloc, ParameterPort::First(span, data_type, parameter))
}

/// Ports by name.
fn port_references<'a>(alloc: Global, parts: &mut Parts<'a>) -> Result<Value<'a>, AllocError>
    requires { sorted r.PortReferences parts.old ≡ true }
    ensures { IfOk result (λ x. x ≡ spec.made_module r.PortReferences parts.old) }
{
    let all = parts.some_identifiers(alloc)?;
    Ok(Value::Ports(Ports::Names(all.into_listed())))
}

/// Ports by their declarations.
fn port_declarations<'a>(alloc: Global, parts: &mut Parts<'a>) -> Value<'a>
    ensures { result ≡ spec.made_module r.PortDeclarations parts.old }
{
    let declarations = parts.declarations(alloc);
    Value::Ports(Ports::Declarations(declarations.into_listed()))
}

/// A name behind a `,`, and those behind it.
fn next_identifier<'a>(alloc: Global, parts: &mut Parts<'a>) -> Result<Value<'a>, AllocError>
    requires { sorted r.NextIdentifier parts.old ≡ true }
    ensures { IfOk result (λ x. x ≡ spec.made_module r.NextIdentifier parts.old) }
{
    parts.skip();
    let all = parts.some_identifiers(alloc)?;
    Ok(Value::Identifiers(all))
}

/// Ports of a type: a port in front of those behind it.
#[tactic(auto)]
fn typed_front(
    alloc: Global,
    data_type: DataType,
    parts: &mut Parts<'_>,
) -> Result<OutputPorts, AllocError>
    requires { is_declared (first parts.old) ≡ true }
    ensures { IfOk result (λ m. m ≡ record { data_type = data_type; names = (spec.front parts.old).same; others = (spec.front parts.old).others }) }
{
    let first = parts.declared();
    let MorePorts { same, others } = parts.more_ports(alloc);
    let (names, (others, data_type)) = same.with_beside(first, (others, data_type))?;
    Ok(OutputPorts {
        data_type,
        names,
        others,
    })
}

/// A port in front of those behind it.
#[tactic(auto)]
fn front(alloc: Global, parts: &mut Parts<'_>) -> Result<MorePorts, AllocError>
    requires { is_declared (first parts.old) ≡ true }
    ensures { IfOk result (λ m. m ≡ spec.front parts.old) }
{
    let first = parts.declared();
    let MorePorts { same, others } = parts.more_ports(alloc);
    let (same, others) = same.with_beside(first, others)?;
    Ok(MorePorts { same, others })
}

/// Inputs, and the declarations behind them.
fn input_ports<'a>(alloc: Global, parts: &mut Parts<'a>) -> Result<Value<'a>, AllocError>
    requires { sorted r.InputPorts parts.old ≡ true }
    ensures { IfOk result (λ x. x ≡ spec.made_module r.InputPorts parts.old) }
{
    let span = parts.span();
    let data_type = DataType::Wire(parts.vector());
    let OutputPorts {
        data_type,
        names,
        others,
    } = typed_front(alloc, data_type, parts)?;
    let all = others.with(PortDeclaration {
        span,
        direction: Direction::Input,
        data_type,
        names: names.into_listed(),
    })?;
    Ok(Value::PortDeclarations(all))
}

/// Outputs, and the declarations behind them.
fn output_ports<'a>(alloc: Global, parts: &mut Parts<'a>) -> Result<Value<'a>, AllocError>
    requires { sorted r.OutputPorts parts.old ≡ true }
    ensures { IfOk result (λ x. x ≡ spec.made_module r.OutputPorts parts.old) }
{
    let span = parts.span();
    let OutputPorts {
        data_type,
        names,
        others,
    } = parts.output_ports();
    let all = others.with(PortDeclaration {
        span,
        direction: Direction::Output,
        data_type,
        names: names.into_listed(),
    })?;
    Ok(Value::PortDeclarations(all))
}

/// Outputs of one type.
#[tactic(auto)]
fn outputs<'a>(
    alloc: Global,
    data_type: DataType,
    parts: &mut Parts<'a>,
) -> Result<Value<'a>, AllocError>
    requires { is_declared (first parts.old) ≡ true }
    ensures { IfOk result (λ x. x ≡ spec.outputs data_type parts.old) }
{
    let ports = typed_front(alloc, data_type, parts)?;
    boxed_output_ports(alloc, ports)
}

/// Outputs that are wires.
fn output_net_ports<'a>(alloc: Global, parts: &mut Parts<'a>) -> Result<Value<'a>, AllocError>
    requires { sorted r.OutputNetPorts parts.old ≡ true }
    ensures { IfOk result (λ x. x ≡ spec.made_module r.OutputNetPorts parts.old) }
{
    let data_type = DataType::Wire(parts.vector());
    outputs(alloc, data_type, parts)
}

/// Outputs that are variables.
fn output_reg_ports<'a>(alloc: Global, parts: &mut Parts<'a>) -> Result<Value<'a>, AllocError>
    requires { sorted r.OutputRegPorts parts.old ≡ true }
    ensures { IfOk result (λ x. x ≡ spec.made_module r.OutputRegPorts parts.old) }
{
    parts.skip();
    let data_type = DataType::Reg(parts.vector());
    outputs(alloc, data_type, parts)
}

/// Outputs that are integers.
fn output_integer_ports<'a>(alloc: Global, parts: &mut Parts<'a>) -> Result<Value<'a>, AllocError>
    requires { sorted r.OutputIntegerPorts parts.old ≡ true }
    ensures { IfOk result (λ x. x ≡ spec.made_module r.OutputIntegerPorts parts.old) }
{
    parts.skip();
    outputs(alloc, DataType::Integer, parts)
}

/// A port, and those behind it.
#[tactic(auto)]
fn more_ports<'a>(alloc: Global, parts: &mut Parts<'a>) -> Result<Value<'a>, AllocError>
    requires { is_declared (first parts.old) ≡ true }
    ensures { IfOk result (λ x. x ≡ v.MorePorts (spec.front parts.old)) }
{
    Ok(Value::MorePorts(front(alloc, parts)?))
}

/// Declarations behind a `,`.
#[tactic(auto)]
fn other_ports<'a>(alloc: Global, parts: &mut Parts<'a>) -> Value<'a>
    ensures { result ≡ v.MorePorts (record { same = []; others = declarations_of (first parts.old) }) }
{
    let others = parts.declarations(alloc);
    Value::MorePorts(MorePorts {
        same: Stack::new(alloc),
        others,
    })
}

/// A module, and those behind it.
fn module_declaration<'a>(alloc: Global, parts: &mut Parts<'a>) -> Result<Value<'a>, AllocError>
    requires { sorted r.ModuleDeclaration parts.old ≡ true }
    ensures { IfOk result (λ x. x ≡ spec.made_module r.ModuleDeclaration parts.old) }
{
    parts.skip();
    let name = parts.identifier();
    let span = name.span;
    let parameters = parts.parameter_ports(alloc);
    let ports = parts.port_list(alloc);
    parts.skip();
    let items = parts.items(alloc);
    parts.skip();
    let module = Module {
        name: name.into_name(),
        span,
        parameters: parameters.into_listed(),
        ports,
        items: items.into_listed(),
    };
    some_modules(module, parts.modules(alloc))
}

/// A parameter of the type before it.
fn parameter_port_assignment<'a>(
    alloc: Global,
    parts: &mut Parts<'a>,
) -> Result<Value<'a>, AllocError>
    requires { sorted r.ParameterPortAssignment parts.old ≡ true }
    ensures { IfOk result (λ x. x ≡ spec.made_module r.ParameterPortAssignment parts.old) }
{
    boxed_parameter_port(alloc, ParameterPort::Next(parts.parameter()))
}

/// What a production of modules means.
#[inline(never)]
pub fn make_module<'a>(
    alloc: Global,
    rule: Rule,
    parts: &mut Parts<'a>,
) -> Result<Value<'a>, AllocError>
    requires { sorted rule parts.old ≡ true }
    ensures { IfOk result (λ x. x ≡ spec.made_module rule parts.old) }
{
    match rule {
        Rule::ModuleDeclaration => module_declaration(alloc, parts),
        Rule::ParameterPortList => parameter_port_list(alloc, parts),
        Rule::NextParameterPort => next_parameter_port(alloc, parts),
        Rule::ParameterPortDeclaration => parameter_port_declaration(alloc, parts),
        Rule::ParameterPortAssignment => parameter_port_assignment(alloc, parts),
        Rule::PortReferences => port_references(alloc, parts),
        Rule::PortDeclarations => Ok(port_declarations(alloc, parts)),
        Rule::NextIdentifier => next_identifier(alloc, parts),
        Rule::InputPorts => input_ports(alloc, parts),
        Rule::OutputPorts => output_ports(alloc, parts),
        Rule::OutputNetPorts => output_net_ports(alloc, parts),
        Rule::OutputRegPorts => output_reg_ports(alloc, parts),
        Rule::OutputIntegerPorts => output_integer_ports(alloc, parts),
        Rule::NetPortName => more_ports(alloc, parts),
        Rule::VariablePortName => more_ports(alloc, parts),
        Rule::NetPortDeclaration => Ok(other_ports(alloc, parts)),
        Rule::VariablePortDeclaration => Ok(other_ports(alloc, parts)),
        _ => Ok(Value::Nothing),
    }
}
