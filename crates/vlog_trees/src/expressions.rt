//! Expressions, from their parts (IEEE 1364-2005, A.8).
#![tactic(auto, unfolding(crate::specs::Expressions::made_expression, vlog_parts::specs::Kinds::is_of_kind, vlog_grammar::specs::Grammar::production))]

ghost use Rattle.std.specs.Prelude.{◌≡◌, ◌∷◌, true, IfOk};
ghost use Rattle.vlog_syntax.specs.declared.expr.Expr.TheVariants as e;
ghost use Rattle.vlog_grammar.specs.declared.rule.Rule.TheVariants as r;
ghost use Rattle.vlog_parts.specs.declared.value.Value.TheVariants as v;
ghost use Rattle.vlog_parts.specs.Sorts.{is_expr};
ghost use Rattle.vlog_parts.specs.Numbered.{first, rest, second, third};
ghost use Rattle.vlog_parts.specs.Values.{span_of, token_of, expr_of, exprs_of};
ghost use Rattle.vlog_parts.specs.Leaves.{identifier, number};
ghost use Rattle.vlog_trees.specs.Expressions as spec;
ghost use Rattle.vlog_parts.specs.Kinds.{sorted};
ghost use Rattle.vlog_trees.specs.Passed.{made_passed};

use crate::selects::{
    indexed_part_select, left_concatenation, left_name, next_left_side, part_select, some_select,
};
use mcy_base::Span;
use std::alloc::{AllocError, Global};
use vlog_grammar::Rule;
use vlog_parts::{
    BraceEnd, Branches, Link, Parts, Select, SelectEnd, Stack, Value, boxed_branches, boxed_expr,
    boxed_left, identifier, number,
};
use vlog_statements::make_statement;
use vlog_syntax::{BinaryOperator, Boxed, Expr, Identifier, UnaryOperator};

#[tactic(auto, using(crate::proofs::Chains::chained_none, crate::proofs::Chains::chained_more))]
/// Operators of one precedence, to the left.
fn chained(
    alloc: Global,
    operand: Boxed<Expr>,
    chain: Stack<Link>,
) -> Result<Boxed<Expr>, AllocError>
    ensures { IfOk result (λ e. e ≡ spec.chained operand chain) }
{
    let mut left = operand;
    let mut chain = chain;
    while let Some(link) = chain.pop() {
        left = Boxed::new(
            alloc,
            Expr::Binary(link.span, link.operator, left, link.right),
        )?;
    }
    Ok(left)
}

/// An operand with what stands behind it: operators of one precedence, or the branches of a condition.
#[tactic(auto, unfolding(crate::specs::Expressions::extended))]
fn extended(
    alloc: Global,
    operand: Boxed<Expr>,
    value: Value<'_>,
) -> Result<Boxed<Expr>, AllocError>
    ensures { IfOk result (λ e. e ≡ spec.extended operand value.entry) }
{
    match value {
        Value::Chain(chain) => chained(alloc, operand, chain),
        Value::Branches(branches) => {
            let Branches { span, yes, no } = branches.into_inner();
            Boxed::new(alloc, Expr::Conditional(span, operand, yes, no))
        }
        other => {
            drop(other);
            Ok(operand)
        }
    }
}

#[tactic(auto, using(crate::proofs::Chains::operated_none, crate::proofs::Chains::operated_more))]
/// An operand with all that stands behind it.
fn operated<'a>(alloc: Global, parts: &mut Parts<'a>) -> Result<Value<'a>, AllocError>
    requires { is_expr (first parts.old) ≡ true }
    ensures { IfOk result (λ x. x ≡ v.Expr (spec.operated (expr_of (first parts.old)) (rest parts.old))) }
{
    let mut operand = parts.expr();
    while let Some(value) = parts.pop() {
        operand = extended(alloc, operand, value)?;
    }
    Ok(Value::Expr(operand))
}

#[tactic(auto, using(crate::proofs::Chains::linked_more, crate::proofs::Chains::linked_last, crate::proofs::Chains::rest_shorter))]
/// An operator with its right operand, and the chain that goes on.
fn link<'a>(
    alloc: Global,
    operator: BinaryOperator,
    parts: &mut Parts<'a>,
) -> Result<Value<'a>, AllocError>
    requires { is_expr (second parts.old) ≡ true }
    ensures { IfOk result (λ x. x ≡ spec.link operator parts.old) }
{
    let span = parts.span();
    let mut right = parts.expr();
    while parts.len() > 1 {
        right = extended(alloc, right, parts.next())?;
    }
    let chain = parts.chain(alloc).with(Link {
        span,
        operator,
        right,
    })?;
    Ok(Value::Chain(chain))
}

/// An operator before its operand.
#[tactic(auto)]
fn unary(operator: UnaryOperator, parts: &mut Parts<'_>) -> Expr
    requires { is_expr (second parts.old) ≡ true }
    ensures { v.Expr result ≡ spec.unary operator parts.old }
{
    let span = parts.span();
    Expr::Unary(span, operator, parts.expr())
}

/// The branches of a condition.
fn branches(parts: &mut Parts<'_>) -> Branches
    requires { sorted r.SomeCondition parts.old ≡ true }
    ensures { v.Branches result ≡ spec.made_expression r.SomeCondition parts.old }
{
    let span = parts.span();
    let yes = parts.expr();
    parts.skip();
    let no = parts.expr();
    Branches { span, yes, no }
}

/// An identifier.
#[tactic(auto)]
fn name<'a>(alloc: Global, parts: &mut Parts<'a>) -> Result<Value<'a>, AllocError>
    ensures { IfOk result (λ x. x ≡ v.Identifier (identifier (token_of (first parts.old)))) }
{
    let token = parts.token();
    Ok(Value::Identifier(identifier(alloc, token)?))
}

/// An expression behind a `,` or `(`, and those behind it.
#[tactic(auto)]
fn next_expression<'a>(alloc: Global, parts: &mut Parts<'a>) -> Result<Value<'a>, AllocError>
    requires { is_expr (second parts.old) ≡ true }
    ensures { IfOk result (λ x. x ≡ v.Exprs (expr_of (second parts.old) ∷ exprs_of (third parts.old))) }
{
    parts.skip();
    let exprs = parts.some_exprs(alloc)?;
    Ok(Value::Exprs(exprs))
}

/// A name or a select of it, in an expression.
#[tactic(auto, unfolding(crate::specs::Expressions::selected))]
fn selected(name: Identifier, select: Option<Select>) -> Expr
    ensures { result ≡ spec.selected name select }
{
    match select {
        None => Expr::Name(name),
        Some(Select::Bit(span, index)) => Expr::BitSelect(name, span, index),
        Some(Select::Part(span, msb, lsb)) => Expr::PartSelect(name, span, msb, lsb),
        Some(Select::Indexed(span, base, width)) => {
            Expr::IndexedPartSelect(name, span, base, width)
        }
    }
}

/// A name or a select of it.
fn name_operand(parts: &mut Parts<'_>) -> Expr
    requires { sorted r.NameOperand parts.old ≡ true }
    ensures { v.Expr result ≡ spec.made_expression r.NameOperand parts.old }
{
    let name = parts.identifier();
    let select = parts.select();
    selected(name, select)
}

/// A call of a system function.
fn system_function_call<'a>(alloc: Global, parts: &mut Parts<'a>) -> Result<Value<'a>, AllocError>
    ensures { IfOk result (λ x. x ≡ spec.made_expression r.SystemFunctionCall parts.old) }
{
    let name = identifier(alloc, parts.token())?;
    let arguments = parts.exprs(alloc);
    boxed_expr(
        alloc,
        Expr::SystemFunctionCall(name, arguments.into_listed()),
    )
}

/// A call of a system function of one argument.
fn unary_function_call<'a>(alloc: Global, parts: &mut Parts<'a>) -> Result<Value<'a>, AllocError>
    requires { sorted r.UnaryFunctionCall parts.old ≡ true }
    ensures { IfOk result (λ x. x ≡ spec.made_expression r.UnaryFunctionCall parts.old) }
{
    let name = identifier(alloc, parts.token())?;
    parts.skip();
    let argument = parts.expr().into_inner();
    let (arguments, name) = Stack::new(alloc).with_beside(argument, name)?;
    boxed_expr(
        alloc,
        Expr::SystemFunctionCall(name, arguments.into_listed()),
    )
}

/// An expression in parentheses.
#[tactic(auto)]
fn parenthesized(parts: &mut Parts<'_>) -> Expr
    requires { is_expr (second parts.old) ≡ true }
    ensures { result ≡ e.Parenthesized (span_of (first parts.old)) (expr_of (second parts.old)) }
{
    let span = parts.span();
    Expr::Parenthesized(span, parts.expr())
}

/// What stands in braces.
#[tactic(auto, unfolding(crate::specs::Expressions::braced))]
fn braced(span: Span, expr: Boxed<Expr>, end: BraceEnd) -> Result<Expr, AllocError>
    ensures { IfOk result (λ e. e ≡ spec.braced span expr end) }
{
    match end {
        BraceEnd::Concatenation(others) => {
            let all = others.with(expr.into_inner())?;
            Ok(Expr::Concatenation(span, all.into_listed()))
        }
        BraceEnd::Replication(parts) => {
            Ok(Expr::MultipleConcatenation(span, expr, parts.into_listed()))
        }
    }
}

/// A concatenation or a replication.
fn braces<'a>(alloc: Global, parts: &mut Parts<'a>) -> Result<Value<'a>, AllocError>
    requires { sorted r.Braces parts.old ≡ true }
    ensures { IfOk result (λ x. x ≡ spec.made_expression r.Braces parts.old) }
{
    let span = parts.span();
    let expr = parts.expr();
    let end = parts.brace_end();
    boxed_expr(alloc, braced(span, expr, end)?)
}

/// The end of a replication.
fn replication<'a>(alloc: Global, parts: &mut Parts<'a>) -> Result<Value<'a>, AllocError>
    requires { sorted r.Replication parts.old ≡ true }
    ensures { IfOk result (λ x. x ≡ spec.made_expression r.Replication parts.old) }
{
    parts.skip();
    let exprs = parts.some_exprs(alloc)?;
    Ok(Value::BraceEnd(BraceEnd::Replication(exprs)))
}

/// A number.
#[tactic(auto)]
fn number_operand(alloc: Global, parts: &mut Parts<'_>) -> Expr
    ensures { result ≡ number (token_of (first parts.old)) }
{
    let token = parts.token();
    number(alloc, token)
}

/// What a production means that means what one of its parts means.
#[tactic(auto, unfolding(crate::specs::Passed::made_passed, vlog_parts::specs::Kinds::is_of_kind, vlog_grammar::specs::Grammar::production))]
#[inline(never)]
fn make_passed<'a>(
    alloc: Global,
    rule: Rule,
    parts: &mut Parts<'a>,
) -> Result<Value<'a>, AllocError>
    requires { sorted rule parts.old ≡ true }
    ensures { IfOk result (λ x. x ≡ made_passed rule parts.old) }
{
    match rule {
        Rule::ImplicitNet | Rule::ModuleOrGenerateItem | Rule::SomeGenerate => Ok(parts.next()),
        Rule::StatementWithAttributes
        | Rule::SomeElse
        | Rule::EventInParens
        | Rule::SomeTaskArguments
        | Rule::ExplicitNet
        | Rule::SomeInitialValue
        | Rule::GenerateOneItem
        | Rule::SomeGenerateElse
        | Rule::SomeBlockName
        | Rule::SomePortList
        | Rule::AnsiPortDeclaration
        | Rule::NextNetPort
        | Rule::NextVariablePort => Ok(parts.inner()),
        Rule::SomeParameterValues => {
            parts.skip();
            Ok(parts.inner())
        }
        _ => make_statement(alloc, rule, parts),
    }
}

/// What a production of expressions or left sides means.
pub fn make_expression<'a>(
    alloc: Global,
    rule: Rule,
    parts: &mut Parts<'a>,
) -> Result<Value<'a>, AllocError>
    requires { sorted rule parts.old ≡ true }
    ensures { IfOk result (λ x. x ≡ spec.made_expression rule parts.old) }
{
    match rule {
        Rule::PlainIdentifier => name(alloc, parts),
        Rule::SystemVerilogIdentifier => name(alloc, parts),
        Rule::SomeExpression => Ok(parts.next()),
        Rule::NextExpression => next_expression(alloc, parts),
        Rule::LeftName => boxed_left(alloc, left_name(parts)),
        Rule::LeftConcatenation => left_concatenation(alloc, parts),
        Rule::NextLeftSide => next_left_side(alloc, parts),
        Rule::SomeSelect => Ok(Value::Select(some_select(parts))),
        Rule::BitSelect => Ok(Value::SelectEnd(SelectEnd::Bit)),
        Rule::PartSelect => Ok(Value::SelectEnd(part_select(parts))),
        Rule::IndexedPartSelect => Ok(Value::SelectEnd(indexed_part_select(parts))),
        Rule::OperandWithChains => operated(alloc, parts),
        Rule::Power => link(alloc, BinaryOperator::Power, parts),
        Rule::Times => link(alloc, BinaryOperator::Multiply, parts),
        Rule::Divide => link(alloc, BinaryOperator::Divide, parts),
        Rule::Remainder => link(alloc, BinaryOperator::Modulus, parts),
        Rule::Plus => link(alloc, BinaryOperator::Add, parts),
        Rule::Minus => link(alloc, BinaryOperator::Subtract, parts),
        Rule::ShiftLeft => link(alloc, BinaryOperator::LogicalShiftLeft, parts),
        Rule::ShiftRight => link(alloc, BinaryOperator::LogicalShiftRight, parts),
        Rule::ShiftLeftSigned => link(alloc, BinaryOperator::ArithmeticShiftLeft, parts),
        Rule::ShiftRightSigned => link(alloc, BinaryOperator::ArithmeticShiftRight, parts),
        Rule::Less => link(alloc, BinaryOperator::Less, parts),
        Rule::LessEqual => link(alloc, BinaryOperator::LessEqual, parts),
        Rule::Greater => link(alloc, BinaryOperator::Greater, parts),
        Rule::GreaterEqual => link(alloc, BinaryOperator::GreaterEqual, parts),
        Rule::Equal => link(alloc, BinaryOperator::LogicalEquality, parts),
        Rule::Unequal => link(alloc, BinaryOperator::LogicalInequality, parts),
        Rule::CaseEqual => link(alloc, BinaryOperator::CaseEquality, parts),
        Rule::CaseUnequal => link(alloc, BinaryOperator::CaseInequality, parts),
        Rule::BitAnd => link(alloc, BinaryOperator::BitwiseAnd, parts),
        Rule::BitXor => link(alloc, BinaryOperator::BitwiseXor, parts),
        Rule::BitXnor => link(alloc, BinaryOperator::BitwiseXnor, parts),
        Rule::BitOr => link(alloc, BinaryOperator::BitwiseOr, parts),
        Rule::LogicalAnd => link(alloc, BinaryOperator::LogicalAnd, parts),
        Rule::LogicalOr => link(alloc, BinaryOperator::LogicalOr, parts),
        Rule::SomeCondition => boxed_branches(alloc, branches(parts)),
        Rule::UnaryPlus => boxed_expr(alloc, unary(UnaryOperator::Plus, parts)),
        Rule::UnaryMinus => boxed_expr(alloc, unary(UnaryOperator::Minus, parts)),
        Rule::LogicalNot => boxed_expr(alloc, unary(UnaryOperator::LogicalNot, parts)),
        Rule::BitNot => boxed_expr(alloc, unary(UnaryOperator::BitwiseNot, parts)),
        Rule::ReductionAnd => boxed_expr(alloc, unary(UnaryOperator::ReductionAnd, parts)),
        Rule::ReductionNand => boxed_expr(alloc, unary(UnaryOperator::ReductionNand, parts)),
        Rule::ReductionOr => boxed_expr(alloc, unary(UnaryOperator::ReductionOr, parts)),
        Rule::ReductionNor => boxed_expr(alloc, unary(UnaryOperator::ReductionNor, parts)),
        Rule::ReductionXor => boxed_expr(alloc, unary(UnaryOperator::ReductionXor, parts)),
        Rule::ReductionXnor => boxed_expr(alloc, unary(UnaryOperator::ReductionXnor, parts)),
        Rule::NumberOperand => boxed_expr(alloc, number_operand(alloc, parts)),
        Rule::DelayNumber => boxed_expr(alloc, number_operand(alloc, parts)),
        Rule::DelayName => boxed_expr(alloc, Expr::Name(parts.identifier())),
        Rule::DelayExpression => boxed_expr(alloc, parenthesized(parts)),
        Rule::NameOperand => boxed_expr(alloc, name_operand(parts)),
        Rule::SystemFunctionCall => system_function_call(alloc, parts),
        Rule::UnaryFunctionCall => unary_function_call(alloc, parts),
        Rule::Parenthesized => boxed_expr(alloc, parenthesized(parts)),
        Rule::Braces => braces(alloc, parts),
        Rule::SomeFunctionArguments => next_expression(alloc, parts),
        Rule::Concatenation => { Ok(Value::BraceEnd(BraceEnd::Concatenation(parts.exprs(alloc)))) }
        Rule::Replication => replication(alloc, parts),
        _ => make_passed(alloc, rule, parts),
    }
}
