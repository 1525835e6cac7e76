//! How deep constructs are nested, token by token.
//!
//! Constructs are generate blocks, statements other than `;`, and expressions other than a name, a number or a system
//! function without arguments. An operator lies round its left operand as soon as it is read. The pass goes over the
//! steps from the left, with a stack of the productions whose parts are being read.
ghost use Rattle.std.specs.Prelude.{◌≡◌, [], nat_lt, IfOk};
ghost use Rattle.vlog_parse.specs.Nesting as spec;

use std::alloc::{AllocError, Global};
use vlog_grammar::{Rule, Step, parts_of};
use vlog_parts::Stack;

/// The most constructs that are open at a token.
const LIMIT: u32 = 200;

/// Whether the production is a construct. Operators with a left operand are not among these.
#[tactic(auto, unfolding(crate::specs::Nesting::is_construct))]
fn is_construct(rule: Rule) -> bool
    ensures { result ≡ spec.is_construct rule }
{
    match rule {
        Rule::GenerateOneItem => true,
        Rule::GenerateBeginEnd => true,
        Rule::SeqBlock => true,
        Rule::ConditionalStatement => true,
        Rule::CaseStatement => true,
        Rule::ForStatement => true,
        Rule::WhileStatement => true,
        Rule::RepeatStatement => true,
        Rule::ForeverStatement => true,
        Rule::EventControlStatement => true,
        Rule::DelayControlStatement => true,
        Rule::SystemTaskEnable => true,
        Rule::UnaryFunctionEnable => true,
        Rule::Assignment => true,
        Rule::DelayExpression => true,
        Rule::LeftConcatenation => true,
        Rule::SomeSelect => true,
        Rule::UnaryPlus => true,
        Rule::UnaryMinus => true,
        Rule::LogicalNot => true,
        Rule::BitNot => true,
        Rule::ReductionAnd => true,
        Rule::ReductionNand => true,
        Rule::ReductionOr => true,
        Rule::ReductionNor => true,
        Rule::ReductionXor => true,
        Rule::ReductionXnor => true,
        Rule::Parenthesized => true,
        Rule::Braces => true,
        Rule::SomeFunctionArguments => true,
        Rule::UnaryFunctionCall => true,
        _ => false,
    }
}

/// For an operator behind its left operand, how many of its parts are no part of its right operand: the chain that goes
/// on behind it, which `?` has not.
#[tactic(auto, unfolding(crate::specs::Nesting::behind))]
fn behind(rule: Rule) -> Option<usize>
    ensures { result ≡ spec.behind rule }
{
    match rule {
        Rule::Power
        | Rule::Times
        | Rule::Divide
        | Rule::Remainder
        | Rule::Plus
        | Rule::Minus
        | Rule::ShiftLeft
        | Rule::ShiftRight
        | Rule::ShiftLeftSigned
        | Rule::ShiftRightSigned
        | Rule::Less
        | Rule::LessEqual
        | Rule::Greater
        | Rule::GreaterEqual
        | Rule::Equal
        | Rule::Unequal
        | Rule::CaseEqual
        | Rule::CaseUnequal
        | Rule::BitAnd
        | Rule::BitXor
        | Rule::BitXnor
        | Rule::BitOr
        | Rule::LogicalAnd
        | Rule::LogicalOr => Some(1),
        Rule::SomeCondition => Some(0),
        _ => None,
    }
}

/// A production whose parts are being read.
#[derive(Clone, Copy, Debug, PartialEq, Eq)]
pub struct Row {
    /// The constructs that are open at its parts, its own among them.
    pub depth: u32,
    /// How many constructs high the expression is that stands left among its parts.
    pub height: u32,
    /// How many constructs high the left operand is, where the production is an operator.
    pub left: u32,
    /// Whether it is an operator whose right operand is being read.
    pub is_operator: bool,
    /// The parts that are still to come.
    pub parts: usize,
    /// How many of them are no part of the right operand.
    pub behind: usize,
}

/// One construct more. Past 200 all is one.
fn more(n: u32) -> u32
    ensures { result ≡ spec.more n }
{
    if n > LIMIT { n } else { n + 1 }
}

fn height_of(is_construct: bool, n: u32) -> u32
    ensures { result ≡ spec.height_of is_construct n }
{
    if is_construct { more(n) } else { n }
}

/// Behind the right operand of an operator the operator is a left operand.
#[tactic(auto, unfolding(crate::specs::Nesting::settled))]
fn settled(row: Row) -> Row
    ensures { result ≡ spec.settled row }
{
    if row.is_operator && row.parts == row.behind {
        Row {
            depth: row.depth.saturating_sub(1),
            height: more(row.height.max(row.left)),
            left: 0,
            is_operator: false,
            ..row
        }
    } else {
        row
    }
}

/// Whether more than 200 constructs are known at a token of the row.
#[tactic(auto, unfolding(crate::specs::Nesting::reached))]
fn is_too_deep(row: Row) -> bool
    ensures { result ≡ nat_lt 200 (spec.reached row) }
{
    u64::from(row.depth) + u64::from(row.height.max(row.left)) > u64::from(LIMIT)
}

/// The row of a production's parts, in a row.
#[tactic(auto, unfolding(crate::specs::Nesting::begun))]
fn begun(row: Row, rule: Rule) -> Row
    ensures { result ≡ spec.begun row rule }
{
    let parts = parts_of(rule).len();
    match behind(rule) {
        Some(behind) => Row {
            depth: more(row.depth),
            height: 0,
            left: row.height,
            is_operator: true,
            parts,
            behind,
        },
        None => Row {
            depth: height_of(is_construct(rule), row.depth),
            height: 0,
            left: 0,
            is_operator: false,
            parts,
            behind: 0,
        },
    }
}

/// The row behind a production that is as high as the row of its parts.
#[tactic(auto, unfolding(crate::specs::Nesting::ended))]
fn ended(row: Row, rule: Rule, inner: Row) -> Row
    ensures { result ≡ spec.ended row rule inner }
{
    let height = match behind(rule) {
        Some(_) => inner.height,
        None => row.height.max(height_of(is_construct(rule), inner.height)),
    };
    Row {
        height,
        parts: row.parts.saturating_sub(1),
        ..row
    }
}

/// Goes on in the rows around, where all parts of a row are read.
fn closed(rows: &mut Stack<(Row, Rule)>, row: Row) -> Row
    ensures { (result, rows.new) ≡ spec.closed row rows.old }
{
    let mut row = row;
    while row.parts == 0 {
        let Some((outer, rule)) = rows.pop() else {
            return row;
        };
        row = ended(outer, rule, settled(row));
    }
    row
}

/// The number of the first token at which more than 200 constructs are known, among the tokens that the steps take.
pub fn too_deep(alloc: Global, steps: &[Step]) -> Result<Option<usize>, AllocError>
    ensures { IfOk result (λ at. at ≡ spec.first_deep 0 (spec.walked spec.outermost [] steps.now)) }
{
    let mut rows = Stack::new(alloc);
    let mut row = Row {
        depth: 0,
        height: 0,
        left: 0,
        is_operator: false,
        parts: 1,
        behind: 0,
    };
    let mut at: usize = 0;
    for step in steps {
        let now = settled(row);
        match step {
            Step::Begin(rule) => {
                rows.push((now, *rule))?;
                row = closed(&mut rows, begun(now, *rule));
            }
            Step::Take(_) => {
                if is_too_deep(now) {
                    return Ok(Some(at));
                }
                at += 1;
                row = closed(
                    &mut rows,
                    Row {
                        parts: now.parts.saturating_sub(1),
                        ..now
                    },
                );
            }
        }
    }
    Ok(None)
}
