//! Parts of expressions and of left sides.
ghost use Rattle.std.specs.Prelude.{◌≡◌, true};
ghost use Rattle.vlog_parts.specs.Sorts.{is_expr, is_select_end, is_brace_end, is_left};
ghost use Rattle.vlog_parts.specs.Numbered.{first, rest};
ghost use Rattle.vlog_parts.specs.Values.{expr_of, exprs_of, chain_of, select_of, select_end_of, brace_end_of, left_of, lefts_of, option_expr_of};

use crate::stack::Stack;
use crate::value::Value;
use mcy_base::Span;
use std::alloc::Global;
use vlog_syntax::{BinaryOperator, Boxed, Expr, LeftSide};

/// An operator with its right operand.
#[derive(Drop)]
pub struct Link {
    pub span: Span,
    pub operator: BinaryOperator,
    pub right: Boxed<Expr>,
}

/// What stands behind a condition: `? yes : no`, with the place of its `?`.
#[derive(Drop)]
pub struct Branches {
    pub span: Span,
    pub yes: Boxed<Expr>,
    pub no: Boxed<Expr>,
}

/// A select, with the place of its `[`.
#[derive(Drop)]
pub enum Select {
    Bit(Span, Boxed<Expr>),
    Part(Span, Boxed<Expr>, Boxed<Expr>),
    Indexed(Span, Boxed<Expr>, Boxed<Expr>),
}

/// A select behind its first expression.
#[derive(Drop)]
pub enum SelectEnd {
    Bit,
    Part(Boxed<Expr>),
    Indexed(Boxed<Expr>),
}

/// What stands in braces behind the first expression.
#[derive(Drop)]
pub enum BraceEnd {
    Concatenation(Stack<Expr>),
    Replication(Stack<Expr>),
}

impl Stack<Value<'_>> {
    /// The next part, an expression.
    #[tactic(auto, using(crate::proofs::Sorts::only_expr))]
    pub fn expr(&mut self) -> Boxed<Expr>
        requires { is_expr (first self.old) ≡ true }
        ensures value { result ≡ expr_of (first self.old) }
        ensures rest { self.new ≡ rest self.old }
    {
        match self.next() {
            Value::Expr(expr) => expr,
            _ => unreachable!(),
        }
    }

    /// The next part, expressions.
    #[tactic(auto, using(crate::proofs::Sorts::not_exprs))]
    pub fn exprs(&mut self, alloc: Global) -> Stack<Expr>
        ensures value { result ≡ exprs_of (first self.old) }
        ensures rest { self.new ≡ rest self.old }
    {
        match self.next() {
            Value::Exprs(exprs) => exprs,
            other => {
                drop(other);
                Stack::new(alloc)
            }
        }
    }

    /// The next part, operators with their operands.
    #[tactic(auto, using(crate::proofs::Sorts::not_chain))]
    pub fn chain(&mut self, alloc: Global) -> Stack<Link>
        ensures value { result ≡ chain_of (first self.old) }
        ensures rest { self.new ≡ rest self.old }
    {
        match self.next() {
            Value::Chain(chain) => chain,
            other => {
                drop(other);
                Stack::new(alloc)
            }
        }
    }

    /// The next part, a select where there is one.
    #[tactic(auto, using(crate::proofs::Sorts::not_select))]
    pub fn select(&mut self) -> Option<Select>
        ensures value { result ≡ select_of (first self.old) }
        ensures rest { self.new ≡ rest self.old }
    {
        match self.next() {
            Value::Select(select) => Some(select),
            other => {
                drop(other);
                None
            }
        }
    }

    /// The next part, the end of a select.
    #[tactic(auto, using(crate::proofs::Sorts::only_select_end))]
    pub fn select_end(&mut self) -> SelectEnd
        requires { is_select_end (first self.old) ≡ true }
        ensures value { result ≡ select_end_of (first self.old) }
        ensures rest { self.new ≡ rest self.old }
    {
        match self.next() {
            Value::SelectEnd(select_end) => select_end,
            _ => unreachable!(),
        }
    }

    /// The next part, the end of a concatenation.
    #[tactic(auto, using(crate::proofs::Sorts::only_brace_end))]
    pub fn brace_end(&mut self) -> BraceEnd
        requires { is_brace_end (first self.old) ≡ true }
        ensures value { result ≡ brace_end_of (first self.old) }
        ensures rest { self.new ≡ rest self.old }
    {
        match self.next() {
            Value::BraceEnd(brace_end) => brace_end,
            _ => unreachable!(),
        }
    }

    /// The next part, a left side.
    #[tactic(auto, using(crate::proofs::Sorts::only_left))]
    pub fn left(&mut self) -> LeftSide
        requires { is_left (first self.old) ≡ true }
        ensures value { result ≡ left_of (first self.old) }
        ensures rest { self.new ≡ rest self.old }
    {
        match self.next() {
            Value::LeftSide(left) => left.into_inner(),
            _ => unreachable!(),
        }
    }

    /// The next part, left sides.
    #[tactic(auto, using(crate::proofs::Sorts::not_lefts))]
    pub fn lefts(&mut self, alloc: Global) -> Stack<LeftSide>
        ensures value { result ≡ lefts_of (first self.old) }
        ensures rest { self.new ≡ rest self.old }
    {
        match self.next() {
            Value::LeftSides(lefts) => lefts,
            other => {
                drop(other);
                Stack::new(alloc)
            }
        }
    }

    /// The next part, an expression where there is one.
    #[tactic(auto, using(crate::proofs::Sorts::not_option_expr))]
    pub fn option_expr(&mut self) -> Option<Boxed<Expr>>
        ensures value { result ≡ option_expr_of (first self.old) }
        ensures rest { self.new ≡ rest self.old }
    {
        match self.next() {
            Value::Expr(expr) => Some(expr),
            other => {
                drop(other);
                None
            }
        }
    }
}
