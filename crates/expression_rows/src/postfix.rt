//! Expressions in postfix form: each word takes its operands from a stack, and puts the expression on it.
use mcy_base::{Span, Text, Word};
use std::alloc::Global;
use vlog_syntax::{BinaryOperator, Boxed, Expr, Identifier, Listed, Number, UnaryOperator};

/// The place of everything.
const AT: Span = Span {
    file: 0,
    line: 1,
    col: 1,
};

/// The expressions that are not yet part of another.
#[derive(Drop)]
pub struct Stack {
    alloc: Global,
    exprs: Vec<Expr>,
}

/// The binary operator that is written so.
fn binary(word: &str) -> Option<BinaryOperator> {
    let table = [
        ("**", BinaryOperator::Power),
        ("*", BinaryOperator::Multiply),
        ("/", BinaryOperator::Divide),
        ("%", BinaryOperator::Modulus),
        ("+", BinaryOperator::Add),
        ("-", BinaryOperator::Subtract),
        ("<<", BinaryOperator::LogicalShiftLeft),
        (">>", BinaryOperator::LogicalShiftRight),
        ("<<<", BinaryOperator::ArithmeticShiftLeft),
        (">>>", BinaryOperator::ArithmeticShiftRight),
        ("<", BinaryOperator::Less),
        ("<=", BinaryOperator::LessEqual),
        (">", BinaryOperator::Greater),
        (">=", BinaryOperator::GreaterEqual),
        ("==", BinaryOperator::LogicalEquality),
        ("!=", BinaryOperator::LogicalInequality),
        ("===", BinaryOperator::CaseEquality),
        ("!==", BinaryOperator::CaseInequality),
        ("&", BinaryOperator::BitwiseAnd),
        ("^", BinaryOperator::BitwiseXor),
        ("~^", BinaryOperator::BitwiseXnor),
        ("|", BinaryOperator::BitwiseOr),
        ("&&", BinaryOperator::LogicalAnd),
        ("||", BinaryOperator::LogicalOr),
    ];
    for (text, op) in table {
        if text == word {
            return Some(op);
        }
    }
    None
}

/// The unary operator that is written so, behind `unary`.
fn unary(word: &str) -> Option<UnaryOperator> {
    let table = [
        ("+", UnaryOperator::Plus),
        ("-", UnaryOperator::Minus),
        ("!", UnaryOperator::LogicalNot),
        ("~", UnaryOperator::BitwiseNot),
        ("&", UnaryOperator::ReductionAnd),
        ("~&", UnaryOperator::ReductionNand),
        ("|", UnaryOperator::ReductionOr),
        ("~|", UnaryOperator::ReductionNor),
        ("^", UnaryOperator::ReductionXor),
        ("~^", UnaryOperator::ReductionXnor),
    ];
    let written = word.strip_prefix("unary")?;
    for (text, op) in table {
        if text == written {
            return Some(op);
        }
    }
    None
}

/// The number that `u8:255` or `s8:255` is: its sign, width and value.
fn number(word: &str) -> Option<Expr> {
    let (shape, value) = word.split_once(':')?;
    let is_signed = shape.starts_with('s');
    let width = shape.strip_prefix('s').or(shape.strip_prefix('u'))?;
    let value = Word::new(width.parse().ok()?, value.parse().ok()?)?;
    Some(Expr::Number(Number {
        value,
        is_signed,
        x_bits: 0,
        z_bits: 0,
        span: AT,
    }))
}

/// How many parts `{3}` takes, or `{{3}}` behind its count.
fn count(word: &str, open: &str, close: &str) -> Option<usize> {
    word.strip_prefix(open)?.strip_suffix(close)?.parse().ok()
}

impl Stack {
    /// The expression that the words are. There is none where one is no word of the form, or memory is wanting.
    pub fn read(alloc: Global, words: &str) -> Option<Expr> {
        let mut stack = Stack {
            alloc,
            exprs: Vec::new(alloc),
        };
        for word in words.split_whitespace() {
            let expr = stack.take(word)?;
            stack.exprs.push(expr).ok()?;
        }
        stack.exprs.pop()
    }

    /// The expression that a word is with its operands.
    fn take(&mut self, word: &str) -> Option<Expr> {
        if let Some(number) = number(word) {
            return Some(number);
        }
        if let Some(op) = binary(word) {
            let right = self.operand()?;
            return Some(Expr::Binary(AT, op, self.operand()?, right));
        }
        if let Some(op) = unary(word) {
            return Some(Expr::Unary(AT, op, self.operand()?));
        }
        if word == "?:" {
            let no = self.operand()?;
            let yes = self.operand()?;
            return Some(Expr::Conditional(AT, self.operand()?, yes, no));
        }
        self.joined(word)
    }

    /// The same of a word for a concatenation or a replication.
    fn joined(&mut self, word: &str) -> Option<Expr> {
        if let Some(parts) = count(word, "{{", "}}") {
            let parts = self.parts(parts)?;
            return Some(Expr::MultipleConcatenation(AT, self.operand()?, parts));
        }
        if let Some(parts) = count(word, "{", "}") {
            return Some(Expr::Concatenation(AT, self.parts(parts)?));
        }
        if word.starts_with('$') {
            let argument = self.parts(1)?;
            return Some(Expr::SystemFunctionCall(self.identifier(word)?, argument));
        }
        self.named(word)
    }

    /// The same of a word for a name or a select.
    fn named(&mut self, word: &str) -> Option<Expr> {
        if let Some(name) = word.strip_suffix("[]") {
            let index = self.operand()?;
            return Some(Expr::BitSelect(self.identifier(name)?, AT, index));
        }
        if let Some(name) = word.strip_suffix("[:]") {
            let lsb = self.operand()?;
            let msb = self.operand()?;
            return Some(Expr::PartSelect(self.identifier(name)?, AT, msb, lsb));
        }
        if let Some(name) = word.strip_suffix("[+:]") {
            let width = self.operand()?;
            let base = self.operand()?;
            return Some(Expr::IndexedPartSelect(self.identifier(name)?, AT, base, width));
        }
        Some(Expr::Name(self.identifier(word)?))
    }

    fn identifier(&self, name: &str) -> Option<Identifier> {
        let name = Text::copy(self.alloc, name).ok()?;
        Some(Identifier { name, span: AT })
    }

    /// The last expression.
    fn operand(&mut self) -> Option<Boxed<Expr>> {
        let expr = self.exprs.pop()?;
        Boxed::new(self.alloc, expr).ok()
    }

    /// The last expressions, as many as these, in their order.
    fn parts(&mut self, count: usize) -> Option<Listed<Expr>> {
        let mut parts = Vec::new(self.alloc);
        for _ in 0..count {
            parts.push(self.exprs.pop()?).ok()?;
        }
        parts.reverse();
        Some(Listed::from_vec(parts))
    }
}
