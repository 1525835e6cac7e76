//! The calls of a scope, once where there is enough memory, and a constant.
use mcy_base::{Span, Text, Word};
use std::alloc::{AllocError, Global};
use std::test::Fail;
use vlog_meaning::{Decl, Scope, ScopeError, constant, constant_at};
use vlog_syntax::{BinaryOperator, Boxed, Expr, Identifier};

const AT: Span = Span {
    file: 0,
    line: 1,
    col: 1,
};

fn name(alloc: Global, text: &str) -> Result<Boxed<Expr>, AllocError> {
    let name = Text::copy(alloc, text)?;
    Boxed::new(alloc, Expr::Name(Identifier { name, span: AT }))
}

/// `a + a`
fn sum(alloc: Global) -> Result<Expr, AllocError> {
    Ok(Expr::Binary(
        AT,
        BinaryOperator::Add,
        name(alloc, "a")?,
        name(alloc, "a")?,
    ))
}

#[test]
fn names_are_declared_copied_replaced_and_hidden(rt: HostRuntime) -> Result<(), Fail> {
    let mut scope = Scope::new(rt.alloc());
    let value = Word::new(8, 200).ok_or("it is a word")?;
    let decl = Decl::Constant {
        value,
        low: 0,
        is_signed: false,
    };
    let other = Decl::Signal {
        width: 4,
        low: 0,
        is_signed: true,
        number: 7,
    };
    assert_eq!(rt; scope.declare("a", decl), Ok(()));
    assert_eq!(rt; scope.declare("a", decl), Err(ScopeError::Twice));
    let copy = scope.copy()?;
    assert_eq!(rt; scope.replace("a", other), decl);
    assert_eq!(rt; scope.get("a"), Some(other));
    scope.hide("a");
    assert_eq!(rt; scope.get("a"), None);
    let sum = sum(rt.alloc())?;
    assert_eq!(rt; constant(&sum, &copy).map(|w| w.bits()), Ok(144));
    assert_eq!(rt; constant_at(&sum, &copy, 16).map(|w| w.bits()), Ok(400));
    Ok(())
}
