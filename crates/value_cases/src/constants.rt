//! A row of constants: a width, the values of names, which are constants here, and an expression.
use case_lines::Page;
use expression_rows::{Stack, read_given};
use std::alloc::Global;
use vlog_meaning::{Decl, Scope, constant_at};

/// The value of a row's expression, if it is one.
fn value_of_row(alloc: Global, line: &str) -> Option<u128> {
    let (head, expression) = line.split_once(';')?;
    let mut scope = Scope::new(alloc);
    let mut width: u8 = 0;
    for word in head.split_whitespace() {
        match read_given(word) {
            Some((name, given)) => {
                let decl = Decl::Constant {
                    value: given.value,
                    low: 0,
                    is_signed: given.is_signed,
                };
                scope.declare(name, decl).ok()?;
            }
            None => width = word.parse().ok()?,
        }
    }
    let expr = Stack::read(alloc, expression)?;
    if width < 1 || width > 128 {
        return None;
    }
    Some(constant_at(&expr, &scope, width).ok()?.bits())
}

/// Puts the value of a row's expression.
pub(crate) fn put_constant(alloc: Global, page: &mut Page, line: &str) {
    match value_of_row(alloc, line) {
        Some(value) => page.put_number(value),
        None => page.put("no value"),
    }
    page.put("\n");
}
