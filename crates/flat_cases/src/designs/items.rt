//! What is printed of a flattened design: its signals and its items, one a line, or how many there are.
//!
//! A signal is told by its full name. `u.@3:7` is the tree whose first token stands at 3:7, in the scope whose names have `u.`
//! before them.
use crate::designs::refused::put_error;
use case_lines::Page;
use flat_instances::FlatItem;
use flat_items::Flat;
use flat_scopes::Signal;
use mcy_base::Span;
use vlog_syntax::{Direction, Expr, Identifier};

/// A signal: its name, its lowest number and its width, whether it is signed, an input or an output, and of a type.
fn put_signal(page: &mut Page, signal: &Signal) {
    page.put("signal ");
    page.put(signal.name.as_str());
    page.put("[");
    page.put_number(signal.bits.low.into());
    page.put("+:");
    page.put_number(signal.bits.width.into());
    page.put("]");
    if signal.is_signed {
        page.put("s");
    }
    match signal.direction {
        Some(Direction::Input) => page.put("i"),
        Some(Direction::Output) => page.put("o"),
        None => {}
    }
    if signal.has_type {
        page.put("t");
    }
    page.put("\n");
}

/// The name of the signal of this number.
fn put_number(page: &mut Page, flat: &Flat<'_>, word: &str, number: u32) {
    page.put(word);
    page.put(" ");
    match flat.signals().get(number as usize) {
        Some(signal) => page.put(signal.name.as_str()),
        None => page.put("no signal"),
    }
}

/// What stands before the names of the scope of this number.
fn put_scope(page: &mut Page, flat: &Flat<'_>, number: u32) {
    match flat.place(number) {
        Some(place) => page.put(place.prefix.as_str()),
        None => page.put("no scope"),
    }
}

/// The full name of what has this name in a scope.
fn put_name(page: &mut Page, flat: &Flat<'_>, scope: u32, name: &Identifier) {
    put_scope(page, flat, scope);
    page.put(name.name.as_str());
}

/// A tree that begins at this place, in a scope.
fn put_tree(page: &mut Page, flat: &Flat<'_>, scope: u32, place: Span) {
    put_scope(page, flat, scope);
    page.put("@");
    page.put_place(place);
}

/// The value that something gets, in a scope.
fn put_value(page: &mut Page, flat: &Flat<'_>, scope: u32, value: &Expr) {
    page.put(" = ");
    put_tree(page, flat, scope, value.first_token());
}

fn put_item(page: &mut Page, flat: &Flat<'_>, item: &FlatItem<'_>) {
    match item {
        FlatItem::Declares(number) => put_number(page, flat, "declares", *number),
        FlatItem::Assigns(scope, left, value) => {
            page.put("assigns ");
            put_tree(page, flat, *scope, left.get().first_token());
            put_value(page, flat, *scope, value.get());
        }
        FlatItem::Drives(scope, name, value) => {
            page.put("drives ");
            put_name(page, flat, *scope, name.get());
            put_value(page, flat, *scope, value.get());
        }
        FlatItem::Enters(number, scope, value) => {
            put_number(page, flat, "enters", *number);
            put_value(page, flat, *scope, value.get());
        }
        FlatItem::Open(number) => put_number(page, flat, "open", *number),
        FlatItem::Leaves(outside, left, inside, name) => {
            page.put("leaves ");
            put_tree(page, flat, *outside, left.get().first_token());
            page.put(" = ");
            put_name(page, flat, *inside, name.get());
        }
        FlatItem::Runs(scope, process) => {
            page.put("runs ");
            put_tree(page, flat, *scope, process.get().span);
        }
        FlatItem::Starts(number, scope, value) => {
            put_number(page, flat, "starts", *number);
            put_value(page, flat, *scope, value.get());
        }
        FlatItem::Refuses(error) => {
            page.put("refuses ");
            put_error(page, *error);
        }
    }
    page.put("\n");
}

/// The signals, and then the items.
pub(crate) fn put_design(page: &mut Page, flat: &Flat<'_>) {
    for signal in flat.signals() {
        put_signal(page, signal);
    }
    for item in flat.items() {
        put_item(page, flat, item);
    }
}

/// How many signals and items there are.
pub(crate) fn put_counts(page: &mut Page, flat: &Flat<'_>) {
    page.put_number(flat.signals().len() as u128);
    page.put(" signals, ");
    page.put_number(flat.items().len() as u128);
    page.put(" items\n");
}
