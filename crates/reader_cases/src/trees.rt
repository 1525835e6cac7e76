//! Reads short Verilog sources, and prints their trees.
//!
//! A row is a statement: a word, and a text behind one blank.
//!
//! | statement | what it prints |
//! |---|---|
//! | `parse TEXT` | The modules as S-expressions. |
//! | `item TEXT` | The same of `module m; TEXT endmodule`. |
//! | `statement TEXT` | The same of `module m; initial TEXT endmodule`. |
//! | `value TEXT` | The same of `module m; assign y = TEXT; endmodule`. |
//! | `copy TEXT` | The statement as it stands behind `initial`, and whether its copy is the same. |
//! | `deep PART§PART§..` | Whether the parts make modules, where `200*x` is 200 times `x`. |
//!
//! Each prints the refusal with its place where there is one. A line that begins with `#` is printed, and an empty one is
//! left out.
mod shown;

use case_lines::{END, Page, is_short};
use std::alloc::{AllocError, Global};
use std::io;
use vlog_parse::{ParseError, parse};
use vlog_syntax::{Item, PlainItem, Stmt};
use vlog_token::{Token, tokens};

fn put_refusal(page: &mut Page, alloc: Global, error: ParseError) {
    match error {
        ParseError::Unexpected(place) => page.put_at("Unexpected", place),
        ParseError::Unsupported(place, feature) => {
            match format!(in alloc; "Unsupported {feature:?}") {
                Ok(word) => page.put_at(word.as_str(), place),
                Err(_) => page.put("Memory"),
            }
        }
        ParseError::UnknownMacro(place) => page.put_at("UnknownMacro", place),
        ParseError::OpenCondition(place) => page.put_at("OpenCondition", place),
        ParseError::TooDeep(place) => page.put_at("TooDeep", place),
        ParseError::TooMany(_) => page.put("TooMany Tokens"),
        ParseError::Memory => page.put("Memory"),
    }
}

/// The modules of the tokens.
fn put_modules(page: &mut Page, alloc: Global, list: &[Token<'_>]) {
    match parse(alloc, list, END) {
        Ok(modules) => {
            for module in &modules {
                shown::module(page, module);
            }
        }
        Err(error) => put_refusal(page, alloc, error),
    }
}

/// A statement, and whether its copy is the same.
fn put_copied(page: &mut Page, alloc: Global, body: &Stmt) {
    let mut whole = Page::new(alloc);
    shown::stmt(&mut whole, body);
    page.put(whole.text());
    match body.copy(alloc) {
        Ok(copy) => {
            let mut other = Page::new(alloc);
            shown::stmt(&mut other, &copy);
            page.put(if other.text() == whole.text() {
                " the same"
            } else {
                " another"
            });
        }
        Err(_) => page.put(" Memory"),
    }
}

/// The statement of an item that is a process.
fn process_body(item: &Item) -> Option<&Stmt> {
    match item {
        Item::Plain(plain) => match plain.get() {
            PlainItem::Process(process) => Some(process.body.get()),
            _ => None,
        },
        _ => None,
    }
}

/// The statements of the processes among items.
fn put_bodies(page: &mut Page, alloc: Global, items: &[Item]) {
    for item in items {
        if let Some(body) = process_body(item) {
            put_copied(page, alloc, body);
        }
    }
}

/// The statements of processes.
fn put_copies(page: &mut Page, alloc: Global, list: &[Token<'_>]) {
    match parse(alloc, list, END) {
        Ok(modules) => {
            for module in &modules {
                put_bodies(page, alloc, module.items.as_slice());
            }
        }
        Err(error) => put_refusal(page, alloc, error),
    }
}

/// How many modules the tokens have.
fn put_count(page: &mut Page, alloc: Global, list: &[Token<'_>]) {
    match parse(alloc, list, END) {
        Ok(modules) => {
            page.put("modules ");
            match u64::try_from(modules.len()) {
                Ok(count) => page.put_number(count.into()),
                Err(_) => page.put("many"),
            }
        }
        Err(error) => put_refusal(page, alloc, error),
    }
}

/// The parts of a text, those with a number and `*` as often as the number says.
fn repeated(alloc: Global, text: &str) -> Result<String, AllocError> {
    let mut whole = String::new(alloc);
    for part in text.split('§') {
        push_repeated(&mut whole, part)?;
    }
    Ok(whole)
}

fn push_repeated(whole: &mut String, part: &str) -> Result<(), AllocError> {
    let counted = part
        .split_once('*')
        .and_then(|(count, inner)| Some((count.parse::<u16>().ok()?, inner)));
    let (count, inner) = counted.unwrap_or((1, part));
    for _ in 0..count {
        whole.push_str(inner)?;
    }
    Ok(())
}

/// What is asked of a text.
#[derive(Clone, Copy)]
enum Question {
    Modules,
    Copies,
    Count,
}

/// The page that answers for a text.
fn answer(alloc: Global, question: Question, text: &str) -> Page {
    let mut page = Page::new(alloc);
    if !is_short(text) {
        page.put("no tokens");
        return page;
    }
    match tokens(alloc, 0, text) {
        Err(_) => page.put("no tokens"),
        Ok(list) => match question {
            Question::Modules => put_modules(&mut page, alloc, list.as_slice()),
            Question::Copies => put_copies(&mut page, alloc, list.as_slice()),
            Question::Count => put_count(&mut page, alloc, list.as_slice()),
        },
    }
    page
}

/// The page for a text between two others.
fn within(
    alloc: Global,
    question: Question,
    before: &str,
    text: &str,
    behind: &str,
) -> Result<Page, AllocError> {
    let whole = format!(in alloc; "{before}{text}{behind}")?;
    Ok(answer(alloc, question, whole.as_str()))
}

/// The page for a statement, where there is one of this word.
fn page_of(alloc: Global, verb: &str, text: &str) -> Result<Option<Page>, AllocError> {
    let (question, before, behind) = match verb {
        "parse" => (Question::Modules, "", ""),
        "item" => (Question::Modules, "module m; ", " endmodule"),
        "statement" => (Question::Modules, "module m; initial ", " endmodule"),
        "value" => (Question::Modules, "module m; assign y = ", "; endmodule"),
        "copy" => (Question::Copies, "module m; initial ", " endmodule"),
        "deep" => {
            let whole = repeated(alloc, text)?;
            return Ok(Some(answer(alloc, Question::Count, whole.as_str())));
        }
        _ => return Ok(None),
    };
    Ok(Some(within(alloc, question, before, text, behind)?))
}

/// Carries out a statement.
pub(crate) fn carry_out<R: Print + AllocGlobal>(rt: &R, line: &str) -> io::Result<()> {
    let (verb, rest) = line.split_once(' ').unwrap_or((line, ""));
    match verb {
        "" => Ok(()),
        "#" => println!(rt; "{line}"),
        _ => {
            println!(rt; "> {line}")?;
            match page_of(rt.alloc(), verb, rest)? {
                Some(page) => println!(rt; "{}", page.text()),
                None => println!(rt; "no statement"),
            }
        }
    }
}
