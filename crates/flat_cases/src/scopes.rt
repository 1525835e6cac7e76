//! Reads short Verilog sources, and prints what their first module declares and lists.
//!
//! A row is a source. Its first module is opened as the instance `u`, whose parameters have the values that
//! the parameters of the second module have, if there is one, read in that module. A line that begins with `#` is printed, and an
//! empty one is left out.
use crate::refusals::{put_const_error, put_refusal};
use case_lines::{END, Page, is_short};
use flat_scopes::{Given, Head, Lent, NameList, Opening, Placing, Signal, Step};
use mcy_base::Text;
use std::alloc::{AllocError, Global};
use std::io;
use vlog_meaning::{Decl, Scope};
use vlog_parse::parse;
use vlog_syntax::{Direction, Identifier, Listed, Module, ParameterDeclaration, Ports};
use vlog_token::tokens;

fn put_placing(page: &mut Page, placing: &Placing<'_>) {
    let name = &placing.instance.get().name;
    page.put("instance ");
    page.put(name.name.as_str());
    if placing.is_twice {
        page.put_at(" Twice", name.span);
    }
}

fn put_step(page: &mut Page, step: &Step<'_>) {
    page.put("; ");
    match step {
        Step::Declares(number) => {
            page.put("declares ");
            page.put_number((*number).into());
        }
        Step::Refuses(refusal) => put_refusal(page, *refusal),
        Step::RefusesGiven(error) => {
            page.put("given ");
            put_const_error(page, *error);
        }
        Step::Starts(number, _) => {
            page.put("starts ");
            page.put_number((*number).into());
        }
        Step::Drives(name, _) => {
            page.put("drives ");
            page.put(name.get().name.as_str());
        }
        Step::Lists(_) => page.put("item"),
        Step::Places(placing) => put_placing(page, placing),
        Step::Generates(number, _, taken) => {
            page.put("generates ");
            page.put_number((*number).into());
            if let Some(label) = taken {
                page.put_at(" Twice", label.get().span);
            }
        }
    }
}

fn put_signal(page: &mut Page, signal: &Signal) {
    page.put(" ");
    page.put(signal.name.as_str());
    page.put("[");
    page.put_number(signal.bits.low.into());
    page.put("+:");
    page.put_number(signal.bits.width.into());
    page.put("]");
    if signal.is_signed {
        page.put("s");
    }
    match signal.direction {
        Some(Direction::Input) => page.put("i"),
        Some(Direction::Output) => page.put("o"),
        None => {}
    }
    if signal.has_type {
        page.put("t");
    }
}

/// The value of a constant of the scope, by its name.
fn put_constant(page: &mut Page, scope: &Scope, name: &str) {
    match scope.get(name) {
        Some(
            Decl::Constant {
                value,
                is_signed,
                ..
            },
        ) => {
            page.put(" ");
            page.put(name);
            page.put("=");
            page.put_number(value.width().into());
            page.put(if is_signed { "'s" } else { "'" });
            page.put_number(value.bits());
        }
        _ => {}
    }
}

fn put_constants(page: &mut Page, scope: &Scope, declarations: &[ParameterDeclaration]) {
    for declaration in declarations {
        for assignment in declaration.assignments.as_slice() {
            put_constant(page, scope, assignment.name.name.as_str());
        }
    }
}

/// The names of the ports in the head of a module.
fn ports_of<'a>(alloc: Global, ports: &'a Ports) -> Result<NameList<'a>, AllocError> {
    let mut list = NameList::new(alloc);
    match ports {
        Ports::Names(names) => {
            for name in names.as_slice() {
                list = list.with(Lent::of(name))?;
            }
        }
        Ports::Declarations(declarations) => {
            for declaration in declarations.as_slice() {
                for name in declaration.names.as_slice() {
                    list = list.with(Lent::of(&name.name))?;
                }
            }
        }
    }
    Ok(list)
}

/// The values of a module's parameters.
fn values_of<'a>(
    alloc: Global,
    declarations: &'a [ParameterDeclaration],
) -> Result<Listed<Given<'a>>, AllocError> {
    let mut list = Vec::new(alloc);
    for declaration in declarations {
        for assignment in declaration.assignments.as_slice() {
            list.push(Given {
                name: Lent::of(&assignment.name),
                value: Lent::of(assignment.value.get()),
            })?;
        }
    }
    Ok(Listed::from_vec(list))
}

/// A module that is opened alone.
fn outer<'a>(alloc: Global, module: &'a Module) -> Result<Opening<'a>, AllocError> {
    let head = Head {
        prefix: Text::copy(alloc, "")?,
        ports: ports_of(alloc, &module.ports)?,
        given: Listed::from_vec(Vec::new(alloc)),
    };
    let nothing = Scope::new(alloc);
    let mut opening = Opening::new(alloc, Scope::new(alloc), Vec::new(alloc));
    opening.open_module(&head, &nothing, module)?;
    Ok(opening)
}

/// What the first module declares and lists, where its parameters have the values of these.
fn put_opened(
    page: &mut Page,
    alloc: Global,
    module: &Module,
    outside: &Scope,
    given: &[ParameterDeclaration],
) -> Result<(), AllocError> {
    let head = Head {
        prefix: Text::copy(alloc, "u.")?,
        ports: ports_of(alloc, &module.ports)?,
        given: values_of(alloc, given)?,
    };
    let mut opening = Opening::new(alloc, Scope::new(alloc), Vec::new(alloc));
    opening.open_module(&head, outside, module)?;
    for signal in opening.signals() {
        put_signal(page, signal);
    }
    put_constants(page, opening.scope(), module.parameters.as_slice());
    for step in opening.steps() {
        put_step(page, step);
    }
    Ok(())
}

/// What is printed of the modules of a source.
fn put_modules(page: &mut Page, alloc: Global, modules: &[Module]) -> Result<(), AllocError> {
    match modules {
        [] => page.put("no modules"),
        [module] => put_opened(page, alloc, module, &Scope::new(alloc), &[])?,
        [module, other, ..] => {
            let outside = outer(alloc, other)?;
            put_opened(
                page,
                alloc,
                module,
                outside.scope(),
                other.parameters.as_slice(),
            )?;
        }
    }
    Ok(())
}

/// The page for a source.
fn page_of(alloc: Global, text: &str) -> Result<Page, AllocError> {
    let mut page = Page::new(alloc);
    if !is_short(text) {
        page.put("no tokens");
        return Ok(page);
    }
    let Ok(list) = tokens(alloc, 0, text) else {
        page.put("no tokens");
        return Ok(page);
    };
    match parse(alloc, list.as_slice(), END) {
        Ok(modules) => put_modules(&mut page, alloc, modules.as_slice())?,
        Err(_) => page.put("no trees"),
    }
    Ok(page)
}

/// Prints what is asked for in a line.
pub(crate) fn carry_out<R: Print + AllocGlobal>(rt: &R, line: &str) -> io::Result<()> {
    if line.is_empty() {
        return Ok(());
    }
    println!(rt; "{line}")?;
    if line.starts_with('#') {
        return Ok(());
    }
    let page = page_of(rt.alloc(), line)?;
    println!(rt; "{}", page.text())
}
