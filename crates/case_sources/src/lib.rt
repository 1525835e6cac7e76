//! What the programs of cases share that read Verilog sources: their modules, and items that stand alone in a module.
#![tactic(auto)]

use anyhow::{Context, Result, bail};
use case_lines::{END, is_short};
use std::alloc::Global;
use vlog_expand::expand;
use vlog_parse::parse;
use vlog_syntax::{Item, Module, PlainItem};
use vlog_token::tokens;

/// The tokens and uses of macros that a source may have.
const MOST_TOKENS: u32 = 4_000_000;

/// The modules of a source.
pub fn modules_of(alloc: Global, text: &str) -> Result<Vec<Module>> {
    if !is_short(text) {
        bail!("too long");
    }
    let list = tokens(alloc, 0, text).ok().context("no tokens")?;
    let mut limit = MOST_TOKENS;
    let given = expand(alloc, list.as_slice(), END, &mut limit).ok();
    let given = given.context("no tokens")?;
    parse(alloc, given.as_slice(), END).ok().context("no trees")
}

/// The module of an item that a line is, which has the columns of the line.
pub fn module_around(alloc: Global, line: &str) -> Result<Vec<Module>> {
    let text = format!(in alloc; "module m;\n{line}\nendmodule")?;
    modules_of(alloc, text.as_str())
}

/// The first item of the first module.
pub fn first_item(modules: &[Module]) -> Option<&PlainItem> {
    match modules.first()?.items.as_slice() {
        [Item::Plain(item), ..] => Some(item.get()),
        _ => None,
    }
}

/// The module of this name.
pub fn module_named<'a>(modules: &'a [Module], name: &str) -> Result<&'a Module> {
    for module in modules {
        if module.name.as_str() == name {
            return Ok(module);
        }
    }
    bail!("no module")
}
