//! The modules of the files' tokens.
ghost use Rattle.std.specs.Prelude.{◌≡◌, ◌⊎◌, ◌<◌, ◌≤◌, ◌^◌, ◌++◌, length, map, All, IfErr, IfOk, OnOk};
ghost use Rattle.vlog_syntax.specs.Nesting.{module_nest};
ghost use Rattle.seen_tokens.specs.Bare.{bare};
ghost use Rattle.source_trees.specs.Files.{AreModules};
ghost use Rattle.source_trees.specs.Faults.{IsTreeFault, IsUnparsed};
ghost use Rattle.source_trees.specs.declared.error.ReadError.TheVariants.{Memory};

use crate::error::ReadError;
use crate::place::end_of;
use mcy_base::SourceFile;
use std::alloc::{AllocError, Global};
use vlog_parse::parse;
use vlog_syntax::Module;
use vlog_token::Token;

/// Adds modules behind those that there are.
fn add_all(modules: &mut Vec<Module>, more: Vec<Module>) -> Result<(), AllocError>
    ensures { OnOk result (modules.new.items ≡ modules.old.items ++ more.items) }
{
    let mut more = more;
    modules.append(&mut more)?;
    Ok(())
}

/// The modules of the files, from their tokens.
pub(crate) fn parse_files(
    alloc: Global,
    files: &[SourceFile],
    given: &[Vec<Token<'_>>],
) -> Result<Vec<Module>, ReadError>
    requires each { length given.now ≡ length files.now }
    requires few { length files.now ≤ 65536 }
    requires short { All (λ f. length f.bytes < 2 ^ 31) files.now }
    ensures modules { IfOk result (λ ms. AreModules (map (λ ts. map bare ts.items) given.now) ms.items) }
    ensures nesting { IfOk result (λ ms. All (λ m. module_nest m ≤ 200) ms.items) }
    ensures refused { IfErr result (λ e. (e ≡ Memory) ⊎ IsUnparsed 0 files.now (map (λ ts. map bare ts.items) given.now) e) }
{
    let mut modules = Vec::new(alloc);
    for (number, file) in files.iter().enumerate() {
        let end = end_of(number as u16, file.bytes.as_slice());
        match parse(alloc, &given[number], end) {
            Ok(more) => add_all(&mut modules, more)?,
            Err(error) => return Err(ReadError::of_parse(error)),
        }
    }
    Ok(modules)
}
