//! A module by itself, opened.
ghost use Rattle.std.specs.Prelude.{IfOk};
ghost use Rattle.flat_scopes.specs.Views.{opened_of};
ghost use Rattle.tb_signals.specs.Opened.{IsOpened};

use flat_scopes::{Head, NameList, Opening, ports_of};
use mcy_base::Text;
use std::alloc::{AllocError, Global};
use vlog_meaning::Scope;
use vlog_syntax::{Listed, Module};

/// The module, opened by itself. Nothing is refused here: what is wrong is listed at its place.
pub fn open_alone<'a>(alloc: Global, module: &'a Module) -> Result<Opening<'a>, AllocError>
    ensures { IfOk result (λ o. IsOpened module.now (opened_of o)) }
{
    let ports = ports_of(alloc, &module.ports)?;
    let head = Head {
        prefix: Text::copy(alloc, "")?,
        ports: NameList::of(alloc, ports.as_slice())?,
        given: Listed::from_vec(Vec::new(alloc)),
    };
    let mut opening = Opening::new(alloc, Scope::new(alloc), Vec::new(alloc));
    opening.open_module(&head, &Scope::new(alloc), module)?;
    Ok(opening)
}
