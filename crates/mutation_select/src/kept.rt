//! The sites that count in a selection.
ghost use Rattle.std.specs.Prelude.{◌≡◌, IfOk};
ghost use Rattle.mutation_select.specs.Selection.{is_kept, kept};

use crate::words::Drawn;
use std::alloc::{AllocError, Global};

/// Whether a site counts: it does where the flag of its number is not set, or where there is none.
fn is_kept(omitted: &[bool], site: &Drawn) -> bool
    ensures { result ≡ is_kept omitted.now site.now }
{
    match omitted.get(site.number as usize) {
        Some(is_omitted) => !*is_omitted,
        None => true,
    }
}

/// The sites that count.
pub(crate) fn keep(
    alloc: Global,
    sites: &[Drawn],
    omitted: &[bool],
) -> Result<Vec<Drawn>, AllocError>
    ensures { IfOk result (λ list. list.items ≡ kept omitted.now sites.now) }
{
    let mut list = Vec::new(alloc);
    for site in sites {
        if is_kept(omitted, site) {
            list.push(*site)?;
        }
    }
    Ok(list)
}
