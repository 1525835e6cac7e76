//! The variables that assignments name, each once, in order of first assignment.
ghost use Rattle.std.specs.Prelude.{◌≡◌, ◌∷◌, [], ◌++◌, map, IfOk, OnOk};
ghost use Rattle.proc_muxes.specs.Builds.{distinct, stands};
ghost use Rattle.process_latches.specs.Writes.{target_of};
ghost use Rattle.process_cells.specs.Processes.{with_write};

use process_latches::Write;
use std::alloc::{AllocError, Global};

/// Whether one of the assignments is of this variable, in this kind.
fn is_among(found: &[Write], number: u32, is_blocking: bool) -> bool
    ensures { result ≡ stands is_blocking (map target_of found.now) number }
{
    for write in found {
        if write.number == number && is_blocking == write.is_blocking {
            return true;
        }
    }
    false
}

/// Adds an assignment of a variable that has none yet in this kind.
fn note(found: &mut Vec<Write>, write: Write) -> Result<(), AllocError>
    ensures { OnOk result (found.new.items ≡ with_write found.old.items write) }
{
    if !is_among(found.as_slice(), write.number, write.is_blocking) {
        found.push(write)?;
    }
    Ok(())
}

/// The first assignments of all variables, in each kind.
fn firsts_of(alloc: Global, writes: &[Write]) -> Result<Vec<Write>, AllocError>
    ensures { IfOk result (λ l. map target_of l.items ≡ distinct (map target_of writes.now)) }
{
    let mut found = Vec::new(alloc);
    for write in writes {
        note(&mut found, *write)?;
    }
    Ok(found)
}

/// The numbers of the variables.
fn numbers_of(alloc: Global, writes: &[Write]) -> Result<Vec<u32>, AllocError>
    ensures { IfOk result (λ l. l.items ≡ map (λ w. w.number) writes.now) }
{
    let mut numbers = Vec::new(alloc);
    for write in writes {
        numbers.push(write.number)?;
    }
    Ok(numbers)
}

/// The numbers of the variables in order of first assignment; each stands once where it has assignments of one kind.
pub fn variables_of(alloc: Global, writes: &[Write]) -> Result<Vec<u32>, AllocError>
    ensures { IfOk result (λ l. l.items ≡ map (λ x. x.number) (distinct (map target_of writes.now))) }
{
    let firsts = firsts_of(alloc, writes)?;
    numbers_of(alloc, firsts.as_slice())
}
