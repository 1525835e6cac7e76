//! Flags of numbers.
ghost use Rattle.std.specs.Prelude.{IfOk, OnOk};
ghost use Rattle.flat_runs.specs.Meanings.{NoneTwice};
ghost use Rattle.elab_hier.specs.Tops.{AreFlags};

use std::alloc::{AllocError, Global};

/// So many flags, of which those of these numbers are set.
pub(crate) fn flags_of(
    alloc: Global,
    count: usize,
    numbers: &[u32],
) -> Result<Vec<bool>, AllocError>
    ensures { IfOk result (λ v. AreFlags count numbers.now v.items) }
{
    let mut flags = vec![in alloc; false; count]?;
    for number in numbers {
        let place = *number as usize;
        if place >= count {
            return Err(AllocError);
        }
        flags[place] = true;
    }
    Ok(flags)
}

/// Tests that no number stands twice; each is below the count.
pub(crate) fn test_once(alloc: Global, count: usize, numbers: &[u32]) -> Result<(), AllocError>
    ensures { OnOk result (NoneTwice numbers.now) }
{
    let mut seen = vec![in alloc; false; count]?;
    for number in numbers {
        let place = *number as usize;
        if place >= count {
            return Err(AllocError);
        }
        if seen[place] {
            return Err(AllocError);
        }
        seen[place] = true;
    }
    Ok(())
}
