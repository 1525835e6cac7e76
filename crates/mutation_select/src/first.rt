//! The first draws of many.
ghost use Rattle.std.specs.Prelude.{◌≡◌, List, length, min, map, IfOk};
ghost use Rattle.std.specs.List.Sorted.{IsPermutation, IsSorted};
ghost use Rattle.std.specs.Ordering.{nat_cmp};
ghost use Rattle.mutation_select.specs.declared.draw.Draw.{Draw};
ghost use Rattle.mutation_select.specs.Selection.{taken, draw_number};
ghost use Rattle.mutation_select.specs.Walks.{Ascends};

use crate::draw::Draw;
use std::alloc::{AllocError, Global};

/// The numbers of the first so many draws, ascending: of all where there are no more.
pub(crate) fn first(alloc: Global, mut draws: Vec<Draw>, size: u32) -> Result<Vec<u32>, AllocError>
    ensures taken { IfOk result (λ numbers. (all : List Draw) → IsPermutation all draws.items → Ascends 0 (map draw_number all) → numbers.items ≡ taken size all) }
    ensures size { IfOk result (λ numbers. length numbers.items ≡ min size (length draws.items)) }
{
    let size = size as usize;
    if size < draws.len() {
        let (first, _, _) = draws.select_nth_unstable(size);
        numbers(alloc, first)
    } else {
        numbers(alloc, &draws)
    }
}

/// The numbers of draws, ascending.
fn numbers(alloc: Global, draws: &[Draw]) -> Result<Vec<u32>, AllocError>
    ensures permutation { IfOk result (λ numbers. IsPermutation (map draw_number draws.now) numbers.items) }
    ensures sorted { IfOk result (λ numbers. IsSorted nat_cmp numbers.items) }
{
    let mut numbers: Vec<u32> = draws.iter().map(|draw| draw.number).collect(alloc)?;
    numbers.sort_unstable();
    Ok(numbers)
}
