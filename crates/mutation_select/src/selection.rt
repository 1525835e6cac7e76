//! The selection of sites.
ghost use Rattle.std.specs.Prelude.{◌≡◌, ◌≤◌, length, map, min, IfOk};
ghost use Rattle.std.specs.List.Sorted.{IsPermutation};
ghost use Rattle.mutation_select.specs.Draws.{drawn, generator};
ghost use Rattle.mutation_select.specs.Selection.{draws, kept, number_of, selected, unranked};
ghost use Rattle.mutation_select.specs.Walks.{Ascends};

use crate::draw::Draw;
use crate::even::ranked;
use crate::first::first;
use crate::kept::keep;
use crate::pick::Pick;
use crate::words::{Drawn, draw_words};
use mutation_sites::Site;
use netlist_core::Netlist;
use std::alloc::{AllocError, Global};

/// The numbers of so many of the sites that count, from 0, ascending: of all of them where there are no more. `omitted` tells by
/// their numbers which sites do not count; one without a flag counts. Site number i draws, whether it counts or not, the i-th word
/// of the generator `Lcg128Xsl64` begun from the seed. A plain pick takes the least by word and number. An even one takes the least
/// by rank, word and number, where the rank of a site tells how many of its line, in its file, that count are less by word and
/// number. It takes time by the number of sites, and for an even pick as much as they take to be sorted.
pub fn select(
    alloc: Global,
    netlist: &Netlist,
    sites: &[Site],
    size: u32,
    word_seed: u64,
    pick: Pick,
    omitted: &[bool],
) -> Result<Vec<u32>, AllocError>
    requires { length sites.now ≤ 4294967295 }
    ensures selected { IfOk result (λ numbers. numbers.items ≡ selected pick size (kept omitted.now (drawn netlist.now.raw (generator word_seed) 0 sites.now))) }
    ensures size { IfOk result (λ numbers. length numbers.items ≡ min size (length (kept omitted.now (drawn netlist.now.raw (generator word_seed) 0 sites.now)))) }
{
    let all = draw_words(alloc, netlist, sites, word_seed)?;
    let kept = keep(alloc, &all, omitted)?;
    let draws = draws(alloc, kept, pick)?;
    first(alloc, draws, size)
}

/// The draws of a pick, in some order.
fn draws(alloc: Global, sites: Vec<Drawn>, pick: Pick) -> Result<Vec<Draw>, AllocError>
    requires few { length sites.items ≤ 4294967295 }
    requires numbered { Ascends 0 (map number_of sites.items) }
    ensures { IfOk result (λ list. IsPermutation (draws pick sites.items) list.items) }
{
    match pick {
        Pick::Plain => unranked(alloc, &sites),
        Pick::Even => ranked(alloc, sites),
    }
}

/// The draws without ranks.
fn unranked(alloc: Global, sites: &[Drawn]) -> Result<Vec<Draw>, AllocError>
    ensures { IfOk result (λ list. list.items ≡ unranked sites.now) }
{
    sites.iter().map(|site| site.with_rank(0)).collect(alloc)
}
