//! The draws of an even pick: sites are sorted by their lines and by what they draw, so that those of one line stand together,
//! each behind those that are less.
ghost use Rattle.std.specs.Prelude.{◌≡◌, ◌≤◌, length, IfOk, map, None};
ghost use Rattle.std.specs.List.Sorted.{IsPermutation};
ghost use Rattle.mutation_select.specs.Selection.{ranked, number_of};
ghost use Rattle.mutation_select.specs.Walks.{Ascends, rank_after, ranked_from};

use crate::draw::Draw;
use crate::words::Drawn;
use std::alloc::{AllocError, Global};

/// The draws with their ranks, in some order.
pub(crate) fn ranked(alloc: Global, mut sites: Vec<Drawn>) -> Result<Vec<Draw>, AllocError>
    requires few { length sites.items ≤ 4294967295 }
    requires numbered { Ascends 0 (map number_of sites.items) }
    ensures { IfOk result (λ list. IsPermutation (ranked sites.items) list.items) }
{
    sites.sort_unstable();
    by_line(alloc, &sites)
}

/// The draws of sorted sites, with their ranks.
fn by_line(alloc: Global, sites: &[Drawn]) -> Result<Vec<Draw>, AllocError>
    requires { length sites.now ≤ 4294967295 }
    ensures { IfOk result (λ list. list.items ≡ ranked_from None 0 sites.now) }
{
    let mut list = Vec::new(alloc);
    let mut last = None;
    let mut next = 0;
    for site in sites {
        let rank = rank_after(last, next, site);
        list.push(site.with_rank(rank))?;
        last = Some(*site);
        next = rank + 1;
    }
    Ok(list)
}

/// The rank of a site behind another one, and 0 where that one is of another line.
fn rank_after(last: Option<Drawn>, next: u32, site: &Drawn) -> u32
    ensures { result ≡ rank_after last next site.now }
{
    match last {
        Some(last) if last.shares_line(site) => next,
        _ => 0,
    }
}
