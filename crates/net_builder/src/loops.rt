//! The least net on a loop of joints.
//!
//! Each loop is gone round once, from a net of it. `seen` tells which nets were gone through; a net past its end counts as such.
ghost use Rattle.std.specs.Prelude.{◌≡◌, ◌⊎◌, ℕ, ◌≤◌, ◌<◌, true, IfOk, length};
ghost use Rattle.std.specs.List.{Contains};
ghost use Rattle.net_builder.specs.Finished.{Follows, IsOnLoop};
ghost use Rattle.net_builder.specs.Stepping.{next_in};
ghost use Rattle.net_builder.specs.Rounds.{seen_in, IsRound, IsClosed};

use crate::steps::{Step, Steps};
use std::alloc::{AllocError, Global};

/// Whether a net was gone through.
fn is_seen(seen: &[bool], net: u32) -> bool
    ensures { result ≡ seen_in seen.now net }
{
    match seen.get(net as usize) {
        Some(is) => *is,
        None => true,
    }
}

/// Goes round a loop from one of its nets, and gives the least of its nets and of the least so far.
fn go_round(steps: &Steps, seen: &mut Vec<bool>, from: u32, least: u32) -> u32
    requires loop_net { IsOnLoop (next_in steps.now) from }
    requires least { IsOnLoop (next_in steps.now) least }
    requires round { IsClosed (next_in steps.now) seen.old.items least }
    ensures from { seen_in seen.new.items from ≡ true }
    ensures stays { (n : ℕ) → seen_in seen.old.items n ≡ true → seen_in seen.new.items n ≡ true }
    ensures least { IsOnLoop (next_in steps.now) result }
    ensures round { IsClosed (next_in steps.now) seen.new.items result }
{
    let mut net = from;
    let mut found = least;
    while !is_seen(seen, net) {
        seen[net as usize] = true;
        found = found.min(net);
        match steps.of(net) {
            Step::On(next) => net = next,
            Step::Stays | Step::Constant(_) => return found,
        }
    }
    found
}

/// The least net on one of the loops, of each of which a net is given.
pub(crate) fn least_on_loop(alloc: Global, steps: &Steps, loops: &[u32]) -> Result<u32, AllocError>
    requires some { 1 ≤ length loops.now }
    requires loops { (c : ℕ) → Contains loops.now c → IsOnLoop (next_in steps.now) c }
    ensures least { IfOk result (IsOnLoop (next_in steps.now)) }
    ensures below { IfOk result (λ least. (c n : ℕ) → Contains loops.now c → (n ≡ c) ⊎ Follows (next_in steps.now) c n → IsOnLoop (next_in steps.now) n → least ≤ n) }
{
    let mut seen = vec![in alloc; false; steps.len()]?;
    let mut least = loops[0];
    for net in loops {
        least = go_round(steps, &mut seen, *net, least);
    }
    Ok(least)
}
