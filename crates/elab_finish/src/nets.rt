//! Where the nets of a builder are joined to, and how many there may be.
ghost use Rattle.std.specs.Prelude.{◌≡◌, ◌<◌, ◌≤◌, ◌^◌, ℕ, slice_get, Some};
ghost use Rattle.netlist_core.specs.declared.bit.Bit.TheVariants.{Net};
ghost use Rattle.flat_runs.specs.Adding.{IsBit};
ghost use Rattle.elab_finish.specs.Loops.{next_of};
ghost use Rattle.elab_finish.specs.Searching.{IsNext};

use net_builder::Builder;
use netlist_core::Bit;

/// The net that a net is joined to.
pub(crate) fn next_net(builder: &Builder, net: u32) -> Option<u32>
    ensures { IsNext (next_of builder.now net) result }
{
    match builder.joined(net) {
        Some(Bit::Net(next)) => Some(next),
        _ => None,
    }
}

/// A number above the net, and not less than another.
fn above_bit(bit: Bit, least: usize) -> usize
    requires { least ≤ 2 ^ 32 }
    ensures net { (n : ℕ) → bit ≡ Net n → n < result }
    ensures least { least ≤ result }
    ensures few { result ≤ 2 ^ 32 }
{
    match bit {
        Bit::Net(net) => least.max(net as usize + 1),
        Bit::Fixed(_) => least,
    }
}

/// A number above the nets of these bits, and not less than another.
fn above(bits: &[Bit], least: usize) -> usize
    requires { least ≤ 2 ^ 32 }
    ensures bits { (i n : ℕ) → slice_get bits.now i ≡ Some (Net n) → n < result }
    ensures least { least ≤ result }
    ensures few { result ≤ 2 ^ 32 }
{
    let mut limit = least;
    for bit in bits {
        limit = above_bit(*bit, limit);
    }
    limit
}

/// A number above the nets of all signals.
pub(crate) fn net_limit(builder: &Builder) -> usize
    ensures signals { (k i n : ℕ) → IsBit builder.now k i n → n < result }
    ensures few { result ≤ 2 ^ 32 }
{
    let mut limit = 0;
    for number in 0..builder.signal_count() {
        limit = above(builder.bits(number), limit);
    }
    limit
}
