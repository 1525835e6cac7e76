//! Products of rows of one width.
ghost use Rattle.std.specs.Prelude.{◌≡◌, ◌+◌, ◌*◌, ◌%◌, ◌≤◌, ◌^◌, All, IfOk, length};
ghost use Rattle.netlist_core.specs.Numbers.{number};
ghost use Rattle.gate_list.specs.Gates.{count, IsLit};
ghost use Rattle.gate_words.specs.Bits.{lit_values, AddsBits};
ghost use Rattle.gate_words.specs.Products.{product_of};

use crate::operation::Operation;
use crate::rows::{repeated, row};
use crate::shifts::{Way, moved};
use crate::sums::sum;
use gate_list::{GateList, GateLit};
use std::alloc::{AllocError, Global};

/// The product of two rows, cut to their width.
pub fn product(
    alloc: Global,
    a: &[GateLit],
    b: &[GateLit],
    gates: &mut GateList,
) -> Result<Vec<GateLit>, AllocError>
    requires room { length gates.old.made ≤ 2 ^ 29 }
    requires narrow { length a.now ≤ 128 }
    requires a { All (IsLit (count gates.old)) a.now }
    requires b { All (IsLit (count gates.old)) b.now }
    requires same { length a.now ≡ length b.now }
    ensures made { IfOk result (λ bits. record { gates = gates.new; bits = bits.items } ≡ product_of gates.old a.now b.now) }
    ensures adds { IfOk result (λ bits. AddsBits gates.old gates.new bits.items (length a.now) (6 * (length a.now * length a.now)) (λ values found. number found ≡ number (lit_values values a.now) * number (lit_values values b.now) % 2 ^ length a.now)) }
{
    let mut so_far = repeated(alloc, GateLit::Fixed(false), a.len())?;
    for i in 0..b.len() {
        let shifted = moved(alloc, Way::Up, i, GateLit::Fixed(false), a)?;
        let bit = repeated(alloc, b[i], a.len())?;
        let next = row(alloc, Operation::And, &shifted, &bit, gates)?;
        so_far = sum(alloc, &so_far, &next, GateLit::Fixed(false), gates)?;
    }
    Ok(so_far)
}
