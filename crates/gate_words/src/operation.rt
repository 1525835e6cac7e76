//! Operations on two literals.
ghost use Rattle.std.specs.Prelude.{◌≡◌, ◌<◌, ◌^◌, length, IfOk};
ghost use Rattle.gate_list.specs.Gates.{count, IsLit};
ghost use Rattle.gate_words.specs.Rows.{IsOperation, made_by};

use gate_list::{GateList, GateLit};
use std::alloc::AllocError;

/// An operation on two literals, which makes at most one gate.
#[derive(Clone, Copy, Debug, PartialEq, Eq)]
pub enum Operation {
    And,
    Or,
    Xor,
    /// The first where this literal is 0, and the second where it is 1.
    Mux(GateLit),
}

impl Operation {
    /// What the operation makes of two literals.
    pub(crate) fn apply(
        self,
        a: GateLit,
        b: GateLit,
        gates: &mut GateList,
    ) -> Result<GateLit, AllocError>
        requires room { length gates.old.made < 2 ^ 30 }
        requires select { IsOperation (count gates.old) self }
        requires a { IsLit (count gates.old) a }
        requires b { IsLit (count gates.old) b }
        ensures { IfOk result (λ lit. record { gates = gates.new; lit = lit } ≡ made_by self gates.old a b) }
    {
        match self {
            Operation::And => gates.and(a, b),
            Operation::Or => gates.or(a, b),
            Operation::Xor => gates.xor(a, b),
            Operation::Mux(s) => gates.mux(s, a, b),
        }
    }
}
