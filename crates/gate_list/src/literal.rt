//! Literals of gates: what a gate reads, and what a bit of a cell becomes.
ghost use Rattle.std.specs.Prelude.{◌≡◌, ◌-◌, ◌^◌};
ghost use Rattle.gate_list.specs.Gates.{IsLit};
ghost use Rattle.gate_list.specs.Folding.{negated, negated_if};

/// A constant, or the literal of a variable: its number, or the negative number for its negation.
#[derive(Clone, Copy, Debug, PartialEq, Eq)]
pub enum GateLit {
    Fixed(bool),
    Var(i32),
}

impl GateLit {
    /// The negation.
    pub fn negated(self) -> GateLit
        requires { IsLit (2 ^ 31 - 1) self }
        ensures { result ≡ negated self }
    {
        match self {
            GateLit::Fixed(bit) => GateLit::Fixed(!bit),
            GateLit::Var(literal) => GateLit::Var(-literal),
        }
    }

    /// The negation where this is wanted.
    pub fn negated_if(self, negate: bool) -> GateLit
        requires { IsLit (2 ^ 31 - 1) self }
        ensures { result ≡ negated_if negate self }
    {
        if negate { self.negated() } else { self }
    }
}
