//! The gates made so far, each once.
//!
//! Gate number i, from 0, is the variable `free + 1 + i`. Invariant: there are at most 2,048 free bits and fewer than 2^31 - 2,049
//! gates, and each gate reads variables that stand before it. Contracts see the free bits and the list of gates.
ghost use Rattle.std.specs.Prelude.{false, true, not, if◌then◌else◌, pos, ◌≡◌, ◌-◌, ◌<◌, ◌≤◌, ◌^◌, ◌∷◌, ◌↔◌, [], length, Some, slice_get, OnOk, OnErr, IfOk, IsTrue};
ghost use Rattle.gate_list.specs.declared.literal.GateLit.TheVariants.{Var};
ghost use Rattle.gate_list.specs.Gates.{Gates, count, IsLit, Reads, AreOrdered, IsLiteral, lit_value, Adds};
ghost use Rattle.gate_list.specs.Folding.{Made, and_gate, xor_gate, with_gate, and_of, or_of, xor_of, mux_at, mux_of};

use crate::gate::Gate;
use crate::literal::GateLit;
use indexmap::IndexSet;
use std::alloc::{AllocError, Global};
use std::marker::Model;

/// Gates over free bits.
#[derive(Drop)]
pub struct GateList {
    free: u32,
    gates: IndexSet<Gate>,
}

impl Model for GateList {
    ghost use Rattle.std.specs.Prelude.{◌≤◌, ◌<◌, ◌^◌, length};
    ghost use Rattle.gate_list.specs.Gates.{Gates, AreOrdered};

    ghost Value = { Gates };

    ghost view = { λ s. record { free = s.free; made = s.gates.keys } };

    ghost invariant = { λ s. (s.free ≤ 2048) × (length s.gates.keys ≤ 2 ^ 30) × AreOrdered s.free s.gates.keys };
}

impl GateList {
    /// No gates over this many free bits.
    pub fn new(alloc: Global, free: u32) -> GateList
        requires { free ≤ 2048 }
        ensures { result ≡ record { free = free; made = [] } }
    {
        GateList {
            free,
            gates: IndexSet::new(alloc),
        }
    }

    /// How many free bits there are.
    pub fn free(&self) -> u32
        ensures number { result ≡ self.now.free }
        ensures few { self.now.free ≤ 2048 }
    {
        self.free
    }

    /// The number of gates.
    pub fn len(&self) -> u32
        ensures number { result ≡ length self.now.made }
        ensures few { length self.now.made ≤ 2 ^ 30 }
        ensures ordered { AreOrdered self.now.free self.now.made }
    {
        let _ = &self.free;
        self.gates.len() as u32
    }

    /// The gate with this number, from 0.
    pub fn gate(&self, number: u32) -> Gate
        requires { number < length self.now.made }
        ensures { slice_get self.now.made number ≡ Some result }
    {
        self.gates.as_slice()[number as usize]
    }

    /// Whether a literal is a constant or names a variable that there is.
    pub fn has(&self, literal: GateLit) -> bool
        ensures { IsTrue result ↔ IsLit (count self.now) literal }
    {
        match literal {
            GateLit::Fixed(_) => true,
            GateLit::Var(literal) => {
                let variable = literal.unsigned_abs();
                0 < variable && variable <= self.free + self.len()
            }
        }
    }

    /// The variable of a gate with these inputs.
    fn variable_of(&mut self, gate: Gate) -> Result<GateLit, AllocError>
        requires room { length self.old.made < 2 ^ 30 }
        requires reads { Reads (count self.old) gate }
        ensures made { IfOk result (λ lit. record { gates = self.new; lit = lit } ≡ with_gate self.old gate) }
        ensures err { OnErr result (self.new ≡ self.old) }
    {
        match self.gates.insert_full(gate) {
            Ok((place, _)) => Ok(variable(self.free + 1 + place as u32)),
            Err(_) => Err(AllocError),
        }
    }
}

impl GateList {
    /// The conjunction of two literals. Where there is no memory, the list stays as it was.
    pub fn and(&mut self, a: GateLit, b: GateLit) -> Result<GateLit, AllocError>
        requires room { length self.old.made < 2 ^ 30 }
        requires a { IsLit (count self.old) a }
        requires b { IsLit (count self.old) b }
        ensures made { IfOk result (λ lit. record { gates = self.new; lit = lit } ≡ and_of self.old a b) }
        ensures adds { IfOk result (λ lit. Adds self.old self.new lit (λ values. if lit_value values a then lit_value values b else false)) }
        ensures err { OnErr result (self.new ≡ self.old) }
    {
        self.conjoined(a, b)
    }

    /// The disjunction of two literals. Where there is no memory, the list stays as it was.
    pub fn or(&mut self, a: GateLit, b: GateLit) -> Result<GateLit, AllocError>
        requires room { length self.old.made < 2 ^ 30 }
        requires a { IsLit (count self.old) a }
        requires b { IsLit (count self.old) b }
        ensures made { IfOk result (λ lit. record { gates = self.new; lit = lit } ≡ or_of self.old a b) }
        ensures adds { IfOk result (λ lit. Adds self.old self.new lit (λ values. if lit_value values a then true else lit_value values b)) }
        ensures err { OnErr result (self.new ≡ self.old) }
    {
        self.disjoined(a, b)
    }

    /// Whether two literals differ. Where there is no memory, the list stays as it was.
    pub fn xor(&mut self, a: GateLit, b: GateLit) -> Result<GateLit, AllocError>
        requires room { length self.old.made < 2 ^ 30 }
        requires a { IsLit (count self.old) a }
        requires b { IsLit (count self.old) b }
        ensures made { IfOk result (λ lit. record { gates = self.new; lit = lit } ≡ xor_of self.old a b) }
        ensures adds { IfOk result (λ lit. Adds self.old self.new lit (λ values. if lit_value values a then not (lit_value values b) else lit_value values b)) }
        ensures err { OnErr result (self.new ≡ self.old) }
    {
        self.told_apart(a, b)
    }

    /// `a` where `s` is 0, and `b` where it is 1. Where there is no memory, the list stays as it was.
    pub fn mux(&mut self, s: GateLit, a: GateLit, b: GateLit) -> Result<GateLit, AllocError>
        requires room { length self.old.made < 2 ^ 30 }
        requires s { IsLit (count self.old) s }
        requires a { IsLit (count self.old) a }
        requires b { IsLit (count self.old) b }
        ensures made { IfOk result (λ lit. record { gates = self.new; lit = lit } ≡ mux_of self.old s a b) }
        ensures adds { IfOk result (λ lit. Adds self.old self.new lit (λ values. if lit_value values s then lit_value values b else lit_value values a)) }
        ensures err { OnErr result (self.new ≡ self.old) }
    {
        self.chosen(s, a, b)
    }

    /// The conjunction as it is made.
    fn conjoined(&mut self, a: GateLit, b: GateLit) -> Result<GateLit, AllocError>
        requires room { length self.old.made < 2 ^ 30 }
        requires a { IsLit (count self.old) a }
        requires b { IsLit (count self.old) b }
        ensures made { IfOk result (λ lit. record { gates = self.new; lit = lit } ≡ and_of self.old a b) }
        ensures err { OnErr result (self.new ≡ self.old) }
    {
        let _ = &self.free;
        match (a, b) {
            (GateLit::Fixed(false), _) | (_, GateLit::Fixed(false)) => Ok(GateLit::Fixed(false)),
            (GateLit::Fixed(true), other) | (other, GateLit::Fixed(true)) => Ok(other),
            (GateLit::Var(a), GateLit::Var(b)) if a == b => Ok(GateLit::Var(a)),
            (GateLit::Var(a), GateLit::Var(b)) if a == -b => Ok(GateLit::Fixed(false)),
            (GateLit::Var(a), GateLit::Var(b)) => self.variable_of(and_gate(a, b)),
        }
    }

    /// The disjunction as it is made: by De Morgan.
    fn disjoined(&mut self, a: GateLit, b: GateLit) -> Result<GateLit, AllocError>
        requires room { length self.old.made < 2 ^ 30 }
        requires a { IsLit (count self.old) a }
        requires b { IsLit (count self.old) b }
        ensures made { IfOk result (λ lit. record { gates = self.new; lit = lit } ≡ or_of self.old a b) }
        ensures err { OnErr result (self.new ≡ self.old) }
    {
        let _ = &self.free;
        let neither = self.and(a.negated(), b.negated())?;
        Ok(neither.negated())
    }

    /// Whether two literals differ, as it is made.
    fn told_apart(&mut self, a: GateLit, b: GateLit) -> Result<GateLit, AllocError>
        requires room { length self.old.made < 2 ^ 30 }
        requires a { IsLit (count self.old) a }
        requires b { IsLit (count self.old) b }
        ensures made { IfOk result (λ lit. record { gates = self.new; lit = lit } ≡ xor_of self.old a b) }
        ensures err { OnErr result (self.new ≡ self.old) }
    {
        let _ = &self.free;
        match (a, b) {
            (GateLit::Fixed(bit), other) | (other, GateLit::Fixed(bit)) => Ok(other.negated_if(
                bit,
            )),
            (GateLit::Var(a), GateLit::Var(b)) if a == b => Ok(GateLit::Fixed(false)),
            (GateLit::Var(a), GateLit::Var(b)) if a == -b => Ok(GateLit::Fixed(true)),
            (GateLit::Var(a), GateLit::Var(b)) => {
                let lit = self.variable_of(xor_gate(a, b))?;
                Ok(lit.negated_if((a < 0) != (b < 0)))
            }
        }
    }

    /// The choice as it is made.
    fn chosen(&mut self, s: GateLit, a: GateLit, b: GateLit) -> Result<GateLit, AllocError>
        requires room { length self.old.made < 2 ^ 30 }
        requires s { IsLit (count self.old) s }
        requires a { IsLit (count self.old) a }
        requires b { IsLit (count self.old) b }
        ensures made { IfOk result (λ lit. record { gates = self.new; lit = lit } ≡ mux_of self.old s a b) }
        ensures err { OnErr result (self.new ≡ self.old) }
    {
        match s {
            GateLit::Fixed(false) => Ok(a),
            GateLit::Fixed(true) => Ok(b),
            GateLit::Var(_) if a == b => Ok(a),
            GateLit::Var(s) => self.mux_at(s, a, b),
        }
    }

    /// The choice between two different literals.
    fn mux_at(&mut self, s: i32, a: GateLit, b: GateLit) -> Result<GateLit, AllocError>
        requires room { length self.old.made < 2 ^ 30 }
        requires s { IsLiteral (count self.old) s }
        requires a { IsLit (count self.old) a }
        requires b { IsLit (count self.old) b }
        ensures made { IfOk result (λ lit. record { gates = self.new; lit = lit } ≡ mux_at self.old s a b) }
        ensures err { OnErr result (self.new ≡ self.old) }
    {
        let _ = &self.free;
        match (a, b) {
            (GateLit::Fixed(false), _) => self.and(GateLit::Var(s), b),
            (GateLit::Fixed(true), _) => self.or(GateLit::Var(-s), b),
            (GateLit::Var(_), GateLit::Fixed(false)) => self.and(GateLit::Var(-s), a),
            (GateLit::Var(_), GateLit::Fixed(true)) => self.or(GateLit::Var(s), a),
            (GateLit::Var(a), GateLit::Var(b)) => self.variable_of(Gate::Mux { s, a, b }),
        }
    }
}

/// The literal of a variable.
fn variable(number: u32) -> GateLit
    requires { number < 2 ^ 31 }
    ensures { result ≡ Var (pos number) }
{
    GateLit::Var(number as i32)
}

/// A conjunction, with its inputs in order of variable.
fn and_gate(a: i32, b: i32) -> Gate
    requires a { IsLiteral (2 ^ 31 - 1) a }
    requires b { IsLiteral (2 ^ 31 - 1) b }
    ensures { result ≡ and_gate a b }
{
    if a.unsigned_abs() <= b.unsigned_abs() {
        Gate::And { a, b }
    } else {
        Gate::And { a: b, b: a }
    }
}

/// An exclusive or of variables, in order.
fn xor_gate(a: i32, b: i32) -> Gate
    requires a { IsLiteral (2 ^ 31 - 1) a }
    requires b { IsLiteral (2 ^ 31 - 1) b }
    ensures { result ≡ xor_gate a b }
{
    if a.unsigned_abs() <= b.unsigned_abs() {
        Gate::Xor {
            a: a.abs(),
            b: b.abs(),
        }
    } else {
        Gate::Xor {
            a: b.abs(),
            b: a.abs(),
        }
    }
}
