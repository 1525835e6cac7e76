//! The miter of gates and of literals of which one is to be true.
//!
//! Each gate has the three or four clauses that give its variable its value (Tseitin, 1968). So the values of the free bits settle
//! every gate, in their order, by unit propagation.
ghost use Rattle.std.specs.Prelude.{◌≡◌, ◌+◌, ◌-◌, ◌*◌, ◌<◌, ◌≤◌, ◌^◌, ◌++◌, ◌∷◌, ◌↔◌, [], length, sum_by, suc, pos, neg_ℤ, All, OnOk, IfOk};
ghost use Rattle.clause_store.specs.Clauses.{IsModel, Values, variable};
ghost use Rattle.gate_list.specs.declared.gate.Gate.TheVariants.{And, Xor, Mux};
ghost use Rattle.gate_list.specs.Gates.{count, IsLit, IsLiteral, Reads, Hold};
ghost use Rattle.gate_clauses.specs.Encoding.{gate_clauses, clauses_from, open_lits, has_one, one_true, miter_clauses, IsSome};

use clause_encoder::Miter;
use clause_store::{ClauseStore, Lit};
use gate_list::{Gate, GateList, GateLit};
use std::alloc::{AllocError, Global};

/// The clauses of the gates, and that one of the literals is true: they have a model exactly where the gates can have values in
/// which one of the literals is true.
pub fn miter(alloc: Global, gates: &GateList, literals: &[GateLit]) -> Result<Miter, AllocError>
    requires few_gates { length gates.now.made ≤ 1310720 }
    requires few_literals { length literals.now ≤ 2 ^ 21 }
    requires over { All (IsLit (count gates.now)) literals.now }
    ensures clauses { IfOk result (λ m. m.store ≡ miter_clauses gates.now literals.now) }
    ensures variables { IfOk result (λ m. m.variables ≡ count gates.now) }
    ensures free { IfOk result (λ m. m.free ≡ gates.now.free) }
    ensures models { IfOk result (λ m. (values : Values) → IsModel values m.store ↔ (Hold gates.now values × IsSome values literals.now)) }
{
    let mut store = ClauseStore::new(alloc);
    push_gates(&mut store, gates)?;
    push_one(alloc, &mut store, literals)?;
    Ok(Miter {
        store,
        variables: gates.free() + gates.len(),
        free: gates.free(),
    })
}

/// The clauses of all gates.
fn push_gates(store: &mut ClauseStore, gates: &GateList) -> Result<(), AllocError>
    requires empty { store.old ≡ [] }
    requires few { length gates.now.made ≤ 1310720 }
    ensures { OnOk result (store.new ≡ clauses_from (suc gates.now.free) gates.now.made) }
{
    let first = gates.free() + 1;
    for number in 0..gates.len() {
        push_gate(store, literal_of(first + number), gates.gate(number))?;
    }
    Ok(())
}

/// The clauses of one gate.
fn push_gate(store: &mut ClauseStore, y: Lit, gate: Gate) -> Result<(), AllocError>
    requires number { length store.old < 2 ^ 23 }
    requires room { sum_by length store.old < 2 ^ 24 }
    requires y { IsLiteral (2 ^ 31 - 1) y }
    requires reads { Reads (2 ^ 31 - 1) gate }
    ensures { OnOk result (store.new ≡ store.old ++ gate_clauses y gate) }
{
    match gate {
        Gate::And { a, b } => push_and(store, y, a, b),
        Gate::Xor { a, b } => push_xor(store, y, a, b),
        Gate::Mux { s, a, b } => push_mux(store, y, s, a, b),
    }
}

/// The clauses of a conjunction.
fn push_and(store: &mut ClauseStore, y: Lit, a: Lit, b: Lit) -> Result<(), AllocError>
    requires number { length store.old < 2 ^ 23 }
    requires room { sum_by length store.old < 2 ^ 24 }
    requires y { IsLiteral (2 ^ 31 - 1) y }
    requires a { IsLiteral (2 ^ 31 - 1) a }
    requires b { IsLiteral (2 ^ 31 - 1) b }
    ensures { OnOk result (store.new ≡ store.old ++ gate_clauses y (And a b)) }
{
    let not_y = negation(y);
    let not_a = negation(a);
    let not_b = negation(b);
    push_two(store, not_y, a)?;
    push_two(store, not_y, b)?;
    push_three(store, y, not_a, not_b)?;
    Ok(())
}

/// The clauses of an exclusive or.
fn push_xor(store: &mut ClauseStore, y: Lit, a: Lit, b: Lit) -> Result<(), AllocError>
    requires number { length store.old < 2 ^ 23 }
    requires room { sum_by length store.old < 2 ^ 24 }
    requires y { IsLiteral (2 ^ 31 - 1) y }
    requires a { IsLiteral (2 ^ 31 - 1) a }
    requires b { IsLiteral (2 ^ 31 - 1) b }
    ensures { OnOk result (store.new ≡ store.old ++ gate_clauses y (Xor a b)) }
{
    let not_y = negation(y);
    let not_a = negation(a);
    let not_b = negation(b);
    push_three(store, not_y, a, b)?;
    push_three(store, not_y, not_a, not_b)?;
    push_three(store, y, not_a, b)?;
    push_three(store, y, a, not_b)?;
    Ok(())
}

/// The clauses of a choice.
fn push_mux(store: &mut ClauseStore, y: Lit, s: Lit, a: Lit, b: Lit) -> Result<(), AllocError>
    requires number { length store.old < 2 ^ 23 }
    requires room { sum_by length store.old < 2 ^ 24 }
    requires y { IsLiteral (2 ^ 31 - 1) y }
    requires s { IsLiteral (2 ^ 31 - 1) s }
    requires a { IsLiteral (2 ^ 31 - 1) a }
    requires b { IsLiteral (2 ^ 31 - 1) b }
    ensures { OnOk result (store.new ≡ store.old ++ gate_clauses y (Mux s a b)) }
{
    let not_y = negation(y);
    let not_s = negation(s);
    let not_a = negation(a);
    let not_b = negation(b);
    push_three(store, not_s, not_b, y)?;
    push_three(store, not_s, b, not_y)?;
    push_three(store, s, not_a, y)?;
    push_three(store, s, a, not_y)?;
    Ok(())
}

/// A clause of two literals.
fn push_two(store: &mut ClauseStore, a: Lit, b: Lit) -> Result<(), AllocError>
    requires number { length store.old < 2 ^ 24 }
    requires room { sum_by length store.old < 2 ^ 25 }
    ensures ok { OnOk result (store.new ≡ store.old ++ (a ∷ b ∷ []) ∷ []) }
    ensures number { OnOk result (length store.new ≡ length store.old + 1) }
    ensures room { OnOk result (sum_by length store.new ≡ sum_by length store.old + 2) }
{
    store.push(&[a, b])?;
    Ok(())
}

/// A clause of three literals.
fn push_three(store: &mut ClauseStore, a: Lit, b: Lit, c: Lit) -> Result<(), AllocError>
    requires number { length store.old < 2 ^ 24 }
    requires room { sum_by length store.old < 2 ^ 25 }
    ensures ok { OnOk result (store.new ≡ store.old ++ (a ∷ b ∷ c ∷ []) ∷ []) }
    ensures number { OnOk result (length store.new ≡ length store.old + 1) }
    ensures room { OnOk result (sum_by length store.new ≡ sum_by length store.old + 3) }
{
    store.push(&[a, b, c])?;
    Ok(())
}

/// The literal of a variable.
fn literal_of(variable: u32) -> Lit
    requires { variable < 2 ^ 31 }
    ensures { result ≡ pos variable }
{
    variable as Lit
}

/// The negation of a literal.
fn negation(literal: Lit) -> Lit
    requires { IsLiteral (2 ^ 31 - 1) literal }
    ensures { result ≡ neg_ℤ literal }
{
    -literal
}

/// The clause that one of the literals is true.
fn push_one(alloc: Global, store: &mut ClauseStore, literals: &[GateLit]) -> Result<(), AllocError>
    requires number { length store.old < 2 ^ 23 }
    requires room { sum_by length store.old < 2 ^ 24 }
    requires few { length literals.now ≤ 2 ^ 21 }
    ensures { OnOk result (store.new ≡ store.old ++ one_true literals.now) }
{
    if is_one_true(literals) {
        return Ok(());
    }
    let mut clause = Vec::new(alloc);
    for literal in literals {
        if let GateLit::Var(literal) = literal {
            clause.push(*literal)?;
        }
    }
    store.push(clause.as_slice())?;
    Ok(())
}

/// Whether one of the literals is 1 as it stands.
fn is_one_true(literals: &[GateLit]) -> bool
    ensures { result ≡ has_one literals.now }
{
    match literals {
        [] => false,
        [GateLit::Fixed(true), ..] => true,
        [_, more @ ..] => is_one_true(more),
    }
}
