//! What literals and gates are worth. The value of a variable stands at its number less 1.
use gate_list::{Gate, GateLit};

/// The value of a literal of a variable.
fn variable_value(values: &[bool], literal: i32) -> Option<bool> {
    let place = literal.unsigned_abs().checked_sub(1)?;
    let bit = values.get(place as usize).copied()?;
    Some(bit == (0 < literal))
}

/// The value of a literal.
fn literal_value(values: &[bool], literal: GateLit) -> Option<bool> {
    match literal {
        GateLit::Fixed(bit) => Some(bit),
        GateLit::Var(literal) => variable_value(values, literal),
    }
}

/// The value of a gate.
pub(crate) fn gate_value(values: &[bool], gate: Gate) -> Option<bool> {
    match gate {
        Gate::And { a, b } => Some(variable_value(values, a)? && variable_value(values, b)?),
        Gate::Xor { a, b } => Some(variable_value(values, a)? != variable_value(values, b)?),
        Gate::Mux { s, a, b } => {
            if variable_value(values, s)? {
                variable_value(values, b)
            } else {
                variable_value(values, a)
            }
        }
    }
}

/// The number that literals have.
pub(crate) fn number(values: &[bool], literals: &[GateLit]) -> Option<u128> {
    let mut number = 0u128;
    for literal in literals.iter().rev() {
        let bit = literal_value(values, *literal)?;
        number = number.wrapping_mul(2).wrapping_add(u128::from(bit));
    }
    Some(number)
}
