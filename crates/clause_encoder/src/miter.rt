//! A miter: clauses whose models are the steps in which two netlists differ.
//!
//! Variables 1 to `free` are free bits: the inputs and registers that both netlists share. Each further variable is the
//! output of a gate, and is settled by the lesser ones: once these have values, some clause is unit or false. So a search
//! decides free bits alone. Whoever makes a miter proves this (`IsMiter`), and that it keeps to the limits.
ghost use Rattle.clause_encoder.specs.Miters.{IsMiter};

use clause_store::ClauseStore;

/// The clauses of gates in order, and after them at most one clause more. Gate number i, from 0, is the variable
/// `free + 1 + i`.
#[derive(Drop)]
pub struct Miter {
    /// The clauses, whose literals name variables from 1 to `variables`.
    pub store: ClauseStore,
    /// How many variables there are, below 2^25.
    pub variables: u32,
    /// How many of them are free bits, at most 2,048.
    pub free: u32,
    /// What every search may rely on.
    pub ghost made: { IsMiter store variables free },
}
