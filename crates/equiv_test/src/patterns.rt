//! A look for a model of a miter's clauses: by simulation, 64 patterns of the free bits at a time, and where that finds none by a guess.
//!
//! Each clause but the last defines its greatest variable, which is true where all its other literals are false. Only those of the last
//! one's cone are looked at. Nothing rests on this: what is found is tried on the netlists.
ghost use Rattle.std.specs.Prelude.{◌≡◌, ◌≤◌, IfOk};
ghost use Rattle.netlist_core.specs.Checked.{IsSound, free_bits};
ghost use Rattle.pair_gates.specs.Matching.{AreAlike};
ghost use Rattle.equiv_test.specs.Jobs.{HasSeen};

use crate::place::difference_at;
use crate::verdict::Difference;
use clause_cone::Cone;
use clause_encoder::Miter;
use clause_store::{ClauseStore, Lit};
use cycle_sim::Sim;
use model_guide::guess;
use sat_solver::Assignment;
use std::alloc::{AllocError, Global};

/// How many words of 64 patterns are tried.
const ROUNDS: u32 = 64;

/// After how many conflicts the guess is given up.
const CONFLICTS: u32 = 2000;

/// How many of a word's bits are 1.
#[derive(Clone, Copy)]
enum Density {
    Even,
    Thin,
    Dense,
}

/// Words of 64 bits each, one after the other (xorshift).
#[derive(Clone, Copy)]
struct Words {
    last: u64,
}

impl Words {
    /// The next word.
    fn draw(&mut self) -> u64 {
        self.last ^= self.last << 13;
        self.last ^= self.last >> 7;
        self.last ^= self.last << 17;
        self.last
    }

    /// The next word of this density.
    fn draw_dense(&mut self, density: Density) -> u64 {
        match density {
            Density::Even => self.draw(),
            Density::Thin => self.draw() & self.draw() & self.draw(),
            Density::Dense => self.draw() | self.draw() | self.draw(),
        }
    }
}

/// The density of a round.
fn density_of(round: u32) -> Density {
    match round % 3 {
        0 => Density::Even,
        1 => Density::Thin,
        _ => Density::Dense,
    }
}

/// The patterns under which a literal is true.
fn patterns_of(words: &[u64], literal: Lit) -> u64 {
    match words.get(literal.unsigned_abs() as usize) {
        Some(word) if literal < 0 => !*word,
        Some(word) => *word,
        None => 0,
    }
}

/// The patterns under which one of the literals is true, but for this one.
fn true_patterns(words: &[u64], clause: &[Lit], without: Lit) -> u64 {
    let mut patterns = 0u64;
    for literal in clause {
        if *literal != without {
            patterns |= patterns_of(words, *literal);
        }
    }
    patterns
}

/// The literal of a clause's greatest variable, or 0 where there is none.
fn greatest(clause: &[Lit]) -> Lit {
    let mut greatest: Lit = 0;
    for literal in clause {
        if literal.unsigned_abs() > greatest.unsigned_abs() {
            greatest = *literal;
        }
    }
    greatest
}

/// Makes the greatest variable of a clause true where all its other literals are false.
fn define(words: &mut [u64], clause: &[Lit]) {
    let literal = greatest(clause);
    let variable = literal.unsigned_abs() as usize;
    if literal > 0 && variable < words.len() {
        words[variable] |= !true_patterns(words, clause, literal);
    }
}

/// Whether the clause at this place is in the cone.
fn is_inside(left_out: &[bool], place: usize) -> bool {
    match left_out.get(place) {
        Some(is_out) => !*is_out,
        None => false,
    }
}

/// The patterns under which the last clause is true, once those of its cone have defined their variables.
fn models(words: &mut [u64], store: &ClauseStore, left_out: &[bool]) -> u64 {
    let count = store.len();
    if count == 0 {
        return u64::MAX;
    }
    for id in 1..count {
        if is_inside(left_out, id as usize - 1) {
            define(words, store.clause(id));
        }
    }
    true_patterns(words, store.clause(count), 0)
}

/// Gives the free bits new values, and makes all other variables false.
fn refresh(words: &mut [u64], free: u32, density: Density, source: &mut Words) {
    for (variable, word) in words.iter_mut().enumerate() {
        *word = if variable <= free as usize {
            source.draw_dense(density)
        } else {
            0
        };
    }
}

/// The values of the free bits in one of the patterns.
fn pattern(alloc: Global, words: &[u64], free: u32, number: u32) -> Result<Assignment, AllocError> {
    let mut values = Vec::new(alloc);
    for word in words.iter().take(free as usize + 1) {
        values.push(*word >> (number % 64) & 1 == 1)?;
    }
    Ok(Assignment::from_values(values))
}

/// Values of the free bits under which the clauses may have a model, if simulation finds some.
fn sample(alloc: Global, miter: &Miter) -> Result<Option<Assignment>, AllocError> {
    let cone = Cone::new(alloc, &miter.store, miter.variables, miter.free)?;
    let mut words = vec![in alloc; 0u64; miter.variables as usize + 1]?;
    let mut source = Words {
        last: 0x9E37_79B9_7F4A_7C15,
    };
    for round in 0..ROUNDS {
        refresh(
            words.as_mut_slice(),
            miter.free,
            density_of(round),
            &mut source,
        );
        let found = models(words.as_mut_slice(), &miter.store, &cone.left_out);
        if found != 0 {
            let number = found.trailing_zeros();
            return Ok(Some(pattern(alloc, words.as_slice(), miter.free, number)?));
        }
    }
    Ok(None)
}

/// Values of the free bits under which the clauses may have a model, if some are found.
fn likely_model(alloc: Global, miter: &Miter) -> Result<Option<Assignment>, AllocError> {
    if let Some(values) = sample(alloc, miter)? {
        return Ok(Some(values));
    }
    match guess(alloc, miter, CONFLICTS)? {
        Some(values) => Ok(Some(Assignment::from_values(values))),
        None => Ok(None),
    }
}

/// A difference of two netlists that such values show, if one is found.
pub(crate) fn seen_difference(
    alloc: Global,
    original: &mut Sim,
    mutant: &mut Sim,
    miter: &Miter,
) -> Result<Option<Difference>, AllocError>
    requires original { IsSound original.old.plan }
    requires mutant { IsSound mutant.old.plan }
    requires alike { AreAlike original.old.plan.raw mutant.old.plan.raw }
    requires few { free_bits original.old.plan.raw ≤ 2048 }
    ensures seen { IfOk result (HasSeen original.old.plan.raw mutant.old.plan.raw) }
    ensures original { original.new.plan ≡ original.old.plan }
    ensures mutant { mutant.new.plan ≡ mutant.old.plan }
{
    match likely_model(alloc, miter)? {
        Some(values) => difference_at(alloc, original, mutant, &values),
        None => Ok(None),
    }
}
