//! The cone of a miter's last clause: the clauses of the gates that it reads, of those that these read, and so on, and the free
//! bits among what they read.
//!
//! Each clause but the last is of the gate of its greatest variable, or over free bits alone, and then it counts as one that is
//! read. A gate's clauses stand one after the other, and there are three of them or more. Nothing rests on this: whoever looks at the
//! cone alone has to look at the rest before it says that it found a model.
ghost use Rattle.std.specs.Prelude.{◌≡◌, ◌<◌, ◌≤◌, length, All, IfOk};

use clause_store::{ClauseStore, Lit};
use std::alloc::{AllocError, Global};
use std::mem;

/// What a last clause reads.
#[derive(Drop)]
pub struct Cone {
    /// For each clause whether it is outside.
    pub left_out: Vec<bool>,
    /// The free bits, in the order in which walks down from the last clause come to them, depth first and from right to left.
    pub bits: Vec<u32>,
}

impl Cone {
    /// The cone of the last of these clauses, of whose variables the first are free bits.
    pub fn new(
        alloc: Global,
        store: &ClauseStore,
        variables: u32,
        free: u32,
    ) -> Result<Cone, AllocError>
        ensures count { IfOk result (λ cone. length cone.left_out.items ≡ length store.now) }
        ensures range { IfOk result (λ cone. All (λ v. (0 < v) × (v ≤ free)) cone.bits.items) }
    {
        let mut reached = vec![in alloc; false; variables as usize + 1]?;
        let left_out = left_out(alloc, store, &mut reached, free)?;
        let first = first_clauses(alloc, store, variables)?;
        let mut bits = walked_bits(alloc, store, &first, &mut reached, free)?;
        add_reached(&mut bits, &reached, free)?;
        Ok(Cone { left_out, bits })
    }
}

/// For each clause whether it is outside. Marks the variables of the others.
fn left_out(
    alloc: Global,
    store: &ClauseStore,
    reached: &mut Vec<bool>,
    free: u32,
) -> Result<Vec<bool>, AllocError>
    ensures { IfOk result (λ flags. length flags.items ≡ length store.now) }
{
    let mut flags = vec![in alloc; true; store.len() as usize]?;
    let mut left = store.len();
    while left > 0 {
        let clause = store.clause(left);
        let gate = greatest(clause);
        if left == store.len() || gate <= free || is_reached(reached, gate) {
            flags[left as usize - 1] = false;
            mark(reached, clause);
        }
        left -= 1;
    }
    Ok(flags)
}

/// The greatest variable of a clause, or 0 where there is none.
fn greatest(clause: &[Lit]) -> u32 {
    let mut greatest = 0;
    for l in clause {
        greatest = l.unsigned_abs().max(greatest);
    }
    greatest
}

/// Marks the variables of a clause.
fn mark(reached: &mut Vec<bool>, clause: &[Lit]) {
    for l in clause {
        if let Some(flag) = reached.get_mut(l.unsigned_abs() as usize) {
            *flag = true;
        }
    }
}

/// Whether a variable is marked.
fn is_reached(reached: &[bool], v: u32) -> bool {
    match reached.get(v as usize) {
        Some(flag) => *flag,
        None => false,
    }
}

/// For each variable the number of the first clause of which it is the greatest, or 0 where there is none.
fn first_clauses(
    alloc: Global,
    store: &ClauseStore,
    variables: u32,
) -> Result<Vec<u32>, AllocError> {
    let mut first = vec![in alloc; 0; variables as usize + 1]?;
    let mut left = store.len();
    while left > 0 {
        if let Some(entry) = first.get_mut(greatest(store.clause(left)) as usize) {
            *entry = left;
        }
        left -= 1;
    }
    Ok(first)
}

/// The free bits that walks down from the literals of the last clause come to. The marks of what they come to are taken away.
fn walked_bits(
    alloc: Global,
    store: &ClauseStore,
    first: &[u32],
    reached: &mut Vec<bool>,
    free: u32,
) -> Result<Vec<u32>, AllocError>
    ensures { IfOk result (λ bits. All (λ v. (0 < v) × (v ≤ free)) bits.items) }
{
    let mut bits = Vec::new(alloc);
    if store.len() > 0 {
        for l in store.clause(store.len()) {
            let mut waiting = vec![in alloc; l.unsigned_abs(); 1]?;
            walk(&mut waiting, store, first, reached, free, &mut bits)?;
        }
    }
    Ok(bits)
}

/// Walks down from the waiting variables, depth first, from right to left, and adds the free bits that it comes to.
fn walk(
    waiting: &mut Vec<u32>,
    store: &ClauseStore,
    first: &[u32],
    reached: &mut Vec<bool>,
    free: u32,
    bits: &mut Vec<u32>,
) -> Result<(), AllocError>
    requires { All (λ v. (0 < v) × (v ≤ free)) bits.old.items }
    ensures { All (λ v. (0 < v) × (v ≤ free)) bits.new.items }
{
    for _step in 0..u64::MAX {
        match waiting.pop() {
            None => return Ok(()),
            Some(v) => {
                if !take_mark(reached, v) {
                    continue;
                }
                if v > free {
                    add_gate(waiting, store, first, v)?;
                } else if v > 0 {
                    bits.push(v)?;
                }
            }
        }
    }
    Ok(())
}

/// Whether a variable is marked. Its mark is taken away.
fn take_mark(reached: &mut Vec<bool>, v: u32) -> bool {
    match reached.get_mut(v as usize) {
        Some(mark) => mem::replace(mark, false),
        None => false,
    }
}

/// Adds the variables of a gate's first three clauses, which are all that it reads.
fn add_gate(
    waiting: &mut Vec<u32>,
    store: &ClauseStore,
    first: &[u32],
    v: u32,
) -> Result<(), AllocError> {
    match first.get(v as usize) {
        Some(number) if *number > 0 => {
            add_variables(waiting, store, *number)?;
            add_variables(waiting, store, number.saturating_add(1))?;
            add_variables(waiting, store, number.saturating_add(2))
        }
        _ => Ok(()),
    }
}

/// Adds the variables of the clause with this number, if there is one.
fn add_variables(
    waiting: &mut Vec<u32>,
    store: &ClauseStore,
    number: u32,
) -> Result<(), AllocError> {
    if number > 0 && number <= store.len() {
        for l in store.clause(number) {
            waiting.push(l.unsigned_abs())?;
        }
    }
    Ok(())
}

/// Adds the free bits that are marked still.
fn add_reached(bits: &mut Vec<u32>, reached: &[bool], free: u32) -> Result<(), AllocError>
    requires { All (λ v. (0 < v) × (v ≤ free)) bits.old.items }
    ensures { All (λ v. (0 < v) × (v ≤ free)) bits.new.items }
{
    for v in 0..free {
        if is_reached(reached, v + 1) {
            bits.push(v + 1)?;
        }
    }
    Ok(())
}
