//! The search for a model: it decides, propagates, and learns from conflicts, a number of times.
ghost use Rattle.std.specs.Prelude.{◌≡◌, ◌+◌, IfOk, IfSome, vec_len};

use crate::clauses::{Clauses, Watch};
use crate::conflict::Walk;
use crate::queue::Queue;
use crate::trail::{Trail, value_of};
use clause_cone::Cone;
use clause_encoder::Miter;
use clause_store::{ClauseStore, Lit};
use std::alloc::{AllocError, Global};

/// After how many conflicts the search begins anew for the first time.
const TURN: u32 = 16;

/// A search for a model.
#[derive(Drop)]
struct Guide {
    clauses: Clauses,
    trail: Trail,
    queue: Queue,
    walk: Walk,
}

/// What decisions have come to.
enum End {
    /// All variables have values.
    Model,
    /// The clause with this number is false.
    Conflict(usize),
    /// There is no model.
    Refuted,
}

/// Values of variable 0 and of the free bits with which the clauses of a miter may have a model, if so many conflicts lead to some.
pub fn guess(alloc: Global, miter: &Miter, conflicts: u32) -> Result<Option<Vec<bool>>, AllocError>
    ensures { IfOk result (λ found. IfSome found (λ values. vec_len values ≡ miter.now.free + 1)) }
{
    let mut guide = Guide::new(alloc, miter.variables)?;
    if guide.load(alloc, miter)? && guide.search(alloc, conflicts)? {
        Ok(Some(free_values(alloc, &guide.trail, miter.free)?))
    } else {
        Ok(None)
    }
}

/// The values of variable 0 and of the free bits, false where one is open.
fn free_values(alloc: Global, trail: &Trail, free: u32) -> Result<Vec<bool>, AllocError>
    ensures { IfOk result (λ values. vec_len values ≡ free + 1) }
{
    let mut values = vec![in alloc; false; 1]?;
    for v in 0..free {
        values.push(is_true(trail, v + 1))?;
    }
    Ok(values)
}

/// Whether a variable is true.
fn is_true(trail: &Trail, v: u32) -> bool {
    match trail.values.get(v as usize) {
        Some(value) => *value == Some(true),
        None => false,
    }
}

/// The number at this place of Luby's sequence: 1, 1, 2, 1, 1, 2, 4, ..
fn luby(place: u32) -> u32 {
    let mut place = place;
    for _ in 0..32 {
        let next = place.saturating_add(1);
        if next.is_power_of_two() {
            return next / 2;
        }
        let whole = next.leading_zeros().min(31);
        place = place.saturating_sub((u32::MAX >> whole) / 2);
    }
    1
}

impl Guide {
    /// No clauses.
    fn new(alloc: Global, variables: u32) -> Result<Guide, AllocError> {
        Ok(Guide {
            clauses: Clauses::new(alloc, variables)?,
            trail: Trail::new(alloc, variables)?,
            queue: Queue::new(alloc, variables)?,
            walk: Walk::new(alloc, variables)?,
        })
    }

    /// Takes in the clauses of the last one's cone. The queue begins with the gates, so the free bits come first. Answers whether none of them is false.
    fn load(&mut self, alloc: Global, miter: &Miter) -> Result<bool, AllocError> {
        let Cone { left_out, mut bits } = Cone::new(
            alloc,
            &miter.store,
            miter.variables,
            miter.free,
        )?;
        let mut last = miter.free;
        for (place, is_out) in left_out.iter().enumerate() {
            if *is_out || place >= miter.store.len() as usize {
                continue;
            }
            let clause = miter.store.clause(place as u32 + 1);
            if !self.take(clause)? {
                return Ok(false);
            }
            last = self.order(clause, last);
        }
        bits.sort()?;
        for v in &bits {
            self.queue.add(*v, true);
        }
        Ok(true)
    }

    /// Puts the greatest variable of a clause into the queue where it is greater than all before. Answers the greatest so far.
    fn order(&mut self, clause: &[Lit], last: u32) -> u32 {
        let mut greatest = last;
        for l in clause {
            greatest = greatest.max(l.unsigned_abs());
        }
        if greatest > last {
            self.queue.add(greatest, true);
        }
        greatest
    }

    /// Takes in a clause. Answers whether it isn't false.
    fn take(&mut self, clause: &[Lit]) -> Result<bool, AllocError> {
        match clause {
            [] => return Ok(false),
            [l] => match value_of(&self.trail.values, *l) {
                Some(value) => return Ok(value),
                None => self.trail.assign(*l, 0)?,
            },
            _ => {
                self.clauses.add(clause)?;
            }
        }
        Ok(true)
    }

    /// Searches until so many conflicts were met. Answers whether all variables have values.
    fn search(&mut self, alloc: Global, conflicts: u32) -> Result<bool, AllocError> {
        let mut begun: u32 = 1;
        let mut left = TURN;
        for _ in 0..conflicts {
            match self.run()? {
                End::Model => return Ok(true),
                End::Refuted => return Ok(false),
                End::Conflict(number) => self.learn(alloc, number)?,
            }
            left = left.saturating_sub(1);
            if left == 0 {
                begun = begun.saturating_add(1);
                left = luby(begun).saturating_mul(TURN);
                self.keep_levels(0);
            }
        }
        Ok(false)
    }

    /// Decides and propagates until a clause is false or all variables have values.
    fn run(&mut self) -> Result<End, AllocError> {
        for _ in 0..=self.trail.values.len() {
            if let Some(number) = self.propagate()? {
                if self.trail.level() == 0 {
                    return Ok(End::Refuted);
                }
                return Ok(End::Conflict(number));
            }
            match self.queue.next_open(&self.trail.values) {
                Some(v) => self.trail.decide(v)?,
                None => return Ok(End::Model),
            }
        }
        Ok(End::Refuted)
    }

    /// Makes literals true until no clause is unit. Answers the number of a clause that is false, if there is one.
    fn propagate(&mut self) -> Result<Option<usize>, AllocError> {
        for _ in 0..=self.trail.values.len() {
            let l = match self.trail.literals.get(self.trail.head) {
                Some(l) => *l,
                None => return Ok(None),
            };
            if let Some(number) = self.look_at_watchers(l.saturating_neg())? {
                return Ok(Some(number));
            }
            self.trail.head = self.trail.head.saturating_add(1);
        }
        Ok(None)
    }

    /// Looks at the clauses that watch a literal that has become false. Answers the number of one that is false, if there is one.
    fn look_at_watchers(&mut self, l: Lit) -> Result<Option<usize>, AllocError> {
        let mut place: usize = 0;
        for _ in 0..self.clauses.watching(l) {
            let number = match self.clauses.watcher(l, place) {
                Some(number) => number,
                None => return Ok(None),
            };
            match self.clauses.look(&self.trail.values, number, l)? {
                Watch::Falsified => return Ok(Some(number)),
                Watch::Moved => self.clauses.drop_watcher(l, place),
                Watch::Kept => place = place.saturating_add(1),
                Watch::Unit(other) => {
                    self.trail.assign(other, number.saturating_add(1))?;
                    place = place.saturating_add(1);
                }
            }
        }
        Ok(None)
    }

    /// Learns from a clause that is false, and goes back to where what was learned makes a literal true.
    fn learn(&mut self, alloc: Global, conflict: usize) -> Result<(), AllocError> {
        let learned = self
            .walk
            .learn(alloc, &self.trail, &self.clauses, conflict)?;
        self.keep_levels(learned.level);
        for l in &self.walk.met {
            let is_open = value_of(&self.trail.values, *l).is_none();
            self.queue.touch(l.unsigned_abs(), is_open);
        }
        self.walk.clear();
        match learned.clause.as_slice() {
            [] => Ok(()),
            [l] => self.trail.assign(*l, 0),
            [l, ..] => {
                let number = self.clauses.add(&learned.clause)?;
                self.trail.assign(*l, number.saturating_add(1))
            }
        }
    }

    /// Takes back all levels but so many.
    fn keep_levels(&mut self, level: usize) {
        let start = self.trail.keep_levels(level);
        for _ in start..self.trail.literals.len() {
            if let Some(l) = self.trail.take_back() {
                self.queue.reopen(l.unsigned_abs());
            }
        }
    }
}
