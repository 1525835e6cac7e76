//! What a run aims at, and what it wants of a mutation.
ghost use Rattle.std.specs.Prelude.{◌≡◌, ◌<◌, ◌+◌, ◌^◌};
ghost use Rattle.result_book.specs.Goals.{first_unnamed, is_in, is_named, names_one};

use crate::campaign::NumberList;

/// What a run aims at.
#[derive(Drop)]
pub struct Goal {
    /// A test that was given up under a smaller limit than this one is asked again under this one. 0 asks none again.
    pub retry: u32,
    /// The run is over the mutations whose number has this rest by `parts`.
    pub part: u32,
    pub parts: u32,
    /// Of these, it is over those that are named here, as the list of the mutations counts them, from 1; over all where none is.
    pub mutations: NumberList,
}

/// A test that a run wants of a mutation, and under which limit; 0 for a simulation.
#[derive(Clone, Copy, Debug, PartialEq, Eq)]
pub struct Want {
    pub test: u32,
    pub bound: u32,
}

/// Whether a number, counted from 1, names one of so many mutations.
fn names_one(count: u32, number: u32) -> bool
    ensures { result ≡ names_one count number }
{
    1 <= number && number <= count
}

impl Goal {
    /// Whether the goal names the mutation with this number, counted from 1, or none.
    fn names(&self, number: u32) -> bool
        ensures { result ≡ is_named self.now.mutations number }
    {
        let numbers = self.mutations.as_slice();
        numbers.is_empty() || numbers.contains(&number)
    }

    /// Whether the run is over this mutation.
    pub(crate) fn has(&self, mutation: u32) -> bool
        requires parts { 0 < self.now.parts }
        requires few { mutation + 1 < 2 ^ 32 }
        ensures { result ≡ is_in self.now mutation }
    {
        mutation % self.parts == self.part && self.names(mutation + 1)
    }

    /// The first number of the goal that names none of so many mutations.
    pub fn unnamed(&self, count: u32) -> Option<u32>
        ensures { result ≡ first_unnamed count self.now.mutations }
    {
        for number in self.mutations.as_slice() {
            if !names_one(count, *number) {
                return Some(*number);
            }
        }
        None
    }
}
