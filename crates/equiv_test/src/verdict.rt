//! What an equivalence test comes to.
use mcy_base::WordList;
use sat_solver::{Attempt, Refutation};

/// Where two steps differ first: the number of an output, or where all outputs are the same, of a register, each from 0.
#[derive(Clone, Copy, Debug, PartialEq, Eq)]
pub enum DiffPlace {
    Output(u32),
    /// What the register takes at the clock differs.
    Register(u32),
}

/// Inputs and registers with which two netlists differ: a word for each input and for each register, and the first place.
pub struct Difference {
    pub inputs: WordList,
    pub registers: WordList,
    pub place: DiffPlace,
}

impl Drop for Difference {
    fn drop(self) {
        let Difference {
            inputs: _inputs,
            registers: _registers,
            place: _place,
        } = self;
    }
}

/// The word of an equivalence test.
#[derive(Drop)]
pub enum EqVerdict {
    /// The netlists are the same in each step, by this refutation.
    NoChange(Refutation),
    /// A step differs.
    Change(Difference),
    /// The search was given up, with as many lemmas as the limit says.
    Unknown(Attempt),
}
