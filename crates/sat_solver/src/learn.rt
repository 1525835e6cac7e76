//! Learning from a conflict.
ghost use Rattle.std.specs.Prelude.{◌≡◌, ℕ, ◌+◌, ◌-◌, ◌<◌, ◌≤◌, ◌^◌, ◌++◌, ◌∷◌, [], length, sum_by, All, OnOk, OnErr};
ghost use Rattle.lrat_checker.specs.Tables.{known_of};
ghost use Rattle.sat_solver.specs.Trails.{IsConflict};
ghost use Rattle.sat_solver.specs.Parts.{IsProbing, in_use};
ghost use Rattle.sat_solver.specs.Learning.{IsRoomy, HasLearned};

use crate::analyze::analyze;
use crate::part::numbers_of;
use crate::probe::Probe;
use lrat_checker::{CheckError, Checker};
use std::alloc::{AllocError, Global};

/// Adds the lemma of a conflict, and takes back the levels that it makes void.
pub fn learn(
    alloc: Global,
    checker: &mut Checker,
    probe: &mut Probe,
    free: u32,
    conflict: u32,
) -> Result<(), AllocError>
    requires room { IsRoomy checker.old }
    requires free { free ≡ checker.old.free }
    requires some { All (λ lemma. 0 < length lemma) checker.old.lemmas }
    requires len { length probe.old.propagator.trail.values.items ≡ checker.old.variables + 1 }
    requires probing { IsProbing checker.old probe.old }
    requires store { probe.old.part.store ≡ in_use checker.old probe.old }
    requires conflict { IsConflict (in_use checker.old probe.old) (known_of probe.old.propagator.trail.values.items) conflict }
    ensures ok { OnOk result (HasLearned checker.old checker.new) }
    ensures err { OnErr result (checker.new ≡ checker.old) }
    ensures probing { IsProbing checker.new probe.new }
    ensures len { length probe.new.propagator.trail.values.items ≡ length probe.old.propagator.trail.values.items }
{
    // By its clauses the lemmas are a legal log, and all literals are over these variables.
    let _store = checker.store();
    let learned = analyze(
        alloc,
        &probe.part.store,
        &probe.propagator.trail,
        free,
        conflict,
    )?;
    let hints = numbers_of(alloc, &probe.part.numbers, learned.hints.as_slice())?;
    match checker.add(&learned.lemma, &hints) {
        Ok(()) => {
            if learned.back < probe.propagator.trail.starts.len() {
                probe.propagator.undo(learned.back);
            }
            Ok(())
        }
        Err(refusal) => {
            prove!(matches!(refusal, CheckError::Memory));
            Err(AllocError)
        }
    }
}
