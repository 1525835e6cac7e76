//! A bench that can run.
//!
//! Invariant: its statements can be carried out, each signal has a start value of its width, and its nets are in an order.
ghost use Rattle.std.specs.Prelude.{◌≡◌};
ghost use Rattle.tb_bench.specs.Runnable.{IsRunnable};

use crate::parts::Parts;
use std::marker::Model;

/// A bench that can run.
#[derive(Drop)]
pub struct Bench {
    parts: Parts,
}

impl Model for Bench {
    ghost use Rattle.tb_bench.specs.contracts.parts.Parts as p;
    ghost use Rattle.tb_bench.specs.declared.parts.Parts.{Parts as Shown};
    ghost use Rattle.tb_bench.specs.Runnable.{IsRunnable};

    ghost Value = { Shown };

    ghost coded = { p.the_row.coded };

    ghost view = { λ b. b.parts };

    ghost invariant = { λ b. IsRunnable b.parts };
}

impl Bench {
    /// The bench of parts that can run.
    pub fn of(parts: Parts) -> Bench
        requires { IsRunnable parts }
        ensures { result ≡ parts }
    {
        Bench { parts }
    }

    /// Its parts.
    pub fn parts(&self) -> &Parts
        ensures value { result.now ≡ self.now }
        ensures runnable { IsRunnable self.now }
    {
        &self.parts
    }
}
