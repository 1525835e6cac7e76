//! Laws over the definitions alone.
ghost use Rattle.tb_reading.specs.Laws.{BenchesAreAlike, NoneRefused, OneRefusal};

/// Benches of one module for one design are alike: what one says in a simulation, the other says.
pub fn benches_are_alike()
    ensures { BenchesAreAlike }
{}

/// A module that is a bench is not refused, and one that is refused has one reason. So each reason is told just where it is the first.
pub fn one_refusal()
    ensures none { NoneRefused }
    ensures one { OneRefusal }
{}
