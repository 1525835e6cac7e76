//! Examples of the definitions, each as the contract of a function that does nothing.
ghost use Rattle.mutation_sites.specs.Examples.{OneBitHasThree, TwoBitsHaveTen};

/// A port of one bit has three sites where all modes are taken, and one of two bits ten.
pub fn ports_have_their_sites()
    ensures one { OneBitHasThree }
    ensures two { TwoBitsHaveTen }
{}
