//! Examples of the definitions, each as the contract of a function that does nothing.
ghost use Rattle.flat_scopes.specs.Examples.{Accepted, Malformed, Wide};
ghost use Rattle.flat_scopes.specs.ScopeExamples.{OnePort, SecondIsRefused, HeadsDiffer, HeadTwice, LabelsOnce, InstancesTwice};

/// Ranges have the bits that were worked out by hand: `[7:0]`, `[11:4]`, the widest, and the one of the highest number; a range
/// of 129 bits is too wide, also where it begins below 0; one that falls or begins below 0 or above 2^31 - 1 is malformed.
pub fn ranges_of_examples()
    ensures accepted { Accepted }
    ensures wide { Wide }
    ensures malformed { Malformed }
{}

/// Small scopes list what was worked out by hand: a port with its second declaration, which is signed where either is; a third
/// declaration, and a second one of a variable, which are refused; names of the head and of port declarations that differ; a name
/// that stands in the head twice; labels of one construct and of two; instances whose names stand already.
pub fn scopes_of_examples()
    ensures one_port { OnePort }
    ensures second { SecondIsRefused }
    ensures heads { HeadsDiffer }
    ensures head_twice { HeadTwice }
    ensures labels { LabelsOnce }
    ensures instances { InstancesTwice }
{}
