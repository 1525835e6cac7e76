//! Laws of processes and of their code, over the definitions alone.
ghost use Rattle.tb_known.specs.Laws.{FaultlessPass, WaitsPass, FaultlessAssigns, PassingIsKnown};

/// What processes in which nothing is wrong hold passes the tests of a testbench.
pub fn faultless_processes_pass()
    ensures { FaultlessPass }
{}

/// So does what stands behind the list of an `always`.
pub fn waits_pass()
    ensures { WaitsPass }
{}

/// An assign in which nothing is wrong can be carried out.
pub fn faultless_assigns_are_carried_out()
    ensures { FaultlessAssigns }
{}

/// An evaluator of a phase knows the code of statements that pass.
pub fn passing_code_is_known()
    ensures { PassingIsKnown }
{}
