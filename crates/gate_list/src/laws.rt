//! Laws of gates.
ghost use Rattle.gate_list.specs.Laws.{GatesHaveValues, GatesHaveOneValue};

/// Whatever the free bits are, there are values in which the gates hold, and the free bits settle every gate.
pub fn gates_have_values()
    ensures some { GatesHaveValues }
    ensures one { GatesHaveOneValue }
{}
