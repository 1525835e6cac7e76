//! The laws of left sides.
ghost use Rattle.flat_assigns.specs.Forms.{FormsHaveParts};
ghost use Rattle.flat_assigns.specs.Laid.{OutputsAreLaid};

/// An expression that has the form of a left side has the left side's parts.
pub fn forms_have_parts()
    ensures { FormsHaveParts }
{}

/// The netlist of an output's connection is that of an assignment to the left side of its form.
pub fn outputs_are_laid()
    ensures { OutputsAreLaid }
{}
