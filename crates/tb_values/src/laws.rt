//! Laws of evaluations, over their definitions alone.
ghost use Rattle.tb_values.specs.Laws.{OthersStay, ShapesStay};

/// An expression without `$random` and `$time` is as in a design, and any other keeps its shape.
pub fn evaluations()
    ensures others { OthersStay }
    ensures shapes { ShapesStay }
{}
