//! What modules are elaborated to.
ghost use Rattle.hier_once.specs.Laws.{FewCells, HasOneAnswer, HasOneNetlist, HasOneRefusal, NoneIsRefused};

/// Modules have one netlist with a top, or one refusal; only want of memory may be answered in its place.
pub fn sources_have_one_answer()
    ensures answer { HasOneAnswer }
    ensures netlist { HasOneNetlist }
    ensures either { NoneIsRefused }
    ensures refusal { HasOneRefusal }
    ensures cells { FewCells }
{}
