//! Laws of assignments, over their definitions alone.
ghost use Rattle.tb_assigns.specs.Laws.{UpdatesFit, OutsideStays, WholeSidesSuffice};

/// Each update gives bits that a declared signal has a value of as many bits, and bits that are out of range are not written.
pub fn assignments_fit()
    ensures fit { UpdatesFit }
    ensures outside { OutsideStays }
{}

/// What `updates` asks of an assignment holds where both sides have shapes, and the names on the left are those of signals.
pub fn whole_sides_suffice()
    ensures { WholeSidesSuffice }
{}
