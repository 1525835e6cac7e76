//! What modules are flattened to.
ghost use Rattle.flat_once.specs.Laws.{FlattensOnce, HasOneTop, NoTopFlattens};

/// Modules are flattened to one design, whose top is one module, and to none where no module has the top's name.
pub fn designs_flatten_once()
    ensures one { FlattensOnce }
    ensures top { HasOneTop }
    ensures no_top { NoTopFlattens }
{}
