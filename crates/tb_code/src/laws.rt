//! Laws of code, over its definitions alone.
ghost use Rattle.tb_code.specs.Codes.{AreCodeOf};

/// Nodes that were added to none are code of statements, those that were added among them.
pub fn code_has_its_statements()
    ensures { AreCodeOf }
{}
