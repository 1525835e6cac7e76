//! What each opened module has.
ghost use Rattle.tb_signals.specs.Opened.{OpenedStand};

/// The signals of a module that is opened by itself have sizes, and its names are those of signals.
pub fn opened_modules_stand()
    ensures { OpenedStand }
{}
