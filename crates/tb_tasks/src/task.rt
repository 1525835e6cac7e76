//! The tasks.
ghost use Rattle.std.specs.Prelude.{◌≡◌, ◌||◌, true, IfOk};
ghost use Rattle.vlog_meaning.specs.Scopes.{names_of, store_of, FitsSignals};
ghost use Rattle.tb_tasks.specs.Tasks.{performed, is_display, is_write, show_all, AreWhole};

use crate::argument::show_rest;
use crate::format::show_format;
use rand_pcg::Lcg64Xsh32;
use std::alloc::AllocError;
use tb_values::Moment;
use vlog_syntax::{Argument, Identifier};

/// Prints all arguments: a format first, where there is one.
fn show_all(
    arguments: &[Argument],
    moment: &Moment<'_>,
    words: &mut Lcg64Xsh32,
    text: &mut Vec<u8>,
) -> Result<(), AllocError>
    requires whole { AreWhole (names_of moment.now.scope.now) arguments.now }
    requires stored { FitsSignals (names_of moment.now.scope.now) moment.now.store.now }
    ensures { IfOk result (λ _. (text.new.items, words.new) ≡ show_all (record { names = names_of moment.now.scope.now; phase = moment.now.phase; store = store_of moment.now.store.now }) arguments.now (text.old.items, words.old)) }
{
    match arguments {
        [Argument::String(format, _), ..] => {
            show_format(format.as_slice(), &arguments[1..], moment, words, text)
        }
        [Argument::Expr(..), ..] => show_rest(arguments, moment, words, text),
        [] => Ok(()),
    }
}

/// Carries out a task other than `$finish`: adds what it prints to the text. Its arguments are evaluated in order. Where there is
/// no memory, a part of it may have been added.
pub fn perform(
    name: &Identifier,
    arguments: &[Argument],
    moment: &Moment<'_>,
    words: &mut Lcg64Xsh32,
    text: &mut Vec<u8>,
) -> Result<(), AllocError>
    requires whole { (is_display name.now.name || is_write name.now.name) ≡ true → AreWhole (names_of moment.now.scope.now) arguments.now }
    requires stored { FitsSignals (names_of moment.now.scope.now) moment.now.store.now }
    ensures { IfOk result (λ _. (text.new.items, words.new) ≡ performed (record { names = names_of moment.now.scope.now; phase = moment.now.phase; store = store_of moment.now.store.now }) name.now.name arguments.now (text.old.items, words.old)) }
{
    match name.name.as_str() {
        "$display" => {
            show_all(arguments, moment, words, text)?;
            text.push(b'\n')?;
            Ok(())
        }
        "$write" => show_all(arguments, moment, words, text),
        _ => Ok(()),
    }
}
