//! Arguments of a task, each printed by itself.
ghost use Rattle.std.specs.Prelude.{◌≡◌, ◌∷◌, [], IfOk};
ghost use Rattle.vlog_meaning.specs.Scopes.{names_of, store_of, FitsSignals};
ghost use Rattle.vlog_meaning.specs.Senses.{IsWhole};
ghost use Rattle.tb_tasks.specs.Tasks.{show_value, show_rest, AreWhole, IsWholeArgument};

use rand_pcg::Lcg64Xsh32;
use std::alloc::AllocError;
use tb_formats::{Form, Format, push_value};
use tb_values::{Moment, evaluate};
use vlog_meaning::shape_of;
use vlog_syntax::{Argument, Expr};

/// Prints the value of an expression in a form.
pub(crate) fn show_value(
    format: Format,
    expr: &Expr,
    moment: &Moment<'_>,
    words: &mut Lcg64Xsh32,
    text: &mut Vec<u8>,
) -> Result<(), AllocError>
    requires whole { IsWhole (names_of moment.now.scope.now) expr.now }
    requires stored { FitsSignals (names_of moment.now.scope.now) moment.now.store.now }
    ensures { IfOk result (λ _. (text.new.items, words.new) ≡ show_value (record { names = names_of moment.now.scope.now; phase = moment.now.phase; store = store_of moment.now.store.now }) format expr.now (text.old.items, words.old)) }
{
    let shape = shape_of(expr, moment.scope);
    let value = evaluate(expr, moment, shape, words)?;
    push_value(text, format, shape, value.bits())
}

/// Prints an argument without a format: a string as it is, a value in base 10.
fn show_argument(
    argument: &Argument,
    moment: &Moment<'_>,
    words: &mut Lcg64Xsh32,
    text: &mut Vec<u8>,
) -> Result<(), AllocError>
    requires whole { IsWholeArgument (names_of moment.now.scope.now) argument.now }
    requires stored { FitsSignals (names_of moment.now.scope.now) moment.now.store.now }
    ensures { IfOk result (λ _. (text.new.items, words.new) ≡ show_rest (record { names = names_of moment.now.scope.now; phase = moment.now.phase; store = store_of moment.now.store.now }) (argument.now ∷ []) (text.old.items, words.old)) }
{
    match argument {
        Argument::String(string, _) => text.extend_from_slice(string.as_slice()),
        Argument::Expr(expr) => {
            let unformatted = Format {
                form: Form::Decimal,
                padded: true,
            };
            show_value(unformatted, expr.get(), moment, words, text)
        }
    }
}

/// Prints arguments without a format, one after the other.
pub(crate) fn show_rest(
    arguments: &[Argument],
    moment: &Moment<'_>,
    words: &mut Lcg64Xsh32,
    text: &mut Vec<u8>,
) -> Result<(), AllocError>
    requires whole { AreWhole (names_of moment.now.scope.now) arguments.now }
    requires stored { FitsSignals (names_of moment.now.scope.now) moment.now.store.now }
    ensures { IfOk result (λ _. (text.new.items, words.new) ≡ show_rest (record { names = names_of moment.now.scope.now; phase = moment.now.phase; store = store_of moment.now.store.now }) arguments.now (text.old.items, words.old)) }
{
    for argument in arguments {
        show_argument(argument, moment, words, text)?;
    }
    Ok(())
}
