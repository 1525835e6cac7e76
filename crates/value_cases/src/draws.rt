//! Expressions of testbenches, with `$random` and `$time`.
ghost use Rattle.vlog_meaning.specs.Scopes.{names_of, FitsSignals};
ghost use Rattle.vlog_meaning.specs.Senses.{sense, IsWhole, IsContext};

use crate::signals::Signals;
use crate::updates::assignment_of;
use anyhow::{Context, Result, bail};
use case_lines::Page;
use case_sources::module_around;
use rand_core::SeedableRng;
use rand_pcg::Lcg64Xsh32;
use std::alloc::Global;
use tb_values::{Moment, evaluate};
use vlog_meaning::{Shape, shape};
use vlog_syntax::Expr;

/// Puts three values of an expression.
fn put_three(
    page: &mut Page,
    expr: &Expr,
    moment: &Moment<'_>,
    context: Shape,
    seed: u64,
) -> Result<()>
    requires whole { IsWhole (names_of moment.now.scope.now) expr.now }
    requires stored { FitsSignals (names_of moment.now.scope.now) moment.now.store.now }
    requires context { IsContext (sense (names_of moment.now.scope.now) expr.now).shape context }
{
    let mut words = Lcg64Xsh32::seed_from_u64(seed);
    for _ in 0..3 {
        let value = evaluate(expr, moment, context, &mut words)?;
        page.put_number(value.bits());
        page.put("\n");
    }
    Ok(())
}

/// The same, where it has a shape.
#[tactic(auto, using(crate::proofs::Contexts::own_shape))]
fn put_values(
    alloc: Global,
    page: &mut Page,
    signals: &Signals,
    expr: &Expr,
    seed: u64,
    phase: u64,
) -> Result<()> {
    let scope = &signals.scope;
    let store = signals.values.as_slice();
    if !scope.fits(store) {
        bail!("no values");
    }
    let Ok(context) = shape(expr, scope) else {
        bail!("no shape");
    };
    let moment = Moment {
        alloc,
        scope,
        store,
        phase,
    };
    put_three(page, expr, &moment, context, seed)
}

/// Puts three values of the expression that a text is.
fn put_text(
    alloc: Global,
    page: &mut Page,
    signals: &Signals,
    text: &str,
    seed: u64,
    phase: u64,
) -> Result<()> {
    let line = format!(in alloc; "initial a = {text};")?;
    let modules = module_around(alloc, line.as_str())?;
    let assignment = assignment_of(modules.as_slice()).context("no expression")?;
    put_values(alloc, page, signals, assignment.value.get(), seed, phase)
}

/// Puts three values of a row's expression.
pub(crate) fn put_draws(
    alloc: Global,
    page: &mut Page,
    signals: &Signals,
    row: &str,
) -> Result<()> {
    let (seed, rest) = row.split_once(' ').context("no seed")?;
    let (phase, text) = rest.split_once(' ').context("no phase")?;
    let seed = seed.parse::<u64>().ok().context("no seed")?;
    let phase = phase.parse::<u64>().ok().context("no phase")?;
    put_text(alloc, page, signals, text, seed, phase)
}
