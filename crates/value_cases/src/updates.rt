//! Assignments of testbenches.
ghost use Rattle.vlog_meaning.specs.Scopes.{names_of, FitsSignals};
ghost use Rattle.tb_assigns.specs.Updates.{CanAssign};

use crate::signals::Signals;
use anyhow::{Context, Result, bail};
use case_lines::Page;
use case_sources::{first_item, module_around};
use mcy_base::Word;
use rand_core::SeedableRng;
use rand_pcg::Lcg64Xsh32;
use std::alloc::Global;
use tb_assigns::{can_assign, updates};
use tb_machine::Update;
use tb_values::Moment;
use vlog_syntax::{Assignment, Module, PlainItem, Stmt};

/// The assignment of the process that stands first.
pub(crate) fn assignment_of(modules: &[Module]) -> Option<&Assignment> {
    match first_item(modules)? {
        PlainItem::Process(process) => match process.body.get() {
            Stmt::BlockingAssignment(assignment) => Some(assignment),
            _ => None,
        },
        _ => None,
    }
}

/// The greatest number of so many bits.
fn ones(width: u8) -> u128 {
    if width < 128 {
        1u128.wrapping_shl(u32::from(width)).wrapping_sub(1)
    } else {
        u128::MAX
    }
}

/// A number with some of its bits replaced.
fn replaced(value: u128, update: Update) -> u128 {
    let low = u32::from(update.low);
    let mask = ones(update.width).wrapping_shl(low);
    (value & !mask) | (update.value.wrapping_shl(low) & mask)
}

/// The value of a signal after updates.
fn value_after(number: usize, word: Word, list: &[Update]) -> u128 {
    let mut value = word.bits();
    for update in list {
        if update.signal as usize == number {
            value = replaced(value, *update);
        }
    }
    value
}

/// Puts the values of all signals after an assignment.
fn put_after(page: &mut Page, assignment: &Assignment, moment: &Moment<'_>) -> Result<()>
    requires can { CanAssign (names_of moment.now.scope.now) assignment.now }
    requires stored { FitsSignals (names_of moment.now.scope.now) moment.now.store.now }
{
    let mut words = Lcg64Xsh32::seed_from_u64(0);
    let list = updates(assignment, moment, &mut words)?;
    for (number, word) in moment.store.iter().enumerate() {
        page.put_number(value_after(number, *word, list.as_slice()));
        page.put("\n");
    }
    Ok(())
}

/// The same, where the assignment can be carried out.
fn put_assigned(
    alloc: Global,
    page: &mut Page,
    signals: &Signals,
    assignment: &Assignment,
) -> Result<()> {
    let scope = &signals.scope;
    let store = signals.values.as_slice();
    if !scope.fits(store) {
        bail!("no values");
    }
    if !can_assign(alloc, assignment, scope)? {
        bail!("no assignment to signals");
    }
    let moment = Moment {
        alloc,
        scope,
        store,
        phase: 0,
    };
    put_after(page, assignment, &moment)
}

/// Puts the values of all signals after a row's assignment.
pub(crate) fn put_updates(
    alloc: Global,
    page: &mut Page,
    signals: &Signals,
    row: &str,
) -> Result<()> {
    let line = format!(in alloc; "initial {row};")?;
    let modules = module_around(alloc, line.as_str())?;
    let assignment = assignment_of(modules.as_slice()).context("no assignment")?;
    put_assigned(alloc, page, signals, assignment)
}
