//! Muxes of what the two parts of a choice leave.
//!
//! After the first part each variable that it changed is set aside: a `Choice` has the bits that it has, and the variable
//! gets back those that it had before. So the second part begins with what the first began with. Then a mux for each
//! variable that either part changed puts both together.
ghost use Rattle.std.specs.Prelude.{◌≡◌, ◌+◌, ◌<◌, [], ◌∷◌, ◌++◌, map, length, IfOk, IfErr, OnOk};
ghost use Rattle.std.specs.Prelude.{List};
ghost use Rattle.proc_muxes.specs.declared.change.Change.{Change as Changed};
ghost use Rattle.net_builder.specs.Building.{AllBelow};
ghost use Rattle.net_builder.specs.Refusals.{IsShort};
ghost use Rattle.proc_muxes.specs.Builds.{Chooses, ChoosesAll, with_held};
ghost use Rattle.proc_muxes.specs.Shows.{StandsBelow};
ghost use Rattle.proc_muxes.specs.Working.{work, now_has, all_have, had_before, all_had, joined, given_back, chosen, FitsChange, AllFit, FitsChoice, AllChoicesFit};

use crate::change::{Change, Changes};
use crate::variables::{Variables, copied, width_of};
use elab_expr::mux_cell;
use mcy_base::Span;
use net_builder::{Builder, ElabError};
use netlist_core::BitList;
use std::alloc::{AllocError, Global};

/// A variable that one of two parts assigns, and the bits that it has after the first.
#[derive(Drop)]
pub struct Choice {
    pub number: u32,
    pub is_blocking: bool,
    pub bits: BitList,
}

/// What a changed variable has now.
fn now_has(builder: &Builder, variables: &Variables, change: &Change) -> Result<Choice, AllocError>
    requires known { change.now.number < length builder.now.signals }
    requires places { length variables.now ≡ length builder.now.signals }
    ensures { IfOk result (λ x. x ≡ now_has (work builder.now variables.now) change.now) }
{
    let bits = variables.held(builder, change.number, change.is_blocking)?;
    Ok(Choice {
        number: change.number,
        is_blocking: change.is_blocking,
        bits,
    })
}

/// What a changed variable had before.
fn had_before(alloc: Global, change: &Change) -> Result<Choice, AllocError>
    ensures { IfOk result (λ x. x ≡ had_before change.now) }
{
    let bits = copied(alloc, &change.before)?;
    Ok(Choice {
        number: change.number,
        is_blocking: change.is_blocking,
        bits,
    })
}

/// Adds a choice at the end.
fn push(choices: &mut Vec<Choice>, choice: Choice) -> Result<(), AllocError>
    ensures { OnOk result (choices.new.items ≡ choices.old.items ++ choice ∷ []) }
{
    choices.push(choice)?;
    Ok(())
}

/// What changed variables have now.
fn all_have(
    builder: &Builder,
    variables: &Variables,
    changes: &[Change],
) -> Result<Vec<Choice>, AllocError>
    requires fit { AllFit (work builder.now variables.now) changes.now }
    requires places { length variables.now ≡ length builder.now.signals }
    ensures { IfOk result (λ l. l.items ≡ all_have (work builder.now variables.now) changes.now) }
{
    let mut choices = Vec::new(builder.alloc());
    let mut rest = changes;
    while let [change, more @ ..] = rest {
        push(&mut choices, now_has(builder, variables, change)?)?;
        rest = more;
    }
    Ok(choices)
}

/// Adds what changed variables had before.
fn add_before(
    alloc: Global,
    choices: &mut Vec<Choice>,
    changes: &[Change],
) -> Result<(), AllocError>
    ensures { OnOk result (choices.new.items ≡ choices.old.items ++ all_had changes.now) }
{
    let mut rest = changes;
    while let [change, more @ ..] = rest {
        push(choices, had_before(alloc, change)?)?;
        rest = more;
    }
    Ok(())
}

/// Gives a changed variable the bits that it had before.
fn restore(
    builder: &mut Builder,
    variables: &mut Variables,
    change: &Change,
) -> Result<(), AllocError>
    requires fits { FitsChange (work builder.old variables.old) change.now }
    requires places { length variables.old ≡ length builder.old.signals }
    ensures has { OnOk result (work builder.new variables.new ≡ with_held change.now.is_blocking change.now.number change.now.before (work builder.old variables.old)) }
    ensures fit { OnOk result ((cs : List Changed) → AllFit (work builder.old variables.old) cs → AllFit (work builder.new variables.new) cs) }
    ensures places { OnOk result (length variables.new ≡ length builder.new.signals) }
{
    let before = copied(builder.alloc(), &change.before)?;
    variables.set_held(builder, change.number, change.is_blocking, before);
    Ok(())
}

/// Gives changed variables the bits that they had before.
fn give_back(
    builder: &mut Builder,
    variables: &mut Variables,
    changes: &[Change],
) -> Result<(), AllocError>
    requires fit { AllFit (work builder.old variables.old) changes.now }
    requires places { length variables.old ≡ length builder.old.signals }
    ensures back { OnOk result (work builder.new variables.new ≡ given_back changes.now (work builder.old variables.old)) }
    ensures places { OnOk result (length variables.new ≡ length builder.new.signals) }
{
    let mut rest = changes;
    while let [change, more @ ..] = rest {
        restore(builder, variables, change)?;
        rest = more;
    }
    Ok(())
}

/// What changed variables have, which get back what they had before.
pub fn set_aside(
    builder: &mut Builder,
    variables: &mut Variables,
    changes: &[Change],
) -> Result<Vec<Choice>, AllocError>
    requires fit { AllFit (work builder.old variables.old) changes.now }
    requires places { length variables.old ≡ length builder.old.signals }
    ensures have { IfOk result (λ l. l.items ≡ all_have (work builder.old variables.old) changes.now) }
    ensures back { IfOk result (λ l. work builder.new variables.new ≡ given_back changes.now (work builder.old variables.old)) }
    ensures places { IfOk result (λ l. length variables.new ≡ length builder.new.signals) }
{
    let choices = all_have(builder, variables, changes)?;
    give_back(builder, variables, changes)?;
    Ok(choices)
}

/// The mux of a choice: of the bits that the variable has where the test is 0, and the choice's where it is 1.
fn choose_one(
    builder: &mut Builder,
    variables: &mut Variables,
    at: Span,
    test: &BitList,
    choice: &Choice,
) -> Result<(), ElabError>
    requires fits { FitsChoice (work builder.old variables.old) choice.now }
    requires places { length variables.old ≡ length builder.old.signals }
    requires one { length test.now ≡ 1 }
    requires test { AllBelow builder.old.nets test.now }
    requires stands { StandsBelow (work builder.old variables.old) }
    ensures chooses { OnOk result (Chooses at test.now choice.now (work builder.old variables.old) (work builder.new variables.new)) }
    ensures places { OnOk result (length variables.new ≡ length builder.new.signals) }
    ensures cells { OnOk result (length builder.new.cells ≡ length builder.old.cells + 1) }
    ensures short { IfErr result (λ e. IsShort (length builder.old.cells + 1) e) }
{
    let alloc = builder.alloc();
    let no = variables.held(builder, choice.number, choice.is_blocking)?;
    let yes = copied(alloc, &choice.bits)?;
    let test = copied(alloc, test)?;
    let width = width_of(&no);
    let y = mux_cell(builder, test, yes, no, width, at)?;
    variables.set_held(builder, choice.number, choice.is_blocking, y);
    Ok(())
}

/// The muxes of choices.
fn choose_all(
    builder: &mut Builder,
    variables: &mut Variables,
    at: Span,
    test: &BitList,
    choices: &[Choice],
) -> Result<(), ElabError>
    requires fit { AllChoicesFit (work builder.old variables.old) choices.now }
    requires places { length variables.old ≡ length builder.old.signals }
    requires one { length test.now ≡ 1 }
    requires test { AllBelow builder.old.nets test.now }
    requires stands { StandsBelow (work builder.old variables.old) }
    ensures chooses { OnOk result (ChoosesAll at test.now choices.now (work builder.old variables.old) (work builder.new variables.new)) }
    ensures places { OnOk result (length variables.new ≡ length builder.new.signals) }
    ensures short { IfErr result (λ e. IsShort (length builder.old.cells + length choices.now) e) }
{
    let mut rest = choices;
    while let [choice, more @ ..] = rest {
        choose_one(builder, variables, at, test, choice)?;
        rest = more;
    }
    Ok(())
}

/// The muxes of a choice, and what it has changed.
#[tactic(auto, using(crate::proofs::Muxing::joined_longer))]
pub fn choose(
    builder: &mut Builder,
    variables: &mut Variables,
    at: Span,
    test: &BitList,
    changes: Changes,
    first: Vec<Choice>,
    others: Changes,
) -> Result<Changes, ElabError>
    requires fit { AllChoicesFit (work builder.old variables.old) (chosen first.items changes others) }
    requires places { length variables.old ≡ length builder.old.signals }
    requires one { length test.now ≡ 1 }
    requires test { AllBelow builder.old.nets test.now }
    requires stands { StandsBelow (work builder.old variables.old) }
    ensures joined { IfOk result (λ cs. cs ≡ joined changes others) }
    ensures chooses { IfOk result (λ cs. ChoosesAll at test.now (chosen first.items changes others) (work builder.old variables.old) (work builder.new variables.new)) }
    ensures places { IfOk result (λ cs. length variables.new ≡ length builder.new.signals) }
    ensures short { IfErr result (λ e. IsShort (length builder.old.cells + length (chosen first.items changes others)) e) }
{
    let count = changes.len();
    let mut all = changes;
    all.join(others)?;
    let mut choices = first;
    add_before(builder.alloc(), &mut choices, all.part(count))?;
    choose_all(builder, variables, at, test, choices.as_slice())?;
    Ok(all)
}
