//! The baselines as text, and whether all pass.
ghost use Rattle.std.specs.Prelude.{◌≡◌, ◌<◌, ◌++◌, ◌↔◌, All, IfOk, IsTrue, OnOk, length, string_bytes};
ghost use Rattle.campaign_run.specs.Baselines.{AllPass};
ghost use Rattle.campaign_baseline.specs.Lines as lines;

use campaign_run::Baseline;
use mcy_base::{Bytes, TextList};
use std::alloc::{AllocError, Global};
use tb_runner::SimVerdict;

/// The name of a word.
fn verdict_name(verdict: SimVerdict) -> &'static str
    ensures { result.now ≡ lines.verdict_name verdict }
{
    match verdict {
        SimVerdict::Pass => "PASS",
        SimVerdict::Fail => "FAIL",
        SimVerdict::Hang => "HANG",
    }
}

/// Adds the line of a baseline.
fn add_line(text: &mut String, names: &TextList, baseline: Baseline) -> Result<(), AllocError>
    requires { baseline.test < length names.now }
    ensures { OnOk result (string_bytes text.new ≡ string_bytes text.old ++ lines.baseline_line names.now baseline) }
{
    let name = names.as_slice()[baseline.test as usize].as_str();
    let word = verdict_name(baseline.verdict);
    let cycles = baseline.cycles;
    writeln!(text, "Test {name}: {word} after {cycles} cycles")
}

/// A line for each baseline, by the names of the tests.
pub fn baseline_text(
    alloc: Global,
    names: &TextList,
    baselines: &[Baseline],
) -> Result<Bytes, AllocError>
    requires { All (λ b. b.test < length names.now) baselines.now }
    ensures { IfOk result (λ text. text ≡ lines.baseline_text names.now baselines.now) }
{
    let mut text = String::new(alloc);
    for baseline in baselines {
        add_line(&mut text, names, *baseline)?;
    }
    Ok(Bytes::from_vec(text.into_bytes()))
}

/// Adds the line of a baseline that does not pass.
fn add_failing(text: &mut String, names: &TextList, baseline: Baseline) -> Result<(), AllocError>
    requires { baseline.test < length names.now }
    ensures { OnOk result (string_bytes text.new ≡ string_bytes text.old ++ lines.failing_line names.now baseline) }
{
    if baseline.passes() {
        return Ok(());
    }
    add_line(text, names, baseline)
}

/// A line for each baseline that does not pass, by the names of the tests.
pub fn failing_text(
    alloc: Global,
    names: &TextList,
    baselines: &[Baseline],
) -> Result<Bytes, AllocError>
    requires { All (λ b. b.test < length names.now) baselines.now }
    ensures { IfOk result (λ text. text ≡ lines.failing_text names.now baselines.now) }
{
    let mut text = String::new(alloc);
    for baseline in baselines {
        add_failing(&mut text, names, *baseline)?;
    }
    Ok(Bytes::from_vec(text.into_bytes()))
}

/// Whether each bench passes with the design.
pub fn all_pass(baselines: &[Baseline]) -> bool
    ensures { IsTrue result ↔ AllPass baselines.now }
{
    for baseline in baselines {
        if !baseline.passes() {
            return false;
        }
    }
    true
}
