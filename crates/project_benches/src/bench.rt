//! The bench of a test, read from the modules of all sources.
ghost use Rattle.std.specs.Prelude.{◌≡◌, ◌≢◌, ◌∷◌, [], ℕ, List, map, IfErr, IfOk};
ghost use Rattle.netlist_core.specs.declared.raw.RawNetlist.{RawNetlist};
ghost use Rattle.vlog_syntax.specs.declared.module.Module.{Module as Tree};
ghost use Rattle.flat_items.specs.Tops.{IsTop};
ghost use Rattle.tb_bench.specs.Runnable.{FitsDesign};
ghost use Rattle.tb_bench.specs.declared.parts.Parts.{Parts};
ghost use Rattle.tb_faults.specs.declared.error.BenchError.TheVariants.{Memory as NotRead};
ghost use Rattle.tb_reading.specs.Benches.{IsBenchOf};
ghost use Rattle.tb_reading.specs.Laws.{AreAlike};
ghost use Rattle.source_faults.specs.declared.fault.SourceError.{SourceError as Error};
ghost use Rattle.project_sources.specs.declared.netlist.NetlistError.TheVariants.{Source as Refused};
ghost use Rattle.project_benches.specs.Choice.{IsFound};
ghost use Rattle.project_benches.specs.Benches.{IsNoneAmong, HasBench, HasNoBench};

use crate::choice::{Found, find_bench};
use mcy_base::SourceFile;
use netlist_core::Netlist;
use project_sources::NetlistError;
use source_faults::bench_error;
use std::alloc::Global;
use tb_bench::Bench;
use tb_faults::BenchError;
use tb_reading::read_bench;
use vlog_syntax::Module;

/// The bench that the files hold.
fn read_found(
    alloc: Global,
    found: Found<'_>,
    top: &Module,
    netlist: &Netlist,
) -> Result<Bench, BenchError>
    ensures bench { IfOk result (λ b. (modules : List Tree) → IsFound modules found.entry → (m : Tree) × (modules ≡ m ∷ []) × IsBenchOf m top.now netlist.now.raw b) }
    ensures fits { IfOk result (λ b. FitsDesign b netlist.now.raw) }
    ensures refused { IfErr result (λ e. (modules : List Tree) → IsFound modules found.entry → e ≢ NotRead → IsNoneAmong modules top.now netlist.now.raw e) }
{
    match found {
        Found::Nothing => Err(BenchError::NoDesign),
        Found::One(module) => read_bench(alloc, module, top, netlist),
        Found::Twice(at) => Err(BenchError::Twice(at)),
    }
}

/// The bench of the test with this number: the one module of this name in the files with these numbers, for the design of a netlist
/// with this top.
pub fn read_bench_of(
    alloc: Global,
    test: u32,
    files: &[SourceFile],
    modules: &[Module],
    numbers: &[u32],
    name: &str,
    top: &Module,
    netlist: &Netlist,
) -> Result<Bench, NetlistError>
    ensures bench { IfOk result (HasBench modules.now numbers.now name.now top.now netlist.now.raw) }
    ensures refused { IfErr result (HasNoBench (map (λ f. f.name) files.now) test modules.now numbers.now name.now top.now netlist.now.raw) }
{
    match read_found(alloc, find_bench(numbers, name, modules), top, netlist) {
        Ok(bench) => Ok(bench),
        Err(BenchError::Memory) => Err(NetlistError::Memory),
        Err(error) => Err(NetlistError::Source(bench_error(alloc, files, test, error)?)),
    }
}

/// Benches of one test are alike: what one says in a simulation, the other says. Each fits the design.
pub fn benches_are_alike()
    ensures fits { (modules : List Tree) (numbers name : List ℕ) (top : Tree) (netlist : RawNetlist) (bench : Parts) → HasBench modules numbers name top netlist bench → FitsDesign bench netlist }
    ensures alike { (modules : List Tree) (numbers name : List ℕ) (top : Tree) (netlist : RawNetlist) (a b : Parts) → HasBench modules numbers name top netlist a → HasBench modules numbers name top netlist b → AreAlike a b }
{}

/// A test has a bench or one fault, never both, and a design one top. So each fault comes just where `read_bench_of` says.
pub fn one_answer()
    ensures either { (names : List (List ℕ)) (test : ℕ) (modules : List Tree) (numbers name : List ℕ) (top : Tree) (netlist : RawNetlist) (parts : Parts) (e : Error) → HasBench modules numbers name top netlist parts → ¬ HasNoBench names test modules numbers name top netlist (Refused e) }
    ensures faults { (names : List (List ℕ)) (test : ℕ) (modules : List Tree) (numbers name : List ℕ) (top : Tree) (netlist : RawNetlist) (x y : Error) → HasNoBench names test modules numbers name top netlist (Refused x) → HasNoBench names test modules numbers name top netlist (Refused y) → x ≡ y }
    ensures tops { (modules : List Tree) (name : List ℕ) (a b : Tree) → IsTop modules name a → IsTop modules name b → a ≡ b }
{}
