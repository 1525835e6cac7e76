//! Processes from their starts.
ghost use Rattle.std.specs.Prelude.{◌≡◌, ℕ, IfOk, List, length, map};
ghost use Rattle.std.specs.List.{All};
ghost use Rattle.tb_machine.specs.declared.node.Node.{Node as Named};
ghost use Rattle.tb_machine.specs.Nodes.{Tree};
ghost use Rattle.tb_machine.specs.Machine.{suspended, all_suspended, StackBelow, StacksBelow};
ghost use Rattle.tb_bench.specs.Settings.{begun};
ghost use Rattle.tb_bench.specs.Runnable.{IsBelow};

use std::alloc::{AllocError, Global};
use tb_bench::Waiting;
use tb_code::begin;
use tb_machine::{Frame, Process};

/// The processes, before anything of them is carried out.
pub(crate) fn begin_all(alloc: Global, waiting: &[Waiting]) -> Result<Vec<Process>, AllocError>
    ensures waits { (nodes : List Named) (tree : Tree) → IfOk result (λ ps. all_suspended nodes tree ps.items ≡ map (begun tree) waiting.now) }
    ensures below { (limit : ℕ) → All (IsBelow limit) waiting.now → IfOk result (λ ps. StacksBelow limit ps.items) }
{
    let mut processes = Vec::new(alloc);
    for process in waiting {
        processes.push(begin(alloc, process.event, process.body)?)?;
    }
    Ok(processes)
}

/// A process becomes another one that nothing was carried out of, in the stack that it has.
fn begin_in(process: &mut Process, waiting: Waiting) -> Result<(), AllocError>
    ensures waits { (nodes : List Named) (tree : Tree) → IfOk result (λ _. suspended nodes tree process.new ≡ begun tree waiting) }
    ensures below { (limit : ℕ) → IsBelow limit waiting → IfOk result (λ _. StackBelow limit process.new) }
{
    process.event = waiting.event;
    process.stack.clear();
    process.stack.push(Frame::Do(waiting.body))?;
    Ok(())
}

/// So do processes, one after the other.
fn begin_each(processes: &mut [Process], waiting: &[Waiting]) -> Result<(), AllocError>
    requires { length processes.old ≡ length waiting.now }
    ensures waits { (nodes : List Named) (tree : Tree) → IfOk result (λ _. all_suspended nodes tree processes.new ≡ map (begun tree) waiting.now) }
    ensures below { (limit : ℕ) → All (IsBelow limit) waiting.now → IfOk result (λ _. StacksBelow limit processes.new) }
{
    for i in 0..processes.len() {
        begin_in(&mut processes[i], waiting[i])?;
    }
    Ok(())
}

/// Processes become others that nothing was carried out of. Where they are as many, each keeps its stack, so that no memory is taken.
pub(crate) fn begin_again(
    alloc: Global,
    processes: &mut Vec<Process>,
    waiting: &[Waiting],
) -> Result<(), AllocError>
    ensures waits { (nodes : List Named) (tree : Tree) → IfOk result (λ _. all_suspended nodes tree processes.new.items ≡ map (begun tree) waiting.now) }
    ensures below { (limit : ℕ) → All (IsBelow limit) waiting.now → IfOk result (λ _. StacksBelow limit processes.new.items) }
{
    if processes.len() == waiting.len() {
        begin_each(processes, waiting)
    } else {
        *processes = begin_all(alloc, waiting)?;
        Ok(())
    }
}
