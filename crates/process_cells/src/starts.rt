//! Start values: an `initial` gives them to the variables that it assigns.
ghost use Rattle.std.specs.Prelude.{◌≡◌, ◌<◌, ◌≤◌, [], true, List, Bool, map, length};
ghost use Rattle.std.specs.List.{flat_map};
ghost use Rattle.vlog_syntax.specs.declared.left_side.LeftSide.{out-LeftSide};
ghost use Rattle.vlog_meaning.specs.Scopes.{Store, names_of};
ghost use Rattle.vlog_meaning.specs.Senses.{sense, assigned, constant_faults_at};
ghost use Rattle.vlog_effects.specs.Steps.{name_alone, assigning, Assign, Done, in_turn, steps_of};
ghost use Rattle.net_builder.specs.Building.{HasSignals, signal, with_start};
ghost use Rattle.elab_proc.specs.Refusals.{AreSized};
ghost use Rattle.process_latches.specs.Initial.{assignment_refusals, initial_refusals};
ghost use Rattle.process_latches.specs.Refused.{process_refusals};
ghost use Rattle.process_cells.specs.Items.{widths_in};
ghost use Rattle.process_cells.specs.Starts.{assigned_value, process_starts, StartsWith, SameButStarts, GoesOn};

use net_builder::Builder;
use process_events::{Sensitivity, sensitivity_of};
use vlog_meaning::{Decl, Scope, constant_at};
use vlog_syntax::{Assignment, Expr, LeftSide, Process, Stmt};

/// Gives signals the start values that a process leaves before the first cycle, if it runs once and nothing is refused in it. Where
/// something is refused, some signals may have others. The scope has signals of the builder, of 1 to 128 bits.
pub fn start_process(builder: &mut Builder, scope: &Scope, process: &Process)
    requires sized { AreSized (names_of scope.now) }
    requires signals { HasSignals (names_of scope.now) builder.old }
    ensures starts { (written : List Bool) (store : Store) → process_refusals (names_of scope.now) written process.now ≡ [] → StartsWith builder.old store → StartsWith builder.new (process_starts (widths_in builder.old) (names_of scope.now) process.now store) }
    ensures others { SameButStarts builder.old builder.new }
{
    match sensitivity_of(process) {
        Sensitivity::Once => start_statement(builder, scope, process.body.get()),
        Sensitivity::Combinational => {}
        Sensitivity::Clocked(_) => {}
        Sensitivity::Refused(..) => {}
    }
}

/// Gives signals the start values that a statement leaves.
#[cycle(starts)]
fn start_statement(builder: &mut Builder, scope: &Scope, stmt: &Stmt)
    requires sized { AreSized (names_of scope.now) }
    requires signals { HasSignals (names_of scope.now) builder.old }
    ensures starts { initial_refusals (names_of scope.now) stmt.now ≡ [] → GoesOn (steps_of stmt.now (names_of scope.now)) builder.old builder.new }
    ensures others { SameButStarts builder.old builder.new }
{
    match stmt {
        Stmt::SeqBlock(_, _, body) => start_block(builder, scope, body.as_slice()),
        Stmt::BlockingAssignment(assignment) => start_assignment(builder, scope, assignment),
        _ => {}
    }
}

/// Gives signals the start values that the statements of a block leave.
#[cycle(starts)]
fn start_block(builder: &mut Builder, scope: &Scope, body: &[Stmt])
    requires sized { AreSized (names_of scope.now) }
    requires signals { HasSignals (names_of scope.now) builder.old }
    ensures starts { flat_map (initial_refusals (names_of scope.now)) body.now ≡ [] → GoesOn (in_turn (map steps_of body.now) (names_of scope.now)) builder.old builder.new }
    ensures others { SameButStarts builder.old builder.new }
{
    for stmt in body {
        start_statement(builder, scope, stmt);
    }
}

/// Gives a signal the start value that an assignment leaves.
fn start_assignment(builder: &mut Builder, scope: &Scope, assignment: &Assignment)
    requires sized { AreSized (names_of scope.now) }
    requires signals { HasSignals (names_of scope.now) builder.old }
    ensures starts { assignment_refusals (names_of scope.now) assignment.now (name_alone (out-LeftSide assignment.now.left)) ≡ [] → GoesOn (Assign (assigning true assignment.now (names_of scope.now)) Done) builder.old builder.new }
    ensures others { SameButStarts builder.old builder.new }
{
    let LeftSide::Name(name) = &assignment.left else {
        return;
    };
    match scope.get(name.name.as_str()) {
        Some(Decl::Signal { width, number, .. }) => {
            start_signal(builder, scope, number, width, assignment.value.get());
        }
        Some(Decl::Constant { .. }) => {}
        None => {}
    }
}

/// Gives a signal of so many bits the start value that a constant is. One that is no constant gives none.
pub fn start_signal(builder: &mut Builder, scope: &Scope, number: u32, width: u8, value: &Expr)
    requires known { number < length builder.old.signals }
    requires wide { length (signal builder.old number) ≡ width }
    requires some { 1 ≤ width }
    requires narrow { width ≤ 128 }
    ensures starts { constant_faults_at (sense (names_of scope.now) value.now) (assigned (sense (names_of scope.now) value.now) width) ≡ [] → builder.new ≡ with_start number (assigned_value (names_of scope.now) value.now width) builder.old }
    ensures others { SameButStarts builder.old builder.new }
{
    match constant_at(value, scope, width) {
        Ok(start) => builder.set_start(number, start),
        Err(_) => {}
    }
}
