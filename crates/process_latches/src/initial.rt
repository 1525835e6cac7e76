//! What is refused first in an `initial`: it has constant assignments to whole variables, and blocks of these.
ghost use Rattle.std.specs.Prelude.{◌≡◌, ◌≤◌, ◌∷◌, []};
ghost use Rattle.std.specs.List.{flat_map};
ghost use Rattle.vlog_syntax.specs.declared.left_side.LeftSide.{out-LeftSide};
ghost use Rattle.vlog_meaning.specs.declared.fault.Cause.TheVariants.{Unknown};
ghost use Rattle.vlog_meaning.specs.Answers.{least};
ghost use Rattle.vlog_meaning.specs.Scopes.{names_of};
ghost use Rattle.vlog_meaning.specs.Senses.{fault, sense, assigned, constant_faults_at};
ghost use Rattle.vlog_effects.specs.Steps.{name_alone};
ghost use Rattle.elab_proc.specs.declared.refusal.Refusal.TheVariants as r;
ghost use Rattle.elab_proc.specs.Order.{IsFirst};
ghost use Rattle.elab_proc.specs.Refusals.{AreSized};
ghost use Rattle.process_latches.specs.Initial.{value_refusals, start_refusals, assignment_refusals, initial_refusals};

use elab_proc::{Refusal, earlier, wrong};
use mcy_base::Span;
use vlog_meaning::{Cause, Decl, Fault, Scope, Shape, fault_in, shape_of, signal_in, zero_in};
use vlog_syntax::{Assignment, Expr, Feature, Identifier, LeftSide, Stmt};

/// What is refused first in a statement of an `initial`, by its place, if anything is. A constant `=` to a signal is refused for what
/// is wrong in its value, and `=` to another name for that name. Delays, waits and loops that wait are refused as such, and a system
/// task is; a statement of any other form, a `=` to a part of a name or of a value that reads a signal among them, is refused at its
/// first token.
#[cycle(initial)]
pub fn initial_refusal(stmt: &Stmt, scope: &Scope) -> Option<Refusal>
    requires { AreSized (names_of scope.now) }
    ensures { IsFirst (initial_refusals (names_of scope.now) stmt.now) result }
{
    match stmt {
        Stmt::SeqBlock(_, _, body) => block_refusal(body.as_slice(), scope),
        Stmt::BlockingAssignment(assignment) => assignment_refusal(assignment, scope),
        Stmt::NonblockingAssignment(assignment) => unsupported(
            assignment.left.first_token(),
            Feature::InitialForm,
        ),
        Stmt::SystemTaskEnable(name, _) => unsupported(name.span, Feature::SystemTask),
        Stmt::Null(span) => unsupported(*span, Feature::InitialForm),
        Stmt::Conditional(span, ..) => unsupported(*span, Feature::InitialForm),
        Stmt::Case(span, ..) => unsupported(*span, Feature::InitialForm),
        Stmt::For(span, ..) => unsupported(*span, Feature::InitialForm),
        Stmt::While(span, ..) => unsupported(*span, Feature::Delay),
        Stmt::Repeat(span, ..) => unsupported(*span, Feature::Delay),
        Stmt::Forever(span, _) => unsupported(*span, Feature::Delay),
        Stmt::EventControl(span, ..) => unsupported(*span, Feature::Delay),
        Stmt::DelayControl(span, ..) => unsupported(*span, Feature::Delay),
    }
}

/// What is refused first in the statements of a block.
#[cycle(initial)]
fn block_refusal(body: &[Stmt], scope: &Scope) -> Option<Refusal>
    requires { AreSized (names_of scope.now) }
    ensures { IsFirst (flat_map (initial_refusals (names_of scope.now)) body.now) result }
{
    let mut found = None;
    for stmt in body {
        found = earlier(found, initial_refusal(stmt, scope));
    }
    found
}

/// A statement that is not supported.
fn unsupported(first_token: Span, feature: Feature) -> Option<Refusal>
    ensures { IsFirst (r.Unsupported first_token feature ∷ []) result }
{
    Some(Refusal::Unsupported(first_token, feature))
}

/// A name that is no signal's.
fn unknown(span: Span) -> Option<Refusal>
    ensures { IsFirst (r.Wrong (fault Unknown span) ∷ []) result }
{
    Some(Refusal::Wrong(Fault {
        cause: Cause::Unknown,
        span,
    }))
}

/// What is refused first in a blocking assignment.
fn assignment_refusal(assignment: &Assignment, scope: &Scope) -> Option<Refusal>
    requires { AreSized (names_of scope.now) }
    ensures { IsFirst (assignment_refusals (names_of scope.now) assignment.now (name_alone (out-LeftSide assignment.now.left))) result }
{
    let LeftSide::Name(name) = &assignment.left else {
        return unsupported(assignment.left.first_token(), Feature::InitialForm);
    };
    start_refusal(name, assignment.value.get(), scope)
}

/// What is refused first where a name is assigned, which has to be a signal's.
fn start_refusal(name: &Identifier, value: &Expr, scope: &Scope) -> Option<Refusal>
    requires { AreSized (names_of scope.now) }
    ensures { IsFirst (start_refusals (names_of scope.now) name.now value.now (names_of scope.now name.now.name)) result }
{
    match scope.get(name.name.as_str()) {
        Some(Decl::Signal { width, .. }) => value_refusal(name, width, value, scope),
        Some(Decl::Constant { .. }) => unknown(name.span),
        None => unknown(name.span),
    }
}

/// What is refused first where a name gets a value, which has to be a constant.
fn value_refusal(name: &Identifier, width: u8, value: &Expr, scope: &Scope) -> Option<Refusal>
    requires { width ≤ 128 }
    ensures { IsFirst (value_refusals (names_of scope.now) name.now width value.now) result }
{
    match signal_in(value, scope) {
        Some(_) => unsupported(name.span, Feature::InitialForm),
        None => wrong(value_fault(width, value, scope)),
    }
}

/// What is wrong in a value without signals that is assigned to so many bits.
fn value_fault(width: u8, value: &Expr, scope: &Scope) -> Option<Fault>
    requires narrow { width ≤ 128 }
    requires constant { (sense (names_of scope.now) value.now).signals ≡ [] }
    ensures { result ≡ least (constant_faults_at (sense (names_of scope.now) value.now) (assigned (sense (names_of scope.now) value.now) width)) }
{
    match fault_in(value, scope) {
        Some(fault) => Some(fault),
        None => {
            let own = shape_of(value, scope);
            let context = Shape {
                width: own.width.max(width),
                is_signed: own.is_signed,
            };
            zero_in(value, scope, context)
        }
    }
}
