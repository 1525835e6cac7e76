//! The turns of a loop: whether another one comes, and the value of the loop's variable in it.
ghost use Rattle.std.specs.Prelude.{◌≡◌, ◌≤◌, Bool, List, not, nat_eq, IfOk, IfErr};
ghost use Rattle.std.specs.Option.{option_map};
ghost use Rattle.vlog_syntax.specs.declared.left_side.LeftSide.{out-LeftSide};
ghost use Rattle.vlog_meaning.specs.declared.scope.Decl.TheVariants.{Constant};
ghost use Rattle.vlog_meaning.specs.Answers.{least, refusal, const_error};
ghost use Rattle.vlog_meaning.specs.Scopes.{names_of, nothing};
ghost use Rattle.vlog_meaning.specs.Senses.{sense, assigned, constant_faults_at};
ghost use Rattle.vlog_effects.specs.Expressions.{constant_of, constant_faults};
ghost use Rattle.vlog_effects.specs.Steps.{step_flaws, name_alone, tested, flaws_of, Refuse, Turns, Done};
ghost use Rattle.elab_proc.specs.declared.refusal.Refusal.TheVariants.{Wrong};
ghost use Rattle.elab_proc.specs.Refusals.{const_refusal, step_refusals};
ghost use Rattle.elab_proc.specs.Order.{IsFirst};
ghost use Rattle.elab_proc.specs.Turns.{loop_of, flaw_among, GoesOn, Stops};

use crate::refusal::Refusal;
use mcy_base::{Span, Word};
use vlog_meaning::{Cause, ConstError, Decl, Fault, Scope, constant_at, shape_of, value_of};
use vlog_syntax::{Assignment, Expr, Identifier, LeftSide};

/// A loop without its start and its body: the place of its `for`, its variable, of this width and sign, its condition and its step.
#[derive(Drop)]
pub struct Header<'a> {
    pub place: Span,
    pub name: &'a Identifier,
    pub width: u8,
    pub is_signed: bool,
    pub condition: &'a Expr,
    pub step: &'a Assignment,
}

/// What is refused in a turn, and whether another one comes.
#[derive(Clone, Copy)]
pub(crate) enum Turn {
    /// It is the last one.
    Ends(Option<Refusal>),
    /// Another one comes, in which the loop's variable has this value.
    GoesOn(Option<Refusal>, Word),
}

impl Header<'_> {
    /// The variable in a turn in which it has this value.
    pub fn variable(&self, value: Word) -> Decl
        ensures { result ≡ Constant value 0 self.now.is_signed }
    {
        Decl::Constant {
            value,
            low: 0,
            is_signed: self.is_signed,
        }
    }
}

/// What a constant lacks, as a refusal.
pub(crate) fn of_const(error: ConstError) -> Refusal
    ensures { result ≡ const_refusal error }
{
    match error {
        ConstError::Unknown(span) => wrong(Cause::Unknown, span),
        ConstError::NotConstant(span) => wrong(Cause::NotConstant, span),
        ConstError::DivideByZero(span) => wrong(Cause::DivideByZero, span),
        ConstError::TooWide(span) => wrong(Cause::TooWide, span),
        ConstError::SystemFunction(span) => wrong(Cause::SystemFunction, span),
        ConstError::Drawn(span) => wrong(Cause::Drawn, span),
    }
}

/// What is wrong at a place.
fn wrong(cause: Cause, span: Span) -> Refusal
    ensures { result ≡ Wrong (record { cause = cause; span = span }) }
{
    Refusal::Wrong(Fault { cause, span })
}

/// Whether a constant condition is not 0.
pub fn holds(condition: &Expr, scope: &Scope) -> Result<bool, ConstError>
    ensures refused { refusal result ≡ option_map const_error (least (constant_faults_at (sense (names_of scope.now) condition.now) (assigned (sense (names_of scope.now) condition.now) 1))) }
    ensures holds { IfOk result (λ b. b ≡ not (nat_eq ((sense (names_of scope.now) condition.now).value nothing (assigned (sense (names_of scope.now) condition.now) 1)) 0)) }
{
    match constant_at(condition, scope, 1) {
        Err(error) => Err(error),
        Ok(_) => Ok(value_of(condition, scope, &[], shape_of(condition, scope)) != 0),
    }
}

/// Why a loop's step does not assign its variable.
fn step_refusal(header: &Header<'_>, scope: &Scope) -> Option<Refusal>
    ensures { result ≡ flaw_among (step_flaws (loop_of header.now) (names_of scope.now) (name_alone (out-LeftSide header.now.step.now.left))) }
{
    let LeftSide::Name(name) = &header.step.left else {
        return Some(wrong(Cause::NotConstant, header.step.left.first_token()));
    };
    if name.name.as_str() == header.name.name.as_str() {
        return None;
    }
    match scope.get(name.name.as_str()) {
        Some(Decl::Signal { .. }) => Some(wrong(Cause::NotConstant, name.span)),
        Some(Decl::Constant { .. }) | None => Some(wrong(Cause::Unknown, name.span)),
    }
}

/// The value of the variable in the next turn, where the turn before it has this scope; or why there is none.
pub fn next_word(header: &Header<'_>, scope: &Scope) -> Result<Word, Refusal>
    requires some { 1 ≤ header.now.width }
    requires narrow { header.now.width ≤ 128 }
    ensures next { IfOk result (λ word. GoesOn (loop_of header.now) (names_of scope.now) word) }
    ensures none { IfErr result (λ refusal. Stops (loop_of header.now) (names_of scope.now) refusal) }
{
    match step_refusal(header, scope) {
        Some(refusal) => Err(refusal),
        None => match constant_at(header.step.value.get(), scope, header.width) {
            Err(error) => Err(of_const(error)),
            Ok(word) => Ok(word),
        },
    }
}

/// What is refused where a loop at this place has had all turns that it may have.
pub(crate) fn last_test(place: Span, condition: &Expr, scope: &Scope) -> Option<Refusal>
    ensures { (comb : Bool) (written : List Bool) → IsFirst (step_refusals comb written (tested (constant_of (names_of scope.now) 1 condition.now) (flaws_of (constant_faults (names_of scope.now) 1 condition.now)) (Refuse (Turns place) Done))) result }
{
    match holds(condition, scope) {
        Err(error) => Some(of_const(error)),
        Ok(false) => None,
        Ok(true) => Some(Refusal::LoopTurns(place)),
    }
}
