//! The names that are the clock where something is read: those of a scope, but for the variables of the loops around.
ghost use Rattle.std.specs.Prelude.{◌≡◌, false, None, Some, IfOk};
ghost use Rattle.std.specs.Option.{MatchOption};
ghost use Rattle.vlog_syntax.specs.declared.left_side.LeftSide.{out-LeftSide};
ghost use Rattle.vlog_meaning.specs.declared.scope.Decl.TheVariants.{Signal};
ghost use Rattle.vlog_meaning.specs.Scopes.{names_of, with_name as with_decl};
ghost use Rattle.vlog_effects.specs.Steps.{name_alone};
ghost use Rattle.elab_proc.specs.Order.{IsFirst};
ghost use Rattle.flat_clocks.specs.Reads.{ClockNames as Clocked, name_reads, inside};
ghost use Rattle.flat_clocks.specs.Views.{but, names_in};

use crate::clocks::Clocks;
use elab_proc::Refusal;
use std::alloc::AllocError;
use vlog_meaning::{Decl, Scope};
use vlog_syntax::{Feature, Identifier, LeftSide};

/// Which names are the clock. `variables` declares those of the loops around, in any way.
#[derive(Drop)]
pub(crate) struct ClockNames<'a> {
    pub clocks: &'a Clocks,
    pub scope: &'a Scope,
    pub variables: &'a Scope,
}

impl ClockNames<'_> {
    /// Whether the name is the clock.
    pub(crate) fn has(&self, name: &str) -> bool
        ensures { result ≡ names_in self.now name.now }
    {
        self.variables.get(name).is_none() && self.clocks.is_clock(self.scope.get(name))
    }

    /// A read of the name, if it is the clock.
    pub(crate) fn read(&self, name: &Identifier) -> Option<Refusal>
        ensures { IsFirst (name_reads (names_in self.now) name.now) result }
    {
        if self.has(name.name.as_str()) {
            Some(Refusal::Unsupported(name.span, Feature::ClockAsData))
        } else {
            None
        }
    }
}

/// A scope in which one more name is declared.
fn with_name(variables: &Scope, name: &str) -> Result<Scope, AllocError>
    ensures { IfOk result (λ v. names_of v ≡ with_decl (names_of variables.now) name.now (Some (Signal 1 0 false 0))) }
{
    let mut more = variables.copy()?;
    more.hide(name);
    let decl = Decl::Signal {
        width: 1,
        low: 0,
        is_signed: false,
        number: 0,
    };
    match more.declare(name, decl) {
        Ok(()) => Ok(more),
        Err(_) => Err(AllocError),
    }
}

/// The variable of a loop that starts with this left side.
fn variable(left: &LeftSide) -> Option<&Identifier>
    ensures { MatchOption result (name_alone (out-LeftSide left.now) ≡ None) (λ n. name_alone (out-LeftSide left.now) ≡ Some n.now) }
{
    match left {
        LeftSide::Name(name) => Some(name),
        _ => None,
    }
}

/// The variables of the loops around what stands in a loop that starts with this left side.
pub(crate) fn with_variable(variables: &Scope, left: &LeftSide) -> Result<Scope, AllocError>
    ensures { IfOk result (λ v. (is : Clocked) → but (names_of v) is ≡ inside (name_alone (out-LeftSide left.now)) (but (names_of variables.now) is)) }
{
    match variable(left) {
        Some(name) => with_name(variables, name.name.as_str()),
        None => variables.copy(),
    }
}
