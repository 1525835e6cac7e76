//! What is refused in a flattened item for its use of the clock.
ghost use Rattle.std.specs.Prelude.{◌++◌, IfOk};
ghost use Rattle.vlog_meaning.specs.Scopes.{names_of};
ghost use Rattle.process_events.specs.Events.{clock_in, sensitivity};
ghost use Rattle.elab_proc.specs.Order.{IsFirst};
ghost use Rattle.flat_items.specs.Views.{flat_of};
ghost use Rattle.flat_clocks.specs.Clocks.{clock_names, passed_on};
ghost use Rattle.flat_clocks.specs.Reads.{expr_reads, form_reads, left_reads, stmt_reads};
ghost use Rattle.flat_clocks.specs.Refusals.{gated, process_reads, entering_reads, clock_refusals};
ghost use Rattle.flat_clocks.specs.Views.{clocks_in};

use crate::clocks::{Clocks, passed_on, scope_at};
use crate::names::ClockNames;
use crate::reads::{expr_read, form_read, left_read};
use crate::statements::stmt_read;
use elab_proc::{Refusal, earlier};
use flat_instances::FlatItem;
use flat_items::Flat;
use flat_scopes::Signal;
use process_events::clock_of;
use std::alloc::{AllocError, Global};
use vlog_meaning::Scope;
use vlog_syntax::{Expr, Feature, LeftSide, Process, Stmt};

impl Clocks {
    /// The first read in a value of a scope.
    fn value_refusal(&self, alloc: Global, scope: &Scope, value: &Expr) -> Option<Refusal>
        ensures { IsFirst (expr_reads (clock_names (clocks_in self.now) (names_of scope.now)) value.now) result }
    {
        let variables = Scope::new(alloc);
        let names = ClockNames {
            clocks: self,
            scope,
            variables: &variables,
        };
        expr_read(&names, value)
    }

    /// The first read in the selects of a left side.
    fn left_refusal(&self, alloc: Global, scope: &Scope, left: &LeftSide) -> Option<Refusal>
        ensures { IsFirst (left_reads (clock_names (clocks_in self.now) (names_of scope.now)) left.now) result }
    {
        let variables = Scope::new(alloc);
        let names = ClockNames {
            clocks: self,
            scope,
            variables: &variables,
        };
        left_read(&names, left)
    }

    /// The first read in the sides of an `assign`.
    fn sides_refusal(
        &self,
        alloc: Global,
        scope: &Scope,
        left: &LeftSide,
        value: &Expr,
    ) -> Option<Refusal>
        ensures { IsFirst (left_reads (clock_names (clocks_in self.now) (names_of scope.now)) left.now ++ expr_reads (clock_names (clocks_in self.now) (names_of scope.now)) value.now) result }
    {
        earlier(
            self.left_refusal(alloc, scope, left),
            self.value_refusal(alloc, scope, value),
        )
    }

    /// The first read in what an output is connected to.
    fn form_refusal(&self, alloc: Global, scope: &Scope, left: &Expr) -> Option<Refusal>
        ensures { IsFirst (form_reads (clock_names (clocks_in self.now) (names_of scope.now)) left.now) result }
    {
        let variables = Scope::new(alloc);
        let names = ClockNames {
            clocks: self,
            scope,
            variables: &variables,
        };
        form_read(&names, left)
    }

    /// The first read in a statement.
    fn body_refusal(
        &self,
        alloc: Global,
        scope: &Scope,
        body: &Stmt,
    ) -> Result<Option<Refusal>, AllocError>
        ensures { IfOk result (λ o. IsFirst (stmt_reads body.now (clock_names (clocks_in self.now) (names_of scope.now))) o) }
    {
        let variables = Scope::new(alloc);
        let names = ClockNames {
            clocks: self,
            scope,
            variables: &variables,
        };
        stmt_read(&names, body)
    }

    /// A process that another signal clocks than the design.
    fn gated(&self, scope: &Scope, process: &Process) -> Option<Refusal>
        ensures { IsFirst (gated (clock_names (clocks_in self.now) (names_of scope.now)) (clock_in (sensitivity process.now))) result }
    {
        match clock_of(process) {
            Some(name) => {
                if self.is_clock(scope.get(name.name.as_str())) {
                    None
                } else {
                    Some(Refusal::Unsupported(name.span, Feature::GatedClock))
                }
            }
            None => None,
        }
    }

    /// What is refused first in a process.
    fn process_refusal(
        &self,
        alloc: Global,
        scope: &Scope,
        process: &Process,
    ) -> Result<Option<Refusal>, AllocError>
        ensures { IfOk result (λ o. IsFirst (process_reads (clock_names (clocks_in self.now) (names_of scope.now)) process.now) o) }
    {
        let first = self.gated(scope, process);
        let later = self.body_refusal(alloc, scope, process.body.get())?;
        Ok(earlier(first, later))
    }

    /// The first read in what an input of an instance is connected to, unless it passes a signal on.
    fn entering_refusal(
        &self,
        alloc: Global,
        signals: &[Signal],
        port: u32,
        scope: &Scope,
        value: &Expr,
    ) -> Option<Refusal>
        ensures { IsFirst (entering_reads (clock_names (clocks_in self.now) (names_of scope.now)) value.now (passed_on signals.now port (names_of scope.now) value.now)) result }
    {
        match passed_on(signals, port, scope, value) {
            Some(_) => None,
            None => self.value_refusal(alloc, scope, value),
        }
    }

    /// What is refused first in an item for its use of the clock: a process that is not clocked by the design's clock, at the name of
    /// its clock, and a read of the clock, at the name that is read. The connection of an input of one bit to the clock's name alone
    /// passes it on. Names in lists of events are not read, and in a loop its variable is no clock.
    pub fn clock_refusal(
        &self,
        alloc: Global,
        flat: &Flat<'_>,
        item: &FlatItem<'_>,
    ) -> Result<Option<Refusal>, AllocError>
        ensures { IfOk result (λ o. IsFirst (clock_refusals (clocks_in self.now) (flat_of flat.now).signals (flat_of flat.now).places item.now) o) }
    {
        match item {
            FlatItem::Assigns(place, left, value) => match scope_at(flat, *place) {
                Some(scope) => Ok(self.sides_refusal(alloc, scope, left.get(), value.get())),
                None => Err(AllocError),
            },
            FlatItem::Drives(place, _, value) => match scope_at(flat, *place) {
                Some(scope) => Ok(self.value_refusal(alloc, scope, value.get())),
                None => Err(AllocError),
            },
            FlatItem::Enters(port, place, value) => match scope_at(flat, *place) {
                Some(scope) => Ok(self.entering_refusal(
                    alloc,
                    flat.signals(),
                    *port,
                    scope,
                    value.get(),
                )),
                None => Err(AllocError),
            },
            FlatItem::Leaves(place, value, ..) => match scope_at(flat, *place) {
                Some(scope) => Ok(self.form_refusal(alloc, scope, value.get())),
                None => Err(AllocError),
            },
            FlatItem::Runs(place, process) => match scope_at(flat, *place) {
                Some(scope) => self.process_refusal(alloc, scope, process.get()),
                None => Err(AllocError),
            },
            FlatItem::Declares(_)
            | FlatItem::Open(_)
            | FlatItem::Starts(..)
            | FlatItem::Refuses(_) => Ok(None),
        }
    }
}
