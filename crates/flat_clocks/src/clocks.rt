//! The clock of a design, and from where signals have their values by plain connections.
//!
//! `sources` has the signals that are passed on, each with its source; any other signal is its own.
ghost use Rattle.std.specs.Prelude.{◌≡◌, ℕ, false, None, Some, IfOk, IfSome, OnOk, slice_index_or};
ghost use Rattle.std.specs.Option.{MatchOption};
ghost use Rattle.vlog_syntax.specs.declared.expr.Expr.{out-Expr};
ghost use Rattle.vlog_meaning.specs.Scopes.{names_of};
ghost use Rattle.flat_items.specs.Views.{flat_of};
ghost use Rattle.flat_clocks.specs.Clocks.{names_at, is_bit, bit_of, named_bit, passed_on, with_source, with_item, with_items, sources, signal_of, clock_name, signal_named, first_clock, as_input, clocks_of, is_clock};
ghost use Rattle.flat_clocks.specs.Views.{sources_in, clocks_in};

use flat_instances::FlatItem;
use flat_items::Flat;
use flat_scopes::Signal;
use process_events::clock_of;
use std::alloc::{AllocError, Global};
use std::collections::BTreeMap;
use vlog_meaning::{Decl, Scope};
use vlog_syntax::{Expr, Identifier};

/// The clock of a design, if it has one, and from where signals have their values.
#[derive(Drop)]
pub struct Clocks {
    sources: BTreeMap<u32, u32>,
    clock: Option<u32>,
}

/// The names of the scope of this number.
#[tactic(auto, using(crate::proofs::Sources::names_found))]
pub(crate) fn scope_at<'a>(flat: &'a Flat<'_>, number: u32) -> Option<&'a Scope>
    ensures { IfSome result (λ scope. names_at (flat_of flat.now).places number ≡ names_of scope.now) }
{
    match flat.scope(number) {
        Some(scope) => Some(scope),
        None => None,
    }
}

/// Whether the signal has one bit.
fn is_bit(signals: &[Signal], number: u32) -> bool
    ensures { result ≡ is_bit signals.now number }
{
    match signals.get(number as usize) {
        Some(signal) => signal.bits.width == 1,
        None => false,
    }
}

/// The signal of one bit that is declared so.
fn bit_of(decl: Option<Decl>) -> Option<u32>
    ensures { result ≡ bit_of decl }
{
    match decl {
        Some(Decl::Signal { width, number, .. }) => { if width == 1 { Some(number) } else { None } }
        Some(Decl::Constant { .. }) | None => None,
    }
}

/// The signal of one bit that an expression names, where it is a name alone.
fn named_bit(scope: &Scope, value: &Expr) -> Option<u32>
    ensures { result ≡ named_bit (names_of scope.now) (out-Expr value.now) }
{
    match value {
        Expr::Name(name) => bit_of(scope.get(name.name.as_str())),
        _ => None,
    }
}

/// The signal that is passed on to an input of an instance, where there is one.
pub(crate) fn passed_on(signals: &[Signal], port: u32, scope: &Scope, value: &Expr) -> Option<u32>
    ensures { result ≡ passed_on signals.now port (names_of scope.now) value.now }
{
    if is_bit(signals, port) {
        named_bit(scope, value)
    } else {
        None
    }
}

/// From where a signal has its value.
fn source(sources: &BTreeMap<u32, u32>, number: u32) -> u32
    ensures { result ≡ sources_in sources.now number }
{
    match sources.get(&number) {
        Some(source) => *source,
        None => number,
    }
}

/// Gives an input the source of a signal, which is this one.
fn set_source(sources: &mut BTreeMap<u32, u32>, port: u32, from: u32) -> Result<(), AllocError>
    ensures { OnOk result ((number : ℕ) → from ≡ sources_in sources.old number → sources_in sources.new ≡ with_source (sources_in sources.old) port (Some number)) }
{
    match sources.insert(port, from) {
        Ok(_) => Ok(()),
        Err(_) => Err(AllocError),
    }
}

/// Passes a signal on to an input.
fn pass(sources: &mut BTreeMap<u32, u32>, port: u32, passed: Option<u32>) -> Result<(), AllocError>
    ensures { OnOk result (sources_in sources.new ≡ with_source (sources_in sources.old) port passed) }
{
    match passed {
        None => Ok(()),
        Some(number) => {
            let from = source(sources, number);
            set_source(sources, port, from)
        }
    }
}

/// Passes on what an item passes on.
fn enter(
    sources: &mut BTreeMap<u32, u32>,
    flat: &Flat<'_>,
    item: &FlatItem<'_>,
) -> Result<(), AllocError>
    ensures { OnOk result (sources_in sources.new ≡ with_item (flat_of flat.now).signals (flat_of flat.now).places (sources_in sources.old) item.now) }
{
    match item {
        FlatItem::Enters(port, place, value) => {
            let Some(scope) = scope_at(flat, *place) else {
                return Err(AllocError);
            };
            pass(
                sources,
                *port,
                passed_on(flat.signals(), *port, scope, value.get()),
            )
        }
        _ => Ok(()),
    }
}

/// Passes on what items pass on, one after the other.
fn enter_all(
    sources: &mut BTreeMap<u32, u32>,
    flat: &Flat<'_>,
    items: &[FlatItem<'_>],
) -> Result<(), AllocError>
    ensures { OnOk result (sources_in sources.new ≡ with_items (flat_of flat.now).signals (flat_of flat.now).places (sources_in sources.old) items.now) }
{
    for item in items {
        enter(sources, flat, item)?;
    }
    Ok(())
}

/// From where all signals have their values.
fn sources_of(alloc: Global, flat: &Flat<'_>) -> Result<BTreeMap<u32, u32>, AllocError>
    ensures { IfOk result (λ m. sources_in m ≡ sources (flat_of flat.now)) }
{
    let mut sources = BTreeMap::new(alloc);
    enter_all(&mut sources, flat, flat.items())?;
    Ok(sources)
}

/// The number of a signal that is declared so.
fn signal_of(decl: Option<Decl>) -> Option<u32>
    ensures { result ≡ signal_of decl }
{
    match decl {
        Some(Decl::Signal { number, .. }) => Some(number),
        Some(Decl::Constant { .. }) | None => None,
    }
}

/// The name of the clock of an item that is a clocked process.
fn clock_name<'a>(item: &'a FlatItem<'_>) -> Option<&'a Identifier>
    ensures { MatchOption result (clock_name item.now ≡ None) (λ n. clock_name item.now ≡ Some n.now) }
{
    match item {
        FlatItem::Runs(_, process) => clock_of(process.get()),
        _ => None,
    }
}

/// The signal of that name.
fn signal_named(
    flat: &Flat<'_>,
    item: &FlatItem<'_>,
    name: &Identifier,
) -> Result<Option<u32>, AllocError>
    ensures { IfOk result (λ o. o ≡ signal_named (flat_of flat.now).places item.now name.now) }
{
    match item {
        FlatItem::Runs(place, _) => match scope_at(flat, *place) {
            Some(scope) => Ok(signal_of(scope.get(name.name.as_str()))),
            None => Err(AllocError),
        },
        _ => Ok(None),
    }
}

/// The signal that clocks the first clocked process.
fn first_clock(flat: &Flat<'_>, items: &[FlatItem<'_>]) -> Result<Option<u32>, AllocError>
    ensures { IfOk result (λ o. o ≡ first_clock (flat_of flat.now).places items.now) }
{
    for item in items {
        match clock_name(item) {
            Some(name) => return signal_named(flat, item, name),
            None => {}
        }
    }
    Ok(None)
}

/// Whether the signal is an input of the top.
fn is_input(inputs: &[bool], number: u32) -> bool
    ensures { result ≡ slice_index_or inputs.now number false }
{
    match inputs.get(number as usize) {
        Some(is_input) => *is_input,
        None => false,
    }
}

/// An input of the top of one bit.
fn as_input(inputs: &[bool], signals: &[Signal], number: u32) -> Option<u32>
    ensures { result ≡ as_input inputs.now signals.now (Some number) }
{
    if is_input(inputs, number) && is_bit(signals, number) {
        Some(number)
    } else {
        None
    }
}

impl Clocks {
    /// The clock of a design: the input of the top of one bit from which the first clocked process has its clock. `inputs` tells by
    /// their numbers which signals are inputs of the top; a signal past its end is none.
    pub fn of(alloc: Global, flat: &Flat<'_>, inputs: &[bool]) -> Result<Clocks, AllocError>
        ensures { IfOk result (λ c. clocks_in c ≡ clocks_of inputs.now (flat_of flat.now)) }
    {
        let sources = sources_of(alloc, flat)?;
        let clock = match first_clock(flat, flat.items())? {
            Some(first) => as_input(inputs, flat.signals(), source(&sources, first)),
            None => None,
        };
        Ok(Clocks { sources, clock })
    }

    /// The signal that is the clock.
    pub fn clock(&self) -> Option<u32>
        ensures { result ≡ (clocks_in self.now).clock }
    {
        self.clock
    }

    /// Whether what is declared so is the clock, or is passed on from it.
    pub(crate) fn is_clock(&self, decl: Option<Decl>) -> bool
        ensures { result ≡ is_clock (clocks_in self.now) decl }
    {
        match (self.clock, signal_of(decl)) {
            (Some(clock), Some(number)) => clock == source(&self.sources, number),
            _ => false,
        }
    }
}
