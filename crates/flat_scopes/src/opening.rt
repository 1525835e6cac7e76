//! A scope that is being opened: its names, the signals of the design so far, and what its items list.
//!
//! `own` has the names that the scope declares itself, `scope` what all names are declared as, those outside too. Contracts see what
//! `opened_of` makes of it. Nothing is refused on the way: what is wrong is listed as a step at its place.
ghost use Rattle.std.specs.Prelude.{◌≡◌, [], IfOk, OnOk};
ghost use Rattle.vlog_meaning.specs.Scopes.{names_of, with_name};
ghost use Rattle.flat_scopes.specs.Owns.{what_of};
ghost use Rattle.flat_scopes.specs.Views.{opened_of};
ghost use Rattle.flat_scopes.specs.Openings.{unopened, step as with_step, refuse as with_refusal, own_name as with_own_name, plain_name as with_plain, genvar_names as with_genvars, is_among as among};

use crate::lent::Lent;
use crate::names::NameList;
use crate::own::OwnNames;
use crate::refusal::Refusal;
use crate::signal::{Signal, What};
use mcy_base::Text;
use std::alloc::{AllocError, Global};
use vlog_meaning::{ConstError, Decl, Scope};
use vlog_syntax::{
    Boxed, DeclaredName, Expr, Identifier, Instance, Item, Listed, ParameterValues, PlainItem,
};

/// An instance of an item, which says what module it has and which values it gives.
#[derive(Drop)]
pub struct Placing<'a> {
    pub module_name: Lent<'a, Identifier>,
    pub values: Lent<'a, ParameterValues>,
    pub instance: Lent<'a, Instance>,
    /// Whether it is the first instance of its item.
    pub is_first: bool,
    /// Whether its name stands already.
    pub is_twice: bool,
}

/// What an item of a scope lists.
#[derive(Drop)]
pub enum Step<'a> {
    /// A new signal, by its number.
    Declares(u32),
    Refuses(Refusal),
    /// The value that the instance gives a parameter is no constant, which is a fault of the instance.
    RefusesGiven(ConstError),
    /// A variable, by its number, and its start value.
    Starts(u32, Lent<'a, Expr>),
    /// A net and its initial value.
    Drives(Lent<'a, Identifier>, Lent<'a, Expr>),
    /// An `assign` or a process.
    Lists(Boxed<Lent<'a, PlainItem>>),
    /// An instance.
    Places(Placing<'a>),
    /// A loop or a condition, which generate construct of the scope it is, from 1 on, and the first of the labels of its blocks
    /// that stands already.
    Generates(u32, Boxed<Lent<'a, Item>>, Option<Lent<'a, Identifier>>),
}

/// A parameter that an instance gives a value.
#[derive(Drop)]
pub struct Given<'a> {
    pub name: Lent<'a, Identifier>,
    pub value: Lent<'a, Expr>,
}

/// What a scope is opened with: what stands before its names after flattening, the ports in the head of its module, and the
/// parameters that an instance gives.
#[derive(Drop)]
pub struct Head<'a> {
    pub prefix: Text,
    pub ports: NameList<'a>,
    pub given: Listed<Given<'a>>,
}

/// A scope that is being opened.
#[derive(Drop)]
pub struct Opening<'a> {
    pub(crate) alloc: Global,
    pub(crate) own: OwnNames,
    pub(crate) scope: Scope,
    pub(crate) signals: Vec<Signal>,
    pub(crate) steps: Vec<Step<'a>>,
    pub(crate) constructs: u32,
}

/// What a scope that was opened is made of.
#[derive(Drop)]
pub struct Parts<'a> {
    /// The names that it declares itself.
    pub own: OwnNames,
    /// What all names are declared as.
    pub scope: Scope,
    /// The signals of the design so far.
    pub signals: Vec<Signal>,
    /// What its items list.
    pub steps: Vec<Step<'a>>,
}

/// What a name is declared as from now on, or that it is not.
pub(crate) fn set_name(scope: &mut Scope, name: &str, decl: Option<Decl>) -> Result<(), AllocError>
    ensures { IfOk result (λ done. names_of scope.new ≡ with_name (names_of scope.old) name.now decl) }
{
    let Some(decl) = decl else {
        scope.hide(name);
        return Ok(());
    };
    if scope.get(name).is_some() {
        scope.replace(name, decl);
        return Ok(());
    }
    match scope.declare(name, decl) {
        Ok(()) => Ok(()),
        Err(_) => Err(AllocError),
    }
}

/// Whether a name is one of these.
pub fn is_among(names: &[Lent<'_, Identifier>], name: &str) -> bool
    ensures { result ≡ among names.now name.now }
{
    for one in names {
        if one.get().name.as_str() == name {
            return true;
        }
    }
    false
}

impl<'a> Opening<'a> {
    /// A scope without names of its own, over these names and the signals so far.
    pub fn new(alloc: Global, scope: Scope, signals: Vec<Signal>) -> Opening<'a>
        ensures { opened_of result ≡ unopened (names_of scope) signals.items }
    {
        Opening {
            alloc,
            own: OwnNames::new(alloc),
            scope,
            signals,
            steps: Vec::new(alloc),
            constructs: 0,
        }
    }

    /// What all names are declared as.
    pub fn scope(&self) -> &Scope
        ensures { names_of result.now ≡ (opened_of self.now).names }
    {
        &self.scope
    }

    /// The signals of the design so far.
    pub fn signals(&self) -> &[Signal]
        ensures { result.now ≡ (opened_of self.now).signals }
    {
        self.signals.as_slice()
    }

    /// What the items list.
    pub fn steps(&self) -> &[Step<'a>]
        ensures { result.now ≡ (opened_of self.now).steps }
    {
        self.steps.as_slice()
    }

    /// The parts of the scope.
    pub fn into_parts(self) -> Parts<'a>
        ensures own { what_of result.own ≡ (opened_of self.entry).own }
        ensures names { names_of result.scope ≡ (opened_of self.entry).names }
        ensures signals { result.signals.items ≡ (opened_of self.entry).signals }
        ensures steps { result.steps.items ≡ (opened_of self.entry).steps }
    {
        Parts {
            own: self.own,
            scope: self.scope,
            signals: self.signals,
            steps: self.steps,
        }
    }

    /// Adds a step.
    pub(crate) fn step(&mut self, step: Step<'a>) -> Result<(), AllocError>
        ensures { IfOk result (λ done. opened_of self.new ≡ with_step (opened_of self.old) step.entry) }
    {
        self.steps.push(step)?;
        Ok(())
    }

    /// Lists a refusal.
    pub(crate) fn refuse(&mut self, refusal: Refusal) -> Result<(), AllocError>
        ensures { IfOk result (λ done. opened_of self.new ≡ with_refusal (opened_of self.old) refusal) }
    {
        self.step(Step::Refuses(refusal))
    }

    /// What a name of the scope's own stands for.
    pub fn what(&self, name: &str) -> Option<What>
        ensures { result ≡ (opened_of self.now).own name.now }
    {
        self.own.get(name)
    }

    /// Declares a name from now on, which is none of the scope's own yet.
    pub(crate) fn own_name(
        &mut self,
        name: &str,
        what: What,
        decl: Option<Decl>,
    ) -> Result<(), AllocError>
        ensures { IfOk result (λ done. opened_of self.new ≡ with_own_name (opened_of self.old) name.now what decl) }
    {
        set_name(&mut self.scope, name, decl)?;
        self.own.set(name, what)
    }

    /// A name of a declaration that has no value.
    pub(crate) fn plain_name(&mut self, name: &Identifier, what: What) -> Result<(), AllocError>
        ensures { IfOk result (λ done. opened_of self.new ≡ with_plain (opened_of self.old) name.now what ((opened_of self.old).own name.now.name)) }
    {
        if self.what(name.name.as_str()).is_some() {
            return self.refuse(Refusal::Twice(name.span));
        }
        self.own_name(name.name.as_str(), what, None)
    }

    /// Genvars (IEEE 1364-2005, 12.4.1).
    pub(crate) fn genvar_names(&mut self, names: &[DeclaredName]) -> Result<(), AllocError>
        ensures { IfOk result (λ done. opened_of self.new ≡ with_genvars (opened_of self.old) names.now) }
    {
        for name in names {
            self.plain_name(&name.name, What::Genvar)?;
        }
        Ok(())
    }
}
