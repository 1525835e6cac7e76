//! The values that an instance gives to the parameters of its module (IEEE 1364-2005, 12.2.2).
ghost use Rattle.std.specs.Prelude.{◌≡◌, ◌++◌, [], map, IfOk};
ghost use Rattle.flat_instances.specs.Gifts.{declared_names, head_names, all_names, item_names, parameters_of, why_not, refused_gift, with_gift, gift as one_given, no_gift, named_gift, named_gifts, ordered_gifts, gift_of, value_faults, first_of};
ghost use Rattle.flat_instances.specs.Views.{gift_in};

use crate::error::{ParameterError, sooner};
use flat_scopes::{Given, Lent, Step, is_among};
use std::alloc::{AllocError, Global};
use vlog_syntax::{
    Expr, Identifier, Item, Module, NamedConnection, ParameterDeclaration, ParameterKind,
    ParameterValues, PlainItem,
};

/// The values that an instance gives, and what is refused in them, both in order.
#[derive(Drop)]
pub struct Giving<'a> {
    pub given: Vec<Given<'a>>,
    pub refused: Vec<ParameterError>,
}

/// Adds the names of parameters that an instance can give a value.
fn add_declared<'a>(
    names: &mut Vec<Lent<'a, Identifier>>,
    declaration: &'a ParameterDeclaration,
) -> Result<(), AllocError>
    ensures { IfOk result (λ done. names.new.items ≡ names.old.items ++ declared_names declaration.now) }
{
    match declaration.kind {
        ParameterKind::Localparam => {}
        ParameterKind::Parameter => {
            for assignment in declaration.assignments.as_slice() {
                names.push(Lent::of(&assignment.name))?;
            }
        }
    }
    Ok(())
}

/// Adds the names of parameters in the head of a module.
fn add_head<'a>(
    names: &mut Vec<Lent<'a, Identifier>>,
    declarations: &'a [ParameterDeclaration],
) -> Result<(), AllocError>
    ensures { IfOk result (λ done. names.new.items ≡ names.old.items ++ head_names declarations.now) }
{
    for declaration in declarations {
        add_declared(names, declaration)?;
    }
    Ok(())
}

/// Adds the names of parameters that an item declares.
#[cycle(items)]
fn add_item<'a>(names: &mut Vec<Lent<'a, Identifier>>, item: &'a Item) -> Result<(), AllocError>
    ensures { IfOk result (λ done. names.new.items ≡ names.old.items ++ item_names item.now) }
{
    match item {
        Item::Plain(plain) => match plain.get() {
            PlainItem::ParameterDeclaration(declaration) => add_declared(names, declaration),
            _ => Ok(()),
        },
        Item::GenerateRegion(_, items) => add_items(names, items.as_slice()),
        _ => Ok(()),
    }
}

/// Adds the names of parameters that items declare.
#[cycle(items)]
fn add_items<'a>(names: &mut Vec<Lent<'a, Identifier>>, items: &'a [Item]) -> Result<(), AllocError>
    ensures { IfOk result (λ done. names.new.items ≡ names.old.items ++ all_names (map item_names items.now)) }
{
    for item in items {
        add_item(names, item)?;
    }
    Ok(())
}

/// The parameters of a module that an instance can give a value, in order.
pub fn parameters_of<'a>(
    alloc: Global,
    declaration: &'a Module,
) -> Result<Vec<Lent<'a, Identifier>>, AllocError>
    ensures { IfOk result (λ names. names.items ≡ parameters_of declaration.now) }
{
    let mut names = Vec::new(alloc);
    add_head(&mut names, declaration.parameters.as_slice())?;
    add_items(&mut names, declaration.items.as_slice())?;
    Ok(names)
}

/// Why a parameter cannot be given a value by its name, where these were named before.
fn why_not(
    known: &[Lent<'_, Identifier>],
    seen: &[Lent<'_, Identifier>],
    name: &Identifier,
) -> Option<ParameterError>
    ensures { result ≡ why_not known.now seen.now name.now }
{
    if !is_among(known, name.name.as_str()) {
        Some(ParameterError::Unknown(name.span))
    } else if is_among(seen, name.name.as_str()) {
        Some(ParameterError::Twice(name.span))
    } else {
        None
    }
}

impl<'a> Giving<'a> {
    /// Nothing is given.
    fn new(alloc: Global) -> Giving<'a>
        ensures { gift_in result ≡ no_gift }
    {
        Giving {
            given: Vec::new(alloc),
            refused: Vec::new(alloc),
        }
    }

    /// Adds a value.
    fn give(&mut self, name: &'a Identifier, value: &'a Expr) -> Result<(), AllocError>
        ensures { IfOk result (λ done. gift_in self.new ≡ with_gift (gift_in self.old) (one_given name.now value.now)) }
    {
        self.given.push(Given {
            name: Lent::of(name),
            value: Lent::of(value),
        })?;
        Ok(())
    }

    /// Adds a refusal.
    fn refuse(&mut self, error: ParameterError) -> Result<(), AllocError>
        ensures { IfOk result (λ done. gift_in self.new ≡ with_gift (gift_in self.old) (refused_gift error)) }
    {
        self.refused.push(error)?;
        Ok(())
    }

    /// Adds what is given by a name.
    fn add_named(
        &mut self,
        known: &[Lent<'_, Identifier>],
        seen: &[Lent<'_, Identifier>],
        connection: &'a NamedConnection,
    ) -> Result<(), AllocError>
        ensures { IfOk result (λ done. gift_in self.new ≡ with_gift (gift_in self.old) (named_gift known.now seen.now connection.now)) }
    {
        match why_not(known, seen, &connection.name) {
            Some(error) => self.refuse(error),
            None => match &connection.value {
                Some(value) => self.give(&connection.name, value.get()),
                None => Ok(()),
            },
        }
    }
}

/// The values that are given by name.
fn named<'a>(
    alloc: Global,
    known: &[Lent<'_, Identifier>],
    connections: &'a [NamedConnection],
) -> Result<Giving<'a>, AllocError>
    ensures { IfOk result (λ giving. gift_in giving ≡ named_gifts known.now [] connections.now) }
{
    let mut giving = Giving::new(alloc);
    let mut seen = Vec::new(alloc);
    for connection in connections {
        giving.add_named(known, seen.as_slice(), connection)?;
        seen.push(Lent::of(&connection.name))?;
    }
    Ok(giving)
}

/// The values that are given by place.
fn ordered<'a>(
    alloc: Global,
    known: &[Lent<'a, Identifier>],
    values: &'a [Expr],
) -> Result<Giving<'a>, AllocError>
    ensures { IfOk result (λ giving. gift_in giving ≡ ordered_gifts known.now values.now) }
{
    let mut giving = Giving::new(alloc);
    for (place, value) in values.iter().enumerate() {
        match known.get(place) {
            Some(name) => giving.give(name.get(), value)?,
            None => {
                giving.refuse(ParameterError::TooMany(value.first_token()))?;
                return Ok(giving);
            }
        }
    }
    Ok(giving)
}

/// The values that an instance gives to these parameters of its module.
pub fn give_values<'a>(
    alloc: Global,
    known: &[Lent<'a, Identifier>],
    values: &'a ParameterValues,
) -> Result<Giving<'a>, AllocError>
    ensures { IfOk result (λ giving. gift_in giving ≡ gift_of known.now values.now) }
{
    match values {
        ParameterValues::Ordered(values) => ordered(alloc, known, values.as_slice()),
        ParameterValues::Named(connections) => named(alloc, known, connections.as_slice()),
    }
}

/// The first by place of the faults among these, and of one that was found before.
fn first_refused(
    found: Option<ParameterError>,
    refused: &[ParameterError],
) -> Option<ParameterError>
    ensures { result ≡ first_of found refused.now }
{
    let mut first = found;
    for error in refused {
        first = Some(sooner(first, *error));
    }
    first
}

/// The same of the values that are no constants, which were found where the module was opened.
fn first_value(found: Option<ParameterError>, steps: &[Step<'_>]) -> Option<ParameterError>
    ensures { result ≡ first_of found (value_faults steps.now) }
{
    let mut first = found;
    for step in steps {
        if let Step::RefusesGiven(error) = step {
            first = Some(sooner(first, ParameterError::Value(*error)));
        }
    }
    first
}

/// The first by place of what is refused in the values of an instance whose module lists these steps.
pub fn first_fault(refused: &[ParameterError], steps: &[Step<'_>]) -> Option<ParameterError>
    ensures { result ≡ first_of (first_of None refused.now) (value_faults steps.now) }
{
    first_value(first_refused(None, refused), steps)
}
