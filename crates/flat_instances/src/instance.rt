//! One instance: its module is opened, and what is wrong in the values of its parameters, a name that stands already, and its
//! connections are listed.
ghost use Rattle.std.specs.Prelude.{◌≡◌, option_to_list, IfOk};
ghost use Rattle.vlog_meaning.specs.Scopes.{names_of};
ghost use Rattle.flat_scopes.specs.Views.{opened_of};
ghost use Rattle.flat_instances.specs.Places.{place_of};
ghost use Rattle.flat_instances.specs.Instances.{inner_prefix, fault_item, name_item, own_faults, listed_of, OpensInstance};

use crate::error::{ItemError, ParameterError};
use crate::giving::{Giving, first_fault, give_values, parameters_of};
use crate::item::FlatItem;
use crate::joint::{Joint, add, connect};
use crate::place::Place;
use flat_scopes::{Head, NameList, Opening, Placing, Refusal, Signal, ports_of, wires_of};
use mcy_base::Text;
use std::alloc::{AllocError, Global};
use vlog_meaning::Scope;
use vlog_syntax::{Listed, Module};

/// An instance whose module was opened: what stands before the names inside, the scope, and what the instance itself lists.
#[derive(Drop)]
pub struct Entered<'a> {
    pub prefix: Text,
    pub child: Opening<'a>,
    pub items: Vec<FlatItem<'a>>,
}

/// What stands before the names of a scope that has this name in another.
pub fn inner_prefix(alloc: Global, prefix: &str, name: &str) -> Result<Text, AllocError>
    ensures { IfOk result (λ text. text ≡ inner_prefix prefix.now name.now) }
{
    let text = format!(in alloc; "{prefix}{name}.")?;
    Ok(Text::from_string(text))
}

/// Lists the first fault in the values of parameters, if there is one.
fn fault_items<'a>(
    alloc: Global,
    fault: Option<ParameterError>,
) -> Result<Vec<FlatItem<'a>>, AllocError>
    ensures { IfOk result (λ items. items.items ≡ option_to_list (fault_item fault)) }
{
    let mut items = Vec::new(alloc);
    if let Some(error) = fault {
        items.push(FlatItem::Refuses(ItemError::Parameter(error)))?;
    }
    Ok(items)
}

/// That the name of an instance stands already.
fn name_item<'a>(placing: &Placing<'_>) -> Option<FlatItem<'a>>
    ensures { result ≡ name_item placing.now.is_twice placing.now.instance.name }
{
    if !placing.is_twice {
        return None;
    }
    let refusal = Refusal::Twice(placing.instance.get().name.span);
    Some(FlatItem::Refuses(ItemError::Declaration(refusal)))
}

/// What is wrong in an instance ahead of its connections.
fn own_faults<'a>(
    alloc: Global,
    child: &Opening<'_>,
    refused: &[ParameterError],
    placing: &Placing<'_>,
) -> Result<Vec<FlatItem<'a>>, AllocError>
    ensures { IfOk result (λ items. items.items ≡ own_faults refused.now placing.now (opened_of child.now)) }
{
    let mut items = fault_items(alloc, first_fault(refused, child.steps()))?;
    add(&mut items, name_item(placing))?;
    Ok(items)
}

/// What an instance lists itself.
fn instance_items<'a>(
    alloc: Global,
    joint: Joint,
    child: &Opening<'a>,
    head: &Head<'a>,
    refused: &[ParameterError],
    placing: &Placing<'a>,
) -> Result<Vec<FlatItem<'a>>, AllocError>
    ensures { IfOk result (λ items. items.items ≡ listed_of joint.outside joint.inside refused.now head.now.ports placing.now (opened_of child.now)) }
{
    let mut items = own_faults(alloc, child, refused, placing)?;
    let wires = wires_of(alloc, &head.ports, placing.instance.get())?;
    let ports = head.ports.as_slice();
    let mut joined = connect(alloc, joint, child, wires.as_slice(), ports)?;
    items.append(&mut joined)?;
    Ok(items)
}

/// Opens the module of an instance behind the signals so far. The values of its parameters and the expressions of its connections
/// are read in the scope of `place`.
pub fn open_instance<'a>(
    alloc: Global,
    joint: Joint,
    place: &Place,
    signals: Vec<Signal>,
    declaration: &'a Module,
    placing: &Placing<'a>,
) -> Result<Entered<'a>, AllocError>
    ensures prefix { IfOk result (λ entered. entered.prefix ≡ inner_prefix (place_of place.now).prefix placing.now.instance.name.name) }
    ensures opens { IfOk result (λ entered. OpensInstance (place_of place.now) joint.outside joint.inside declaration.now placing.now signals.items (opened_of entered.child) entered.items.items) }
{
    let name = placing.instance.get().name.name.as_str();
    let prefix = inner_prefix(alloc, place.prefix.as_str(), name)?;
    let known = parameters_of(alloc, declaration)?;
    let giving = give_values(alloc, known.as_slice(), placing.values.get())?;
    let Giving { given, refused } = giving;
    let ports = ports_of(alloc, &declaration.ports)?;
    let head = Head {
        prefix,
        ports: NameList::of(alloc, ports.as_slice())?,
        given: Listed::from_vec(given),
    };
    let mut child = Opening::new(alloc, Scope::new(alloc), signals);
    child.open_module(&head, &place.scope, declaration)?;
    let items = instance_items(alloc, joint, &child, &head, refused.as_slice(), placing)?;
    Ok(Entered {
        prefix: head.prefix,
        child,
        items,
    })
}
