//! The items of a scope, one after the other (IEEE 1364-2005, 12.4).
ghost use Rattle.std.specs.Prelude.{◌≡◌, ◌||◌, ◌+◌, ◌∷◌, [], List, IfOk};
ghost use Rattle.vlog_syntax.specs.declared.item.Item.{Item as Part, out-Item};
ghost use Rattle.vlog_meaning.specs.Scopes.{names_of};
ghost use Rattle.flat_scopes.specs.Openings.{Opened, step as with_step, is_among as among};
ghost use Rattle.flat_scopes.specs.Opens.{declared, labels_of, body_labels, with_label, merged, numbered as with_number, construct as with_construct, Opens};
ghost use Rattle.flat_scopes.specs.Views.{opened_of};
ghost use Rattle.flat_scopes.specs.declared.opening.Step.TheVariants.{Lists};

use crate::lent::Lent;
use crate::opening::{Head, Opening, Step, is_among};
use std::alloc::AllocError;
use vlog_meaning::Scope;
use vlog_syntax::{Boxed, Identifier, Item, PlainItem};

/// Adds a label, if it is not among these.
fn add_label<'a>(
    labels: &mut Vec<Lent<'a, Identifier>>,
    label: &'a Identifier,
) -> Result<(), AllocError>
    ensures { IfOk result (λ done. labels.new.items ≡ with_label labels.old.items label.now) }
{
    if !is_among(labels.as_slice(), label.name.as_str()) {
        labels.push(Lent::of(label))?;
    }
    Ok(())
}

/// Adds the labels of a construct's blocks, each once.
fn add_labels<'a>(labels: &mut Vec<Lent<'a, Identifier>>, item: &'a Item) -> Result<(), AllocError>
    ensures { IfOk result (λ done. labels.new.items ≡ merged labels.old.items (labels_of item.now)) }
{
    match item {
        Item::GenerateBlock(_, Some(label), _) => add_label(labels, label),
        Item::IfGenerate(_, _, first, second) => {
            add_labels(labels, first.get())?;
            match second {
                Some(second) => add_labels(labels, second.get()),
                None => Ok(()),
            }
        }
        _ => Ok(()),
    }
}

/// Whether one of two is so.
fn either(first: bool, second: bool) -> bool
    ensures { result ≡ (first || second) }
{
    first || second
}

/// Whether a block of an item has this label.
pub fn has_label(item: &Item, name: &str) -> bool
    ensures { result ≡ among (labels_of item.now) name.now }
{
    match item {
        Item::GenerateBlock(_, Some(label), _) => label.name.as_str() == name,
        Item::IfGenerate(_, _, first, second) => {
            let found = has_label(first.get(), name);
            match second {
                Some(second) => either(found, has_label(second.get(), name)),
                None => found,
            }
        }
        _ => false,
    }
}

impl<'a> Opening<'a> {
    /// Lists an assign or a process.
    fn list(&mut self, item: &'a PlainItem) -> Result<(), AllocError>
        ensures { IfOk result (λ done. opened_of self.new ≡ with_step (opened_of self.old) (Lists item.now)) }
    {
        let item = Boxed::new(self.alloc, Lent::of(item))?;
        self.step(Step::Lists(item))
    }

    /// What an item that is no generate construct declares and lists.
    fn declare(
        &mut self,
        head: &Head<'a>,
        outside: &Scope,
        item: &'a PlainItem,
    ) -> Result<(), AllocError>
        ensures { IfOk result (λ done. opened_of self.new ≡ declared head.now (names_of outside.now) (opened_of self.old) item.now) }
    {
        match item {
            PlainItem::PortDeclaration(port) => {
                let typed = self.typed(&port.data_type)?;
                self.port_names(head, port.names.as_slice(), typed, port.direction)
            }
            PlainItem::DataDeclaration(data) => {
                let typed = self.typed(&data.data_type)?;
                self.data_names(head, data.names.as_slice(), typed)
            }
            PlainItem::GenvarDeclaration(_, names) => self.genvar_names(names.as_slice()),
            PlainItem::ParameterDeclaration(parameter) => {
                self.parameters(head, outside, parameter)
            }
            PlainItem::ContinuousAssign(..) | PlainItem::Process(_) => self.list(item),
            PlainItem::ModuleInstantiation(name, values, instances) => {
                self.instances(name, values, instances.as_slice())
            }
        }
    }

    /// The number of the next generate construct.
    fn next_number(&self) -> Result<u32, AllocError>
        ensures { IfOk result (λ n. n ≡ (opened_of self.now).constructs + 1) }
    {
        match self.constructs.checked_add(1) {
            Some(number) => Ok(number),
            None => Err(AllocError),
        }
    }

    /// Lists the next generate construct, with a label of its blocks that stands already.
    fn number(
        &mut self,
        item: &'a Item,
        taken: Option<Lent<'a, Identifier>>,
    ) -> Result<(), AllocError>
        ensures { IfOk result (λ done. opened_of self.new ≡ with_number (opened_of self.old) item.now taken.entry) }
    {
        let number = self.next_number()?;
        self.constructs = number;
        let item = Boxed::new(self.alloc, Lent::of(item))?;
        self.step(Step::Generates(number, item, taken))
    }

    /// A generate construct of the scope, whose blocks have these labels.
    fn construct(
        &mut self,
        item: &'a Item,
        labels: &[Lent<'a, Identifier>],
    ) -> Result<(), AllocError>
        ensures { IfOk result (λ done. opened_of self.new ≡ with_construct (opened_of self.old) item.now labels.now) }
    {
        let taken = self.first_taken(labels);
        self.block_names(labels)?;
        self.number(item, taken)
    }

    /// A loop, with the label of its block.
    fn loop_construct(&mut self, item: &'a Item, body: &'a Item) -> Result<(), AllocError>
        ensures { IfOk result (λ done. opened_of self.new ≡ with_construct (opened_of self.old) item.now (body_labels (out-Item body.now))) }
    {
        let mut labels = Vec::new(self.alloc);
        if let Item::GenerateBlock(_, Some(label), _) = body {
            labels.push(Lent::of(label))?;
        }
        self.construct(item, labels.as_slice())
    }

    /// A condition, with the labels of its blocks.
    fn condition_construct(&mut self, item: &'a Item) -> Result<(), AllocError>
        ensures { IfOk result (λ done. opened_of self.new ≡ with_construct (opened_of self.old) item.now (merged [] (labels_of item.now))) }
    {
        let mut labels = Vec::new(self.alloc);
        add_labels(&mut labels, item)?;
        self.construct(item, labels.as_slice())
    }

    /// Opens one item.
    #[cycle(items)]
    #[tactic(auto, using(crate::proofs::ItemLemmas::plain_opens, crate::proofs::ItemLemmas::region_opens, crate::proofs::ItemLemmas::loop_opens, crate::proofs::ItemLemmas::condition_opens, crate::proofs::ItemLemmas::block_opens, crate::proofs::ItemLemmas::null_opens))]
    fn open_item(
        &mut self,
        head: &Head<'a>,
        outside: &Scope,
        item: &'a Item,
    ) -> Result<(), AllocError>
        ensures { IfOk result (λ done. (more : List Part) (last : Opened) → Opens head.now (names_of outside.now) (opened_of self.new) more last → Opens head.now (names_of outside.now) (opened_of self.old) (item.now ∷ more) last) }
    {
        match item {
            Item::Plain(plain) => self.declare(head, outside, plain.get()),
            Item::GenerateRegion(_, items) => self.open_items(head, outside, items.as_slice()),
            Item::LoopGenerate(_, body) => self.loop_construct(item, body.get()),
            Item::IfGenerate(..) => self.condition_construct(item),
            Item::GenerateBlock(..) | Item::NullGenerate(_) => Ok(()),
        }
    }

    /// Opens the items of a scope, one after the other. The values that `head` gives are read in `outside`.
    #[cycle(items)]
    pub fn open_items(
        &mut self,
        head: &Head<'a>,
        outside: &Scope,
        items: &'a [Item],
    ) -> Result<(), AllocError>
        ensures { IfOk result (λ done. Opens head.now (names_of outside.now) (opened_of self.old) items.now (opened_of self.new)) }
    {
        for item in items {
            self.open_item(head, outside, item)?;
        }
        Ok(())
    }
}
