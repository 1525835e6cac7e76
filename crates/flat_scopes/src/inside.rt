//! The names of instances and of the blocks of generate constructs (IEEE 1364-2005, 12.1.2 and 12.4.3). One that stands already is no
//! step of its own: it is told with the instance or the construct.
ghost use Rattle.std.specs.Prelude.{◌≡◌, true, IfOk};
ghost use Rattle.flat_scopes.specs.Insides.{inner_name as with_inner, placing as placing_of, placed as with_placed, instances as with_instances, block_names as with_blocks, first_taken};
ghost use Rattle.flat_scopes.specs.Views.{opened_of};

use crate::lent::Lent;
use crate::opening::{Opening, Placing, Step};
use crate::signal::What;
use std::alloc::AllocError;
use vlog_syntax::{Identifier, Instance, ParameterValues};

impl<'a> Opening<'a> {
    /// A name of an instance or a block. Where it stands already, it stays what it is.
    fn inner_name(&mut self, name: &str) -> Result<(), AllocError>
        ensures { IfOk result (λ done. opened_of self.new ≡ with_inner (opened_of self.old) name.now ((opened_of self.old).own name.now)) }
    {
        if self.what(name).is_some() {
            return Ok(());
        }
        self.own_name(name, What::Inside, None)
    }

    /// An instance, with whether its name stands already.
    fn placing(
        &self,
        module_name: &'a Identifier,
        values: &'a ParameterValues,
        is_first: bool,
        instance: &'a Instance,
    ) -> Placing<'a>
        ensures { result ≡ placing_of (opened_of self.now) module_name.now values.now is_first instance.now }
    {
        Placing {
            module_name: Lent::of(module_name),
            values: Lent::of(values),
            instance: Lent::of(instance),
            is_first,
            is_twice: self.what(instance.name.name.as_str()).is_some(),
        }
    }

    /// Lists an instance, whose name is one of the scope.
    fn place(
        &mut self,
        module_name: &'a Identifier,
        values: &'a ParameterValues,
        is_first: bool,
        instance: &'a Instance,
    ) -> Result<(), AllocError>
        ensures { IfOk result (λ done. opened_of self.new ≡ with_placed (opened_of self.old) module_name.now values.now is_first instance.now) }
    {
        let placing = self.placing(module_name, values, is_first, instance);
        self.inner_name(instance.name.name.as_str())?;
        self.step(Step::Places(placing))
    }

    /// The instances of an item.
    pub(crate) fn instances(
        &mut self,
        module_name: &'a Identifier,
        values: &'a ParameterValues,
        instances: &'a [Instance],
    ) -> Result<(), AllocError>
        ensures { IfOk result (λ done. opened_of self.new ≡ with_instances (opened_of self.old) module_name.now values.now true instances.now) }
    {
        let mut is_first = true;
        for instance in instances {
            self.place(module_name, values, is_first, instance)?;
            is_first = false;
        }
        Ok(())
    }

    /// The names of blocks.
    pub(crate) fn block_names(&mut self, labels: &[Lent<'a, Identifier>]) -> Result<(), AllocError>
        ensures { IfOk result (λ done. opened_of self.new ≡ with_blocks (opened_of self.old) labels.now) }
    {
        for label in labels {
            self.inner_name(label.get().name.as_str())?;
        }
        Ok(())
    }

    /// The first of these names that stands already.
    pub(crate) fn first_taken(
        &self,
        labels: &[Lent<'a, Identifier>],
    ) -> Option<Lent<'a, Identifier>>
        ensures { result ≡ first_taken (opened_of self.now) labels.now }
    {
        for label in labels {
            if self.what(label.get().name.as_str()).is_some() {
                return Some(Lent::of(label.get()));
            }
        }
        None
    }
}
