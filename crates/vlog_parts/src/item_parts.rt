//! Parts of items.
ghost use Rattle.std.specs.Prelude.{◌≡◌, true};
ghost use Rattle.vlog_parts.specs.Sorts.{is_assignment, is_connection, is_ports, is_instance, is_item};
ghost use Rattle.vlog_parts.specs.Numbered.{first, rest};
ghost use Rattle.vlog_parts.specs.Values.{assignment_of, assignments_of, parameter_values_of, connection_of, connections_of, ordered_of, ports_of, instance_of, instances_of, item_of, items_of, delay_of, option_item_of};

use crate::stack::Stack;
use crate::value::Value;
use std::alloc::Global;
use vlog_syntax::{
    Assignment, Boxed, Connections, Delay, Expr, Instance, Item, Listed, NamedConnection,
    ParameterValues,
};

impl Stack<Value<'_>> {
    /// The next part, an assignment.
    #[tactic(auto, using(crate::proofs::Sorts::only_assignment))]
    pub fn assignment(&mut self) -> Assignment
        requires { is_assignment (first self.old) ≡ true }
        ensures value { result ≡ assignment_of (first self.old) }
        ensures rest { self.new ≡ rest self.old }
    {
        match self.next() {
            Value::Assignment(assignment) => assignment.into_inner(),
            _ => unreachable!(),
        }
    }

    /// The next part, assignments.
    #[tactic(auto, using(crate::proofs::Sorts::not_assignments))]
    pub fn assignments(&mut self, alloc: Global) -> Stack<Assignment>
        ensures value { result ≡ assignments_of (first self.old) }
        ensures rest { self.new ≡ rest self.old }
    {
        match self.next() {
            Value::Assignments(assignments) => assignments,
            other => {
                drop(other);
                Stack::new(alloc)
            }
        }
    }

    /// The next part, the parameters of an instance.
    #[tactic(auto, using(crate::proofs::Sorts::not_parameter_values))]
    pub fn parameter_values(&mut self, alloc: Global) -> ParameterValues
        ensures value { result ≡ parameter_values_of (first self.old) }
        ensures rest { self.new ≡ rest self.old }
    {
        match self.next() {
            Value::ParameterValues(parameter_values) => parameter_values,
            other => {
                drop(other);
                ParameterValues::Ordered(Listed::from_vec(Vec::new(alloc)))
            }
        }
    }

    /// The next part, a named connection.
    #[tactic(auto, using(crate::proofs::Sorts::only_connection))]
    pub fn connection(&mut self) -> NamedConnection
        requires { is_connection (first self.old) ≡ true }
        ensures value { result ≡ connection_of (first self.old) }
        ensures rest { self.new ≡ rest self.old }
    {
        match self.next() {
            Value::Connection(connection) => connection,
            _ => unreachable!(),
        }
    }

    /// The next part, named connections.
    #[tactic(auto, using(crate::proofs::Sorts::not_connections))]
    pub fn connections(&mut self, alloc: Global) -> Stack<NamedConnection>
        ensures value { result ≡ connections_of (first self.old) }
        ensures rest { self.new ≡ rest self.old }
    {
        match self.next() {
            Value::NamedConnections(connections) => connections,
            other => {
                drop(other);
                Stack::new(alloc)
            }
        }
    }

    /// The next part, ordered connections.
    #[tactic(auto, using(crate::proofs::Sorts::not_ordered))]
    pub fn ordered(&mut self, alloc: Global) -> Stack<Option<Boxed<Expr>>>
        ensures value { result ≡ ordered_of (first self.old) }
        ensures rest { self.new ≡ rest self.old }
    {
        match self.next() {
            Value::OrderedConnections(ordered) => ordered,
            other => {
                drop(other);
                Stack::new(alloc)
            }
        }
    }

    /// The next part, the ports of an instance.
    #[tactic(auto, using(crate::proofs::Sorts::only_ports))]
    pub fn ports(&mut self) -> Connections
        requires { is_ports (first self.old) ≡ true }
        ensures value { result ≡ ports_of (first self.old) }
        ensures rest { self.new ≡ rest self.old }
    {
        match self.next() {
            Value::Connections(ports) => ports,
            _ => unreachable!(),
        }
    }

    /// The next part, an instance.
    #[tactic(auto, using(crate::proofs::Sorts::only_instance))]
    pub fn instance(&mut self) -> Instance
        requires { is_instance (first self.old) ≡ true }
        ensures value { result ≡ instance_of (first self.old) }
        ensures rest { self.new ≡ rest self.old }
    {
        match self.next() {
            Value::Instance(instance) => instance.into_inner(),
            _ => unreachable!(),
        }
    }

    /// The next part, instances.
    #[tactic(auto, using(crate::proofs::Sorts::not_instances))]
    pub fn instances(&mut self, alloc: Global) -> Stack<Instance>
        ensures value { result ≡ instances_of (first self.old) }
        ensures rest { self.new ≡ rest self.old }
    {
        match self.next() {
            Value::Instances(instances) => instances,
            other => {
                drop(other);
                Stack::new(alloc)
            }
        }
    }

    /// The next part, an item.
    #[tactic(auto, using(crate::proofs::Sorts::only_item))]
    pub fn item(&mut self) -> Boxed<Item>
        requires { is_item (first self.old) ≡ true }
        ensures value { result ≡ item_of (first self.old) }
        ensures rest { self.new ≡ rest self.old }
    {
        match self.next() {
            Value::Item(item) => item,
            _ => unreachable!(),
        }
    }

    /// The next part, items.
    #[tactic(auto, using(crate::proofs::Sorts::not_items))]
    pub fn items(&mut self, alloc: Global) -> Stack<Item>
        ensures value { result ≡ items_of (first self.old) }
        ensures rest { self.new ≡ rest self.old }
    {
        match self.next() {
            Value::Items(items) => items,
            other => {
                drop(other);
                Stack::new(alloc)
            }
        }
    }

    /// The next part, a delay where there is one.
    #[tactic(auto, using(crate::proofs::Sorts::not_delay))]
    pub fn delay(&mut self) -> Option<Delay>
        ensures value { result ≡ delay_of (first self.old) }
        ensures rest { self.new ≡ rest self.old }
    {
        match self.next() {
            Value::Delay(delay) => Some(delay),
            other => {
                drop(other);
                None
            }
        }
    }

    /// The next part, an item where there is one.
    #[tactic(auto, using(crate::proofs::Sorts::not_option_item))]
    pub fn option_item(&mut self) -> Option<Boxed<Item>>
        ensures value { result ≡ option_item_of (first self.old) }
        ensures rest { self.new ≡ rest self.old }
    {
        match self.next() {
            Value::Item(item) => Some(item),
            other => {
                drop(other);
                None
            }
        }
    }
}
