//! Parts of declarations.
ghost use Rattle.std.specs.Prelude.{◌≡◌, true};
ghost use Rattle.vlog_parts.specs.Sorts.{is_vector, is_declared, is_parameter_type, is_parameter, is_output_names};
ghost use Rattle.vlog_parts.specs.Numbered.{first, rest};
ghost use Rattle.vlog_parts.specs.Values.{vector_of, declared_of, declareds_of, parameter_type_of, parameter_of, parameters_of, output_names_of, range_of};

use crate::stack::Stack;
use crate::value::Value;
use std::alloc::Global;
use vlog_syntax::{DataType, DeclaredName, ParameterAssignment, ParameterType, Range, VectorType};

/// Outputs of one type.
#[derive(Drop)]
pub struct OutputNames {
    pub data_type: DataType,
    pub names: Stack<DeclaredName>,
}

impl Stack<Value<'_>> {
    /// The next part, the type of a vector.
    #[tactic(auto, using(crate::proofs::Sorts::only_vector))]
    pub fn vector(&mut self) -> VectorType
        requires { is_vector (first self.old) ≡ true }
        ensures value { result ≡ vector_of (first self.old) }
        ensures rest { self.new ≡ rest self.old }
    {
        match self.next() {
            Value::Vector(vector) => vector,
            _ => unreachable!(),
        }
    }

    /// The next part, a declared name.
    #[tactic(auto, using(crate::proofs::Sorts::only_declared))]
    pub fn declared(&mut self) -> DeclaredName
        requires { is_declared (first self.old) ≡ true }
        ensures value { result ≡ declared_of (first self.old) }
        ensures rest { self.new ≡ rest self.old }
    {
        match self.next() {
            Value::DeclaredName(declared) => declared,
            _ => unreachable!(),
        }
    }

    /// The next part, declared names.
    #[tactic(auto, using(crate::proofs::Sorts::not_declareds))]
    pub fn declareds(&mut self, alloc: Global) -> Stack<DeclaredName>
        ensures value { result ≡ declareds_of (first self.old) }
        ensures rest { self.new ≡ rest self.old }
    {
        match self.next() {
            Value::DeclaredNames(declareds) => declareds,
            other => {
                drop(other);
                Stack::new(alloc)
            }
        }
    }

    /// The next part, the type of a parameter.
    #[tactic(auto, using(crate::proofs::Sorts::only_parameter_type))]
    pub fn parameter_type(&mut self) -> ParameterType
        requires { is_parameter_type (first self.old) ≡ true }
        ensures value { result ≡ parameter_type_of (first self.old) }
        ensures rest { self.new ≡ rest self.old }
    {
        match self.next() {
            Value::ParameterType(parameter_type) => parameter_type,
            _ => unreachable!(),
        }
    }

    /// The next part, a parameter.
    #[tactic(auto, using(crate::proofs::Sorts::only_parameter))]
    pub fn parameter(&mut self) -> ParameterAssignment
        requires { is_parameter (first self.old) ≡ true }
        ensures value { result ≡ parameter_of (first self.old) }
        ensures rest { self.new ≡ rest self.old }
    {
        match self.next() {
            Value::Parameter(parameter) => parameter,
            _ => unreachable!(),
        }
    }

    /// The next part, parameters.
    #[tactic(auto, using(crate::proofs::Sorts::not_parameters))]
    pub fn parameters(&mut self, alloc: Global) -> Stack<ParameterAssignment>
        ensures value { result ≡ parameters_of (first self.old) }
        ensures rest { self.new ≡ rest self.old }
    {
        match self.next() {
            Value::Parameters(parameters) => parameters,
            other => {
                drop(other);
                Stack::new(alloc)
            }
        }
    }

    /// The next part, outputs of one type.
    #[tactic(auto, using(crate::proofs::Sorts::only_output_names))]
    pub fn output_names(&mut self) -> OutputNames
        requires { is_output_names (first self.old) ≡ true }
        ensures value { result ≡ output_names_of (first self.old) }
        ensures rest { self.new ≡ rest self.old }
    {
        match self.next() {
            Value::OutputNames(output_names) => output_names.into_inner(),
            _ => unreachable!(),
        }
    }

    /// The next part, a range where there is one.
    #[tactic(auto, using(crate::proofs::Sorts::not_range))]
    pub fn range(&mut self) -> Option<Range>
        ensures value { result ≡ range_of (first self.old) }
        ensures rest { self.new ≡ rest self.old }
    {
        match self.next() {
            Value::Range(range) => Some(range),
            other => {
                drop(other);
                None
            }
        }
    }
}
