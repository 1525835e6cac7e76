//! The parameters of a scope (IEEE 1364-2005, 4.10 and 12.2).
ghost use Rattle.std.specs.Prelude.{◌≡◌, ◌≤◌, true, IfOk};
ghost use Rattle.std.specs.Option.{option_map};
ghost use Rattle.vlog_meaning.specs.Answers.{least, refusal, const_error};
ghost use Rattle.vlog_meaning.specs.declared.scope.Decl.TheVariants.{Constant};
ghost use Rattle.vlog_meaning.specs.Scopes.{names_of};
ghost use Rattle.vlog_meaning.specs.Senses.{sense};
ghost use Rattle.flat_scopes.specs.Openings.{refused_range};
ghost use Rattle.flat_scopes.specs.Parameters.{parameter_faults, HasBits};
ghost use Rattle.flat_scopes.specs.Ranges.{bits_of_range};
ghost use Rattle.flat_scopes.specs.Valued.{vector_bits as bits_of_vector, parameter_bits as bits_of_type, refused_bits, given_value as value_given, given_for as given_to, value_sense, value_fault as fault_step, declared_as, zero_as, constant_name as with_constant, parameter_name as with_parameter, parameters as with_parameters};
ghost use Rattle.flat_scopes.specs.Views.{opened_of};
ghost use Rattle.flat_scopes.specs.Words.{word};

use crate::lent::Lent;
use crate::opening::{Given, Head, Opening, Step};
use crate::parameter::{ParameterBits, parameter_decl};
use crate::range::{VectorBits, range_bits};
use crate::refusal::Refusal;
use crate::signal::What;
use mcy_base::Word;
use std::alloc::AllocError;
use vlog_meaning::{ConstError, Decl, Scope};
use vlog_syntax::{
    Expr, Identifier, ParameterAssignment, ParameterDeclaration, ParameterKind, ParameterType,
    VectorType,
};

/// The bits of an `integer`.
const INTEGER: VectorBits = VectorBits { width: 32, low: 0 };

/// The value that an instance gives the parameter of this name.
fn given_value<'a>(given: &[Given<'a>], name: &str) -> Option<Lent<'a, Expr>>
    ensures { result ≡ value_given given.now name.now }
{
    for one in given {
        if one.name.get().name.as_str() == name {
            return Some(Lent::of(one.value.get()));
        }
    }
    None
}

/// The value that an instance gives a parameter, and to a local one none.
fn given_for<'a>(kind: ParameterKind, given: &[Given<'a>], name: &str) -> Option<Lent<'a, Expr>>
    ensures { result ≡ given_to kind given.now name.now }
{
    match kind {
        ParameterKind::Parameter => given_value(given, name),
        ParameterKind::Localparam => None,
    }
}

/// The word 0.
#[tactic(auto, using(crate::proofs::Valued::word_is))]
fn zero_word(width: u8) -> Word
    requires some { 1 ≤ width }
    requires narrow { width ≤ 128 }
    ensures { result ≡ word width 0 }
{
    Word::new(width, 0).unwrap()
}

/// The word of 32 bits.
#[tactic(auto, using(crate::proofs::Valued::word_is))]
fn integer_word(value: u32) -> Word
    ensures { result ≡ word 32 value }
{
    Word::new(32, value as u128).unwrap()
}

/// What a loop's variable is declared as in a turn: a signed number of 32 bits (IEEE 1364-2005, 12.4.1).
pub fn turn_decl(value: u32) -> Decl
    ensures { result ≡ Constant (word 32 value) 0 true }
{
    Decl::Constant {
        value: integer_word(value),
        low: 0,
        is_signed: true,
    }
}

/// What a parameter whose value is refused is declared as.
fn zero_decl(bits: ParameterBits) -> Decl
    requires { HasBits bits }
    ensures { result ≡ zero_as bits }
{
    match bits {
        ParameterBits::OfValue(_) => Decl::Constant {
            value: zero_word(32),
            low: 0,
            is_signed: true,
        },
        ParameterBits::OfRange(bits, is_signed) => Decl::Constant {
            value: zero_word(bits.width),
            low: bits.low,
            is_signed,
        },
    }
}

/// What a parameter with this value is declared as.
#[tactic(auto, using(crate::proofs::Valued::declared_is))]
fn decl_of(bits: ParameterBits, value: &Expr, scope: &Scope) -> Result<Decl, ConstError>
    requires { HasBits bits }
    ensures refused { refusal result ≡ option_map const_error (least (parameter_faults bits (sense (names_of scope.now) value.now))) }
    ensures declared { IfOk result (λ decl. decl ≡ declared_as bits (sense (names_of scope.now) value.now)) }
{
    parameter_decl(bits, value, scope)
}

/// Lists why a value is refused.
fn value_fault<'a>(given: &Option<Lent<'a, Expr>>, error: ConstError) -> Step<'a>
    ensures { result ≡ fault_step given.now error }
{
    match given {
        Some(_) => Step::RefusesGiven(error),
        None => Step::Refuses(Refusal::Value(error)),
    }
}

impl<'a> Opening<'a> {
    /// The bits of a parameter whose type is a vector's.
    fn vector_bits(&mut self, vector: &VectorType) -> Result<ParameterBits, AllocError>
        ensures opens { IfOk result (λ bits. opened_of self.new ≡ refused_range (opened_of self.old) (bits_of_range (opened_of self.old).names vector.now.range)) }
        ensures bits { IfOk result (λ bits. bits ≡ bits_of_vector (opened_of self.old).names vector.now.range vector.now.is_signed) }
        ensures some { IfOk result (λ bits. HasBits bits) }
    {
        if vector.range.is_none() {
            return Ok(ParameterBits::OfValue(vector.is_signed));
        }
        match range_bits(&vector.range, &self.scope) {
            Ok(bits) => Ok(ParameterBits::OfRange(bits, vector.is_signed)),
            Err(error) => {
                self.refuse(Refusal::Range(error))?;
                Ok(ParameterBits::OfValue(vector.is_signed))
            }
        }
    }

    /// The bits of a parameter.
    fn parameter_bits(&mut self, data_type: &ParameterType) -> Result<ParameterBits, AllocError>
        ensures opens { IfOk result (λ bits. opened_of self.new ≡ refused_bits (opened_of self.old) data_type.now) }
        ensures bits { IfOk result (λ bits. bits ≡ bits_of_type (opened_of self.old).names data_type.now) }
        ensures some { IfOk result (λ bits. HasBits bits) }
    {
        match data_type {
            ParameterType::Vector(vector) => self.vector_bits(vector),
            ParameterType::Integer => Ok(ParameterBits::OfRange(INTEGER, true)),
        }
    }

    /// A new constant.
    pub fn constant_name(&mut self, name: &Identifier, decl: Decl) -> Result<(), AllocError>
        ensures { IfOk result (λ done. opened_of self.new ≡ with_constant (opened_of self.old) name.now decl ((opened_of self.old).own name.now.name)) }
    {
        if self.what(name.name.as_str()).is_some() {
            return self.refuse(Refusal::Twice(name.span));
        }
        self.own_name(name.name.as_str(), What::Constant, Some(decl))
    }

    /// What a parameter is declared as. A value that an instance gives is read outside.
    fn value_decl(
        &self,
        outside: &Scope,
        bits: ParameterBits,
        given: &Option<Lent<'a, Expr>>,
        value: &Expr,
    ) -> Result<Decl, ConstError>
        requires { HasBits bits }
        ensures refused { refusal result ≡ option_map const_error (least (parameter_faults bits (value_sense (names_of outside.now) (opened_of self.now).names given.now value.now))) }
        ensures declared { IfOk result (λ decl. decl ≡ declared_as bits (value_sense (names_of outside.now) (opened_of self.now).names given.now value.now)) }
    {
        match given {
            Some(given) => decl_of(bits, given.get(), outside),
            None => decl_of(bits, value, &self.scope),
        }
    }

    /// A parameter with its value. One that is refused reads as 0.
    #[tactic(auto, using(crate::proofs::Valued::value_stands, crate::proofs::Valued::value_fails))]
    fn parameter_name(
        &mut self,
        head: &Head<'a>,
        outside: &Scope,
        kind: ParameterKind,
        bits: ParameterBits,
        assignment: &ParameterAssignment,
    ) -> Result<(), AllocError>
        requires { HasBits bits }
        ensures { IfOk result (λ done. opened_of self.new ≡ with_parameter head.now (names_of outside.now) (opened_of self.old) kind bits assignment.now) }
    {
        let name = &assignment.name;
        let given = given_for(kind, head.given.as_slice(), name.name.as_str());
        match self.value_decl(outside, bits, &given, assignment.value.get()) {
            Ok(decl) => self.constant_name(name, decl),
            Err(error) => {
                self.constant_name(name, zero_decl(bits))?;
                self.step(value_fault(&given, error))
            }
        }
    }

    /// Parameters of one type.
    pub(crate) fn parameters(
        &mut self,
        head: &Head<'a>,
        outside: &Scope,
        declaration: &ParameterDeclaration,
    ) -> Result<(), AllocError>
        ensures { IfOk result (λ done. opened_of self.new ≡ with_parameters head.now (names_of outside.now) (opened_of self.old) declaration.now) }
    {
        let bits = self.parameter_bits(&declaration.data_type)?;
        for assignment in declaration.assignments.as_slice() {
            self.parameter_name(head, outside, declaration.kind, bits, assignment)?;
        }
        Ok(())
    }
}
