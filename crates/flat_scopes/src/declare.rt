//! Declarations of nets, variables and ports (IEEE 1364-2005, 4.2 and 12.3).
ghost use Rattle.std.specs.Prelude.{◌<◌, ◌≡◌, ◌++◌, length, slice_get, IfOk, Some};
ghost use Rattle.flat_scopes.specs.Views.{opened_of};
ghost use Rattle.flat_scopes.specs.Openings.{new_signal as with_signal, same_signal as with_same, again_port as with_again_port, again_data as with_again_data, port_name as with_port, data_name as with_data, initial as with_initial, refused_range, refused_type, type_of, vector_type, bits_or_one, port_names as with_ports, data_names as with_all_data};
ghost use Rattle.flat_scopes.specs.Ranges.{bits_of_range};
ghost use Rattle.flat_scopes.specs.declared.signal.Signal.{Signal as Declared};

use crate::lent::Lent;
use crate::opening::{Head, Opening, Step, set_name};
use crate::range::{VectorBits, range_bits};
use crate::refusal::Refusal;
use crate::signal::{Signal, What};
use mcy_base::Text;
use std::alloc::{AllocError, Global};
use vlog_meaning::Decl;
use vlog_syntax::{DataType, DeclaredName, Direction, Identifier, Range};

/// A type: its bits, and what a declaration says beside them.
#[derive(Clone, Copy)]
pub(crate) struct Typed {
    pub(crate) bits: VectorBits,
    pub(crate) is_signed: bool,
    /// Whether it is `reg` or `integer`.
    pub(crate) has_type: bool,
    pub(crate) is_wire: bool,
}

/// A name behind the prefix of its scope.
fn joined(alloc: Global, prefix: &str, name: &str) -> Result<Text, AllocError>
    ensures { IfOk result (λ text. text ≡ prefix.now ++ name.now) }
{
    let text = format!(in alloc; "{prefix}{name}")?;
    Ok(Text::from_string(text))
}

impl<'a> Opening<'a> {
    /// The bits of a range. One that is refused reads as one bit.
    pub(crate) fn range(&mut self, range: &Option<Range>) -> Result<VectorBits, AllocError>
        ensures opens { IfOk result (λ bits. opened_of self.new ≡ refused_range (opened_of self.old) (bits_of_range (opened_of self.old).names range.now)) }
        ensures bits { IfOk result (λ bits. bits ≡ bits_or_one (bits_of_range (opened_of self.old).names range.now)) }
    {
        match range_bits(range, &self.scope) {
            Ok(bits) => Ok(bits),
            Err(error) => {
                self.refuse(Refusal::Range(error))?;
                Ok(VectorBits { width: 1, low: 0 })
            }
        }
    }

    /// The type of a declaration.
    pub(crate) fn typed(&mut self, data_type: &DataType) -> Result<Typed, AllocError>
        ensures opens { IfOk result (λ t. opened_of self.new ≡ refused_type (opened_of self.old) data_type.now) }
        ensures typed { IfOk result (λ t. t ≡ type_of (opened_of self.old).names data_type.now) }
    {
        let (vector, is_wire) = match data_type {
            DataType::Wire(vector) => (vector, true),
            DataType::Reg(vector) => (vector, false),
            DataType::Integer => {
                return Ok(Typed {
                    bits: VectorBits { width: 32, low: 0 },
                    is_signed: true,
                    has_type: true,
                    is_wire: false,
                });
            }
        };
        Ok(Typed {
            bits: self.range(&vector.range)?,
            is_signed: vector.is_signed,
            has_type: !is_wire,
            is_wire,
        })
    }

    /// A new signal, with the next number.
    fn new_signal(
        &mut self,
        prefix: &str,
        name: &Identifier,
        typed: Typed,
        direction: Option<Direction>,
        has_type: bool,
    ) -> Result<(), AllocError>
        ensures { IfOk result (λ done. opened_of self.new ≡ with_signal prefix.now (opened_of self.old) name.now typed direction has_type) }
    {
        let Ok(number) = u32::try_from(self.signals.len()) else {
            return Err(AllocError);
        };
        let decl = Decl::Signal {
            width: typed.bits.width,
            low: typed.bits.low,
            is_signed: typed.is_signed,
            number,
        };
        self.own_name(name.name.as_str(), What::Variable(number), Some(decl))?;
        let name_text = joined(self.alloc, prefix, name.name.as_str())?;
        self.signals.push(Signal {
            name: name_text,
            span: name.span,
            bits: typed.bits,
            is_signed: typed.is_signed,
            direction,
            has_type,
        })?;
        self.step(Step::Declares(number))
    }

    /// A port's second declaration: it has the same bits, and is signed where either says so.
    fn same_signal(
        &mut self,
        name: &str,
        number: u32,
        typed: Typed,
        direction: Option<Direction>,
        has_type: bool,
    ) -> Result<(), AllocError>
        requires { number < length self.old.signals.items }
        ensures { IfOk result (λ done. (g : Declared) → slice_get (opened_of self.old).signals number ≡ Some g → opened_of self.new ≡ with_same (opened_of self.old) name.now number g typed direction has_type) }
    {
        let signal = &mut self.signals[number as usize];
        signal.is_signed = signal.is_signed || typed.is_signed;
        signal.direction = direction;
        signal.has_type = has_type;
        let decl = Decl::Signal {
            width: signal.bits.width,
            low: signal.bits.low,
            is_signed: signal.is_signed,
            number,
        };
        set_name(&mut self.scope, name, Some(decl))
    }

    /// A port of a net or variable that an item declared.
    fn again_port(
        &mut self,
        name: &Identifier,
        number: u32,
        typed: Typed,
        direction: Direction,
    ) -> Result<(), AllocError>
        ensures { IfOk result (λ done. opened_of self.new ≡ with_again_port (opened_of self.old) name.now number (slice_get (opened_of self.old).signals number) typed direction) }
    {
        if let Some(signal) = self.signals.get(number as usize)
            && signal.direction.is_none()
            && signal.bits.width == typed.bits.width
            && signal.bits.low == typed.bits.low
            && !typed.has_type
        {
            let has_type = signal.has_type;
            return self.same_signal(name.name.as_str(), number, typed, Some(direction), has_type);
        }
        self.refuse(Refusal::Twice(name.span))
    }

    /// A net or variable that a port declaration declared.
    fn again_data(&mut self, name: &Identifier, number: u32, typed: Typed) -> Result<(), AllocError>
        ensures { IfOk result (λ done. opened_of self.new ≡ with_again_data (opened_of self.old) name.now number (slice_get (opened_of self.old).signals number) typed) }
    {
        if let Some(signal) = self.signals.get(number as usize)
            && signal.direction.is_some()
            && signal.bits.width == typed.bits.width
            && signal.bits.low == typed.bits.low
            && !signal.has_type
        {
            let direction = signal.direction;
            return self.same_signal(name.name.as_str(), number, typed, direction, true);
        }
        self.refuse(Refusal::Twice(name.span))
    }

    /// A name of a port declaration.
    fn port_name(
        &mut self,
        head: &Head<'a>,
        id: &Identifier,
        typed: Typed,
        direction: Direction,
    ) -> Result<(), AllocError>
        ensures { IfOk result (λ done. opened_of self.new ≡ with_port head.now (opened_of self.old) id.now typed direction) }
    {
        if !head.ports.has(id.name.as_str()) {
            return self.refuse(Refusal::Unknown(id.span));
        }
        match self.what(id.name.as_str()) {
            None => self.new_signal(
                head.prefix.as_str(),
                id,
                typed,
                Some(direction),
                typed.has_type,
            ),
            Some(What::Variable(number)) => self.again_port(id, number, typed, direction),
            Some(_) => self.refuse(Refusal::Twice(id.span)),
        }
    }

    /// A name of a net or variable declaration.
    fn data_name(
        &mut self,
        head: &Head<'a>,
        id: &Identifier,
        typed: Typed,
    ) -> Result<(), AllocError>
        ensures { IfOk result (λ done. opened_of self.new ≡ with_data head.now (opened_of self.old) id.now typed ((opened_of self.old).own id.now.name)) }
    {
        match self.what(id.name.as_str()) {
            None => self.new_signal(head.prefix.as_str(), id, typed, None, true),
            Some(What::Variable(number)) => self.again_data(id, number, typed),
            Some(_) => self.refuse(Refusal::Twice(id.span)),
        }
    }

    /// An initial value: an assignment to a net, and a start value of a variable.
    fn initial(&mut self, name: &'a DeclaredName, typed: Typed) -> Result<(), AllocError>
        ensures { IfOk result (λ done. opened_of self.new ≡ with_initial (opened_of self.old) typed name.now name.now.initial) }
    {
        let Some(value) = &name.initial else {
            return Ok(());
        };
        if typed.is_wire {
            return self.step(Step::Drives(Lent::of(&name.name), Lent::of(value.get())));
        }
        match self.what(name.name.name.as_str()) {
            Some(What::Variable(number)) => self.step(Step::Starts(number, Lent::of(value.get()))),
            _ => Ok(()),
        }
    }

    /// Ports of one direction and type.
    pub(crate) fn port_names(
        &mut self,
        head: &Head<'a>,
        names: &'a [DeclaredName],
        typed: Typed,
        direction: Direction,
    ) -> Result<(), AllocError>
        ensures { IfOk result (λ done. opened_of self.new ≡ with_ports head.now (opened_of self.old) typed direction names.now) }
    {
        for name in names {
            self.port_name(head, &name.name, typed, direction)?;
            self.initial(name, typed)?;
        }
        Ok(())
    }

    /// Nets or variables of one type.
    pub(crate) fn data_names(
        &mut self,
        head: &Head<'a>,
        names: &'a [DeclaredName],
        typed: Typed,
    ) -> Result<(), AllocError>
        ensures { IfOk result (λ done. opened_of self.new ≡ with_all_data head.now (opened_of self.old) typed names.now) }
    {
        for name in names {
            self.data_name(head, &name.name, typed)?;
            self.initial(name, typed)?;
        }
        Ok(())
    }
}
