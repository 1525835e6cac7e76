//! The ports of a row: what their bits are, and what these are worth. After a `:` the bits are free, after a `=` they are constants, and
//! after a `~` they are the bits of the port before, as far as it has any.
use anyhow::{Context, Result};
use gate_list::GateLit;
use std::alloc::Global;

/// What the bits at a port are.
#[derive(Clone, Copy, PartialEq, Eq)]
enum Mark {
    /// Free bits.
    Free,
    /// Constants.
    Fixed,
    /// The bits of the port before, as far as it has any.
    Same,
}

/// A port of a row: its width, and the number that its bits have.
#[derive(Drop)]
pub(crate) struct Given {
    pub(crate) width: u8,
    mark: Mark,
    number: u128,
}

/// The port whose parts are these.
fn with_number(mark: Mark, width: &str, number: &str) -> Option<Given> {
    Some(Given {
        width: width.parse::<u8>().ok()?,
        mark,
        number: number.parse::<u128>().ok()?,
    })
}

/// The port that a text such as `8:255` gives.
pub(crate) fn given_of(text: &str) -> Option<Given> {
    if let Some((width, number)) = text.split_once(':') {
        return with_number(Mark::Free, width, number);
    }
    if let Some((width, number)) = text.split_once('=') {
        return with_number(Mark::Fixed, width, number);
    }
    let (width, number) = text.split_once('~')?;
    with_number(Mark::Same, width, number)
}

impl Given {
    /// The literal of a bit at a place of the port. The value of a free bit is added at the end of the values so far.
    fn literal(
        &self,
        bit: bool,
        place: usize,
        before: &[GateLit],
        values: &mut Vec<bool>,
    ) -> Result<GateLit> {
        match self.mark {
            Mark::Fixed => Ok(GateLit::Fixed(bit)),
            Mark::Same => Ok(before.get(place).copied().unwrap_or(GateLit::Fixed(false))),
            Mark::Free => {
                values.push(bit)?;
                let number = i32::try_from(values.len()).ok().context("too many bits")?;
                Ok(GateLit::Var(number))
            }
        }
    }

    /// The literals at the port, by those at the port before.
    pub(crate) fn literals(
        &self,
        alloc: Global,
        before: &[GateLit],
        values: &mut Vec<bool>,
    ) -> Result<Vec<GateLit>> {
        let mut literals = Vec::new(alloc);
        let mut rest = self.number;
        for place in 0..self.width {
            let bit = rest % 2 == 1;
            rest /= 2;
            literals.push(self.literal(bit, usize::from(place), before, values)?)?;
        }
        Ok(literals)
    }
}
