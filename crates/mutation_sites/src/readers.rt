//! Who reads a mutated bit in place of the unmutated one, and what changes for each reader.
ghost use Rattle.std.specs.Prelude.{◌≡◌, [], ◌<◌, length, slice_index_or};
ghost use Rattle.netlist_core.specs.Runs.{Port, Next, Outputs};
ghost use Rattle.mutation_sites.specs.Mutants.{change_of, readers_of_bit};

use netlist_core::Bit;

/// Who reads the mutated bit.
#[derive(Clone, Copy)]
pub(crate) enum Readers {
    /// Nobody.
    Nobody,
    /// A cell, at a bit of an input port.
    OfPort { cell: u32, port: u8, bit: u8 },
    /// A register, at a bit of its D.
    OfNext { register: u32, bit: u8 },
    /// All readers of a net.
    OfNet(u32),
}

/// What changes for a reader.
#[derive(Clone, Copy)]
pub(crate) enum Change {
    Nothing,
    /// It reads the mutated bit at this bit of its bits.
    AtBit(u8),
    /// It reads the mutated bit in place of this net.
    AtNet(u32),
}

impl Readers {
    /// The readers of the bit of a Y or a Q.
    pub(crate) fn of_bit(bit: Bit) -> Readers
        ensures { result ≡ readers_of_bit bit }
    {
        match bit {
            Bit::Fixed(_) => Readers::Nobody,
            Bit::Net(n) => Readers::OfNet(n),
        }
    }

    /// What changes for an input port of a cell.
    pub(crate) fn at_port(self, number: u32, place: u8) -> Change
        ensures { result ≡ change_of self (Port number place) }
    {
        match self {
            Readers::OfPort { cell, port, bit } if cell == number && port == place => {
                Change::AtBit(bit)
            }
            Readers::OfNet(n) => Change::AtNet(n),
            Readers::Nobody | Readers::OfPort { .. } | Readers::OfNext { .. } => Change::Nothing,
        }
    }

    /// What changes for a register.
    pub(crate) fn at_next(self, number: u32) -> Change
        ensures { result ≡ change_of self (Next number) }
    {
        match self {
            Readers::OfNext { register, bit } if register == number => Change::AtBit(bit),
            Readers::OfNet(n) => Change::AtNet(n),
            Readers::Nobody | Readers::OfPort { .. } | Readers::OfNext { .. } => Change::Nothing,
        }
    }

    /// What changes for the outputs.
    pub(crate) fn at_outputs(self) -> Change
        ensures { result ≡ change_of self Outputs }
    {
        match self {
            Readers::OfNet(n) => Change::AtNet(n),
            Readers::Nobody | Readers::OfPort { .. } | Readers::OfNext { .. } => Change::Nothing,
        }
    }
}
