//! How a mutation changes its bit.
ghost use Rattle.std.specs.Prelude.{◌≡◌, length};
ghost use Rattle.mutation_sites.specs.Modes.{is_in, set_at, modes_of, all_modes};

/// How a mutation changes its bit (mode names of Yosys's `mutate`).
#[derive(Clone, Copy, Debug, PartialEq, Eq)]
pub enum Mode {
    /// The bit is inverted.
    Inv,
    /// The bit is 0.
    Const0,
    /// The bit is 1.
    Const1,
    /// The bit is inverted where the control bit is 0.
    Cnot0,
    /// The bit is inverted where the control bit is 1.
    Cnot1,
}

/// The modes in the order in which they stand at a bit.
pub(crate) fn all_modes() -> [Mode; 5]
    ensures { result ≡ all_modes }
{
    [
        Mode::Inv,
        Mode::Const0,
        Mode::Const1,
        Mode::Cnot0,
        Mode::Cnot1,
    ]
}

/// A set of modes: for each mode, whether it is in.
#[derive(Clone, Copy, Debug, PartialEq, Eq)]
pub struct ModeSet {
    pub inv: bool,
    pub const0: bool,
    pub const1: bool,
    pub cnot0: bool,
    pub cnot1: bool,
}

impl ModeSet {
    /// The mode is in the set.
    pub fn contains(self, mode: Mode) -> bool
        ensures { result ≡ is_in self mode }
    {
        match mode {
            Mode::Inv => self.inv,
            Mode::Const0 => self.const0,
            Mode::Const1 => self.const1,
            Mode::Cnot0 => self.cnot0,
            Mode::Cnot1 => self.cnot1,
        }
    }

    /// The modes with sites at a port of this width: one of width 1 has no control bit.
    pub(crate) fn at_width(self, width: usize) -> ModeSet
        ensures { result ≡ set_at self width }
    {
        if width > 1 {
            return self;
        }
        ModeSet {
            cnot0: false,
            cnot1: false,
            ..self
        }
    }

    /// How many modes are in the set.
    pub(crate) fn count(self) -> u64
        ensures { result ≡ length (modes_of self) }
    {
        u64::from(self.inv)
            + u64::from(self.const0)
            + u64::from(self.const1)
            + u64::from(self.cnot0)
            + u64::from(self.cnot1)
    }
}
