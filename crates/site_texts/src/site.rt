//! What a site text says, and what is wrong in one that is none.
use mcy_base::Text;
use mutation_sites::Mode;

/// The fields of a site text, `MODE TOP cell NAME PORT BIT FILE:LINE`, with `reg` in place of `cell` at a register.
#[derive(Drop)]
pub struct SiteText {
    pub mode: Mode,
    /// The name of the top module.
    pub top: Text,
    /// The site is at a cell; else at a register.
    pub is_cell: bool,
    /// The name of the cell or register.
    pub name: Text,
    pub port: Text,
    /// Counted from 0.
    pub bit: u8,
    /// The control bit, where the mode reads one. It stands behind the bit.
    pub control: Option<u8>,
    pub file: Text,
    /// Counted from 1.
    pub line: u32,
}

/// Why there is no site text.
#[derive(Clone, Copy, Debug, PartialEq, Eq, Drop)]
pub enum SiteTextError {
    /// No site text goes on after this byte, counted from 0; a text that ends too early is bad at its length.
    Bad(u32),
    /// There is no memory for the texts.
    Memory,
}
