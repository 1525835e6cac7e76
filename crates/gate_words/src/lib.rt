//! Words of gates: rows of literals, bit 0 first, and the gates that shift, add, compare and multiply them.
//!
//! Each definition (`Rows`, `Sums`, `Shifts`, `Products`) threads the gates from one bit to the next in the order in which they
//! are made; each call is proved to make just these (`made`). What they are worth is proved of the definitions alone: `AddsBits`
//! of `Bits` says which gates stay, how many are added at most, and what the row is wherever the gates hold. A loop's invariant
//! is that what is left of the definition, from the gates so far, gives the whole (`RowAhead`, `SumAhead`, `ShiftAhead`,
//! `ProductAhead`), so no proof of a loop speaks of values.
#![tactic(auto)]

mod operation;
mod products;
mod rows;
mod shifts;
mod sums;

pub use operation::Operation;
pub use products::product;
pub use rows::{chain, fitted, negated_row, repeated, row};
pub use shifts::{Way, shifted};
pub use sums::{difference, is_equal, is_less, sum};
