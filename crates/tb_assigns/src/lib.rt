//! The updates that an assignment of a testbench brings.
//!
//! `left_side` goes through the parts of a left side from the left and keeps of each a `Piece`: a signal, and from which declared
//! number on how many bits are written, with the index as it is in this evaluation. `writing` goes through the pieces from the
//! right end and cuts the value up; `clip` leaves out what of a piece lies outside its signal. In its proofs `Drawing` has the
//! pieces of parts one after the other, `LastFirst` that the last piece is written first, `Fitting` that updates fit, and
//! `Checked` that sides with shapes can be carried out where the names on the left are signals, which `check` finds out. Whether
//! updates apply at once or after all processes is `tb_machine`'s.
#![tactic(auto)]

mod assignment;
mod check;
mod clip;
mod laws;
mod left_side;
mod piece;
mod writing;

pub use assignment::{context_of, updates};
pub use check::can_assign;
pub use clip::{Clip, clip_of};
pub use laws::{assignments_fit, whole_sides_suffice};
pub use left_side::left_width;
pub use piece::{Piece, Vector, range_piece, vector_of, whole_piece};
pub use writing::update_of;
