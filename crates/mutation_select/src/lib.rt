//! Which sites become mutations: those that come first by the words of a seeded generator.
//!
//! For each site a word of `rand_pcg`'s `Lcg128Xsl64` is drawn (`Draws`), and those become mutations before which fewer than the
//! wanted number come (`Selection`). `first` partitions the draws about the one at the wanted place, without sorting them, and
//! sorts the numbers in front of it. Before that `kept` leaves out the sites that do not count, and for an even pick `even` sorts
//! the sites by line and by what they draw, and ranks them in one walk.
//!
//! In its proofs, `Counts` has how many elements pass a test, `Ascending` that a list in order is known by what stands in it,
//! `Order` sorted lists whose elements have numbers of their own, `Ranks` the walk, `Firsts` the partition, and `Within` that no
//! more are taken than asked for.
#![tactic(auto)]

mod draw;
mod even;
mod first;
mod kept;
mod laws;
mod pick;
mod selection;
mod words;

pub use draw::Draw;
pub use laws::selections_are_few;
pub use pick::Pick;
pub use selection::select;
pub use words::Drawn;
