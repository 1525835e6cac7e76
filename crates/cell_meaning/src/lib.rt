//! What cells mean: the value that each kind has, from the words at its input ports.
#![tactic(auto)]

mod arithmetic;
mod bitwise;
mod choices;
mod low;
mod reductions;
mod relations;
mod shifts;
mod value;

pub use value::{cell_value, number_of_one, number_of_three, number_of_two};
