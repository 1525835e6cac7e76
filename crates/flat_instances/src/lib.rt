//! Instances of modules: the values that they give, their connections, and what they list (IEEE 1364-2005, 12.1 to 12.3).
//!
//! `giving` pairs the values that an instance gives with the parameters of its module, and finds the first by place of what is
//! wrong in them; `wired` has the names of the ports that connections connect, and `joint` says which flattened items they are:
//! an input that gets a value or is open, a left side that gets the value of an output, or a refusal. `instance` opens the module
//! of one instance behind the signals so far. A scope that was opened is kept as a place, with a number.
//!
//! In its specs, `Gifts` has the values, `Wires` what connections list, `Instances` one instance, and `Places` what a place is;
//! `Views` says what the code's lists stand for.
#![tactic(auto)]

mod error;
mod giving;
mod instance;
mod item;
mod joint;
mod left;
mod place;
mod wired;

pub use error::{ItemError, ParameterError};
pub use giving::{Giving, first_fault, give_values, parameters_of};
pub use instance::{Entered, inner_prefix, open_instance};
pub use item::FlatItem;
pub use joint::{Joint, connect};
pub use left::is_left;
pub use place::Place;
