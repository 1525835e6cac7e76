//! Flattened items: what the instances and generate constructs of a design stand for (IEEE 1364-2005, 12.1 to 12.4).
//!
//! `walk` keeps what is left to be replaced in a queue and replaces the first part until none is left, so that neither the depth
//! of the hierarchy nor the length of the list is on the stack: `placing` an instance, `generate` a condition or the start of a
//! loop, `block` what a condition chose, `turn` a turn, `flat` all else. `numbers` has the modules by their names, so that no
//! instance looks at all modules. `Flattened` and `Replacing` say what each part is replaced by, and `Numbers` what the map of
//! the modules' names stands for. `scope` and `top` are for those who read the answer: `Tops` says what they look up.
#![tactic(auto)]

mod block;
mod constants;
mod flat;
mod generate;
mod names;
mod numbers;
mod placing;
mod scope;
mod task;
mod top;
mod turn;
mod walk;

pub use flat::Flat;
pub use task::{Task, Turn};
pub use top::top_of;
pub use walk::{FlattenError, flatten};
