//! Scopes: what declarations say, and what the items of a scope declare and list (IEEE 1364-2005, 4, 12.2, 12.3 and 12.4).
//!
//! An `Opening` goes over the items of a module or a generate block, one after the other: it declares their names, numbers the
//! signals of the design, and lists steps, which are what is left to do in the order of the source: signals, refusals, start
//! values, initial values of nets, assigns, processes, instances and generate constructs. Nothing is refused on the way; a
//! refusal is a step at its place.
//!
//! In its specs, `Openings` says what nets, variables, ports and genvars do to a scope, `Valued` what parameters do, `Insides` what
//! instances and labels of blocks do, and `Opens` what the items of a scope and a whole module do, a rule for each kind of item; `Views` says what the code's
//! structure stands for, `Owns` what a scope's own names are. `Ranges` and `Parameters` have the bits of a range and the constant
//! of a value, each by the constants of `vlog_meaning`; `Examples` has ranges and `ScopeExamples` small scopes that were worked
//! out by hand. `own` is the map of own names, `names` a list of names with a set of them beside it, so that no port looks at all
//! names in the head (`Known` in the specs says what the set has), `opening` genvars, `inside` instances and labels, `declare` nets,
//! variables and ports, `values` parameters, `items` the items in turn, and `modules` the head of a module. `wire` pairs the
//! expressions of an instance's connections with ports (`Wires`); instances of a bench are read by it too.
#![tactic(auto)]

mod declare;
mod inside;
mod items;
mod laws;
mod lent;
mod modules;
mod names;
mod opening;
mod own;
mod parameter;
mod range;
mod refusal;
mod signal;
mod values;
mod wire;

pub use items::has_label;
pub use laws::{ranges_of_examples, scopes_of_examples};
pub use lent::Lent;
pub use names::NameList;
pub use opening::{Given, Head, Opening, Parts, Placing, Step, is_among};
pub use own::OwnNames;
pub use parameter::{ParameterBits, parameter_decl};
pub use range::{RangeError, VectorBits, range_bits};
pub use refusal::Refusal;
pub use signal::{Port, Signal, What};
pub use values::turn_decl;
pub use wire::{Wire, ports_of, wires_of};
