//! What the items of a testbench's module are: its clock generator, the instance of the design with its connections, its assigns
//! and its processes.
//!
//! The module is taken apart once it is opened: `step` goes over the steps that its scope lists, `generator` tells a clock
//! generator by its form, `instance` and `connection` make the instance of the design and its connections, each an assignment
//! through a hidden signal of the port (`assignment`), and `left` the left side that an expression has the form of. What is wrong
//! with a declaration or a connection is an item too, at its place.
//!
//! In its proofs `Forms` has the left side of each production, and `Instances` the connections of an instance.
#![tactic(auto)]

mod assignment;
mod clock;
mod connection;
mod design;
mod generator;
mod held;
mod instance;
mod item;
mod left;
mod reason;
mod region;
mod step;

pub use assignment::assignment_of;
pub use clock::clock_of;
pub use design::{Design, Role, hidden_name};
pub use generator::{Generator, Inversion, generator_of};
pub use held::held_instance;
pub use item::BenchItem;
pub use reason::of_const;
pub use region::first_region;
pub use step::items_of;
