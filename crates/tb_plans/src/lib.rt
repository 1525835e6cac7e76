//! How statements and nets of a testbench are evaluated whose expressions draw nothing: by formulas, with names resolved once.
//!
//! A plan stands beside its statement or assign, and means what that means. There is none where an expression holds `$random` or
//! `$time` (but for a bare `$random` on the right of an assignment), and where a left side is a concatenation.
//!
//! Plans are made once, when a bench is read. `value` has the formula of an expression that draws nothing (`tb_formulas`), `left`
//! the target of a left side that is no concatenation, for values of as many bits as the assignment has, `sides` the plan of an
//! assignment: a `Transfer`, or a `Draw` where a bare `$random` stands on the right. `choices` has the plan of a `case`, `nodes`
//! those of the statements and `nets` those of the assigns, by their numbers. A plan means what the definitions of `tb_values`,
//! `tb_choices` and `tb_assigns` say of its statement, in each phase and whatever the signals are; a statement without one is
//! evaluated as ever. `target`, `transfer` and `selection` carry plans out, and take no memory; `copy` tells where an assignment
//! is a copy of one whole signal to another, as most connections of an instance are.
#![tactic(auto)]

mod choices;
mod copy;
mod left;
mod nets;
mod nodes;
mod plan;
mod selection;
mod sides;
mod target;
mod transfer;
mod value;

pub use copy::Copied;
pub use nets::plan_nets;
pub use nodes::plan_all;
pub use plan::{Loop, Plan};
pub use selection::{Arm, Label, Selection};
pub use target::Target;
pub use transfer::{Draw, Transfer, Writing};
