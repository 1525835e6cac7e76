//! What the parts of a Verilog text mean, on the way from the steps of a reading to trees.
//!
//! The parts of a production stand on a `Stack`, the first part on top. Contracts see a stack as the list of its items,
//! and a part as plain data.
#![tactic(auto)]

mod declaration_parts;
mod expression_parts;
mod item_parts;
mod leaves;
mod lists;
mod module_parts;
mod node;
mod stack;
mod statement_parts;
mod value;

pub use declaration_parts::OutputNames;
pub use expression_parts::{BraceEnd, Branches, Link, Select, SelectEnd};
pub use leaves::{identifier, number, string};
pub use module_parts::{MoreParameters, MorePorts, OutputPorts, ParameterPort};
pub use node::{
    boxed_assignment, boxed_branches, boxed_expr, boxed_instance, boxed_item, boxed_left,
    boxed_output_names, boxed_output_ports, boxed_parameter_port, boxed_plain, boxed_stmt,
    some_modules,
};
pub use stack::Stack;
pub use statement_parts::{AssignmentSign, CaseKeyword};
pub use value::{NO_SPAN, Parts, Value};
