//! Trees of a Verilog source, as plain data with the places of their parts.
//!
//! How deep trees nest is `Nesting`: code that goes down a tree by calls of itself goes at most so deep.
//!
//! Each type has a `drop` of its own, so that a crate above lets go of a tree by a call: a derived one would be proved again in each
//! crate that owns a tree.
#![tactic(auto)]

mod boxed;
mod expr;
mod feature;
mod identifier;
mod item;
mod laws;
mod left_side;
mod listed;
mod module;
mod operator;
mod stmt;

pub use boxed::Boxed;
pub use expr::Expr;
pub use feature::Feature;
pub use identifier::{Identifier, Number};
pub use item::{
    Connections, DataDeclaration, DataType, DeclaredName, Delay, Direction, GenerateLoop, Instance,
    Item, NamedConnection, ParameterAssignment, ParameterDeclaration, ParameterKind, ParameterType,
    ParameterValues, PlainItem, PortDeclaration, Ports, Process, ProcessKind, Range, VectorType,
};
pub use laws::nesting;
pub use left_side::LeftSide;
pub use listed::Listed;
pub use module::Module;
pub use operator::{BinaryOperator, UnaryOperator};
pub use stmt::{
    Argument, Assignment, CaseItem, CaseKind, Edge, EventControl, EventExpression, Stmt,
};
