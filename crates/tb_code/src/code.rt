//! The code of a testbench: the nodes of all its statements, each behind those of its parts.
//!
//! Contracts see the list of nodes. Each statement that is added has its number for good.
ghost use Rattle.std.specs.Prelude.{◌≡◌, ℕ, ◌<◌, [], ◌∷◌, IfOk, List};
ghost use Rattle.tb_machine.specs.declared.node.Node.{Node as Named};
ghost use Rattle.tb_machine.specs.Machine.{suspended, StackBelow};
ghost use Rattle.tb_machine.specs.Nodes.{Tree};
ghost use Rattle.tb_code.specs.Codes.{Adds, waiting};

use crate::statement::add_statement;
use std::alloc::{AllocError, Global};
use std::marker::Model;
use tb_machine::{Event, Frame, Node, Process};
use vlog_syntax::Stmt;

/// Nodes of statements.
#[derive(Drop)]
pub struct Code {
    alloc: Global,
    nodes: Vec<Node>,
}

impl Model for Code {
    ghost use Rattle.std.specs.Prelude.{List};
    ghost use Rattle.std.specs.Coded.{coded_list};
    ghost use Rattle.tb_machine.specs.contracts.node.Node as e;
    ghost use Rattle.tb_machine.specs.declared.node.Node.{Node as Named};

    ghost Value = { List Named };

    ghost coded = { coded_list e.the_row.coded };

    ghost view = { λ c. c.nodes.items };
}

impl Code {
    /// Code of no statement.
    pub fn new(alloc: Global) -> Code
        ensures { result ≡ [] }
    {
        Code {
            alloc,
            nodes: Vec::new(alloc),
        }
    }

    /// Adds a statement with all its parts, and tells its number.
    pub fn add(&mut self, statement: &Stmt) -> Result<u32, AllocError>
        ensures { IfOk result (λ number. Adds self.old self.new (number ∷ []) (statement.now ∷ [])) }
    {
        add_statement(self.alloc, &mut self.nodes, statement)
    }

    /// The nodes.
    pub fn nodes(&self) -> &[Node]
        ensures { result.now ≡ self.now }
    {
        &self.nodes
    }
}

/// A process that waits for an event, and then carries out the statement with this number.
pub fn begin(alloc: Global, event: Event, number: u32) -> Result<Process, AllocError>
    ensures waits { (nodes : List Named) (tree : Tree) → IfOk result (λ process. suspended nodes tree process ≡ waiting event (tree number)) }
    ensures below { (limit : ℕ) → number < limit → IfOk result (StackBelow limit) }
{
    let mut stack = Vec::new(alloc);
    stack.push(Frame::Do(number))?;
    Ok(Process { event, stack })
}
