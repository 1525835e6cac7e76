//! Plans of the assigns among nets.
ghost use Rattle.std.specs.Prelude.{◌≡◌, ℕ, Some, true, slice_get, IfOk};
ghost use Rattle.vlog_syntax.specs.declared.stmt.Assignment.{Assignment as Side};
ghost use Rattle.vlog_meaning.specs.Scopes.{names_of};
ghost use Rattle.tb_assigns.specs.Checks.{can_assign};
ghost use Rattle.tb_nets.specs.declared.node.NetNode.TheVariants.{Assign as IsAssign};
ghost use Rattle.tb_plans.specs.Making.{IsNetPlan};
ghost use Rattle.tb_plans.specs.Plans.{AreNetPlans};

use crate::sides::transfer_of;
use crate::transfer::Transfer;
use std::alloc::{AllocError, Global};
use tb_nets::NetNode;
use vlog_meaning::Scope;

/// The plan of a node.
fn net_plan(alloc: Global, node: &NetNode, scope: &Scope) -> Result<Option<Transfer>, AllocError>
    requires { (a : Side) → node.now ≡ IsAssign a → can_assign (names_of scope.now) a ≡ true }
    ensures { IfOk result (λ p. IsNetPlan (names_of scope.now) node.now p) }
{
    match node {
        NetNode::Assign(assignment) => transfer_of(alloc, assignment, scope),
        NetNode::Design => Ok(None),
    }
}

/// The plans of nodes, by their numbers. The design has none.
pub fn plan_nets(
    alloc: Global,
    scope: &Scope,
    nodes: &[NetNode],
) -> Result<Vec<Option<Transfer>>, AllocError>
    requires { (k : ℕ) (a : Side) → slice_get nodes.now k ≡ Some (IsAssign a) → can_assign (names_of scope.now) a ≡ true }
    ensures { IfOk result (λ ps. AreNetPlans (names_of scope.now) nodes.now ps.items) }
{
    let mut plans = Vec::new(alloc);
    for node in nodes {
        plans.push(net_plan(alloc, node, scope)?)?;
    }
    Ok(plans)
}
