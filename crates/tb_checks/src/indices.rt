//! The indices of the left sides of nets, which are constants.
ghost use Rattle.std.specs.Prelude.{◌≡◌, map};
ghost use Rattle.std.specs.List.{flat_map};
ghost use Rattle.vlog_meaning.specs.Answers.{least};
ghost use Rattle.vlog_meaning.specs.Scopes.{names_of};
ghost use Rattle.vlog_effects.specs.LeftSides.{parts_of, concatenated};
ghost use Rattle.tb_checks.specs.Nets.{part_indices, indices_faults};

use vlog_meaning::{Fault, Scope, constant_fault, earlier};
use vlog_syntax::LeftSide;

/// Why the indices of a left side are no constants.
#[cycle(indices)]
pub(crate) fn indices_fault(left: &LeftSide, scope: &Scope) -> Option<Fault>
    ensures { result ≡ least (indices_faults (names_of scope.now) left.now) }
{
    match left {
        LeftSide::Name(_) => None,
        LeftSide::BitSelect(_, _, index) => constant_fault(index.get(), scope),
        LeftSide::PartSelect(..) => None,
        LeftSide::IndexedPartSelect(_, _, base, _) => constant_fault(base.get(), scope),
        LeftSide::Concatenation(_, parts) => all_indices_fault(parts.as_slice(), scope),
    }
}

/// The same of several left sides.
#[cycle(indices)]
fn all_indices_fault(parts: &[LeftSide], scope: &Scope) -> Option<Fault>
    ensures { result ≡ least (flat_map (part_indices (names_of scope.now)) (concatenated (map parts_of parts.now))) }
{
    let mut found = None;
    for part in parts {
        found = earlier(found, indices_fault(part, scope));
    }
    found
}
