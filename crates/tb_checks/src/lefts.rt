//! The names that left sides write.
ghost use Rattle.std.specs.Prelude.{◌≡◌, map, option_copied};
ghost use Rattle.std.specs.List.{flat_map};
ghost use Rattle.vlog_meaning.specs.Scopes.{names_of};
ghost use Rattle.vlog_effects.specs.LeftSides.{parts_of, concatenated};
ghost use Rattle.tb_checks.specs.Lefts.{is_clock, name_faults, part_faults};
ghost use Rattle.tb_faults.specs.Order.{IsFirst};

use tb_faults::{BenchFault, earlier};
use vlog_meaning::{Cause, Decl, Fault, Scope};
use vlog_syntax::{Feature, Identifier, LeftSide};

/// Whether a name is that of the clock.
pub(crate) fn is_clock(clock: Option<&str>, name: &str) -> bool
    ensures { result ≡ is_clock (option_copied clock.entry) name.now }
{
    match clock {
        Some(clock) => clock == name,
        None => false,
    }
}

/// What is wrong with a name that is written.
fn name_fault(name: &Identifier, scope: &Scope, clock: Option<&str>) -> Option<BenchFault>
    ensures { IsFirst (name_faults (option_copied clock.entry) name.now (names_of scope.now name.now.name)) result }
{
    match scope.get(name.name.as_str()) {
        Some(Decl::Signal { .. }) => {
            if is_clock(clock, name.name.as_str()) {
                Some(BenchFault::Unsupported(name.span, Feature::Helper))
            } else {
                None
            }
        }
        Some(Decl::Constant { .. }) | None => Some(BenchFault::Wrong(Fault {
            cause: Cause::Unknown,
            span: name.span,
        })),
    }
}

/// What is wrong first with the names that a left side writes.
#[cycle(names)]
pub(crate) fn names_fault(left: &LeftSide, scope: &Scope, clock: Option<&str>) -> Option<BenchFault>
    ensures { IsFirst (flat_map (part_faults (names_of scope.now) (option_copied clock.entry)) (parts_of left.now)) result }
{
    match left {
        LeftSide::Name(name)
        | LeftSide::BitSelect(name, ..)
        | LeftSide::PartSelect(name, ..)
        | LeftSide::IndexedPartSelect(name, ..) => name_fault(name, scope, clock),
        LeftSide::Concatenation(_, parts) => all_names_fault(parts.as_slice(), scope, clock),
    }
}

/// The same in several left sides.
#[cycle(names)]
fn all_names_fault(parts: &[LeftSide], scope: &Scope, clock: Option<&str>) -> Option<BenchFault>
    ensures { IsFirst (flat_map (part_faults (names_of scope.now) (option_copied clock.entry)) (concatenated (map parts_of parts.now))) result }
{
    let mut found = None;
    for part in parts {
        found = earlier(found, names_fault(part, scope, clock));
    }
    found
}
