//! The numbers of a cycle: the cells that are marked are computed in the order of the netlist, and what changes marks its readers, which are further on.
ghost use Rattle.std.specs.Prelude.{◌≡◌, ℕ, ◌<◌, ◌*◌, [], length, slice_index_or};
ghost use Rattle.std.specs.List.{All};
ghost use Rattle.netlist_core.specs.Solutions.{driving};
ghost use Rattle.cycle_sim.specs.Gates.{AllGates};
ghost use Rattle.cycle_sim.specs.Marks.{mark_at, front, AreReaders, AreHeld, IsPut, IsComputed};

use crate::computing::compute;
use crate::marks::{mark_all, next_marked, unmark};
use crate::parts::Gate;
use mcy_base::Items;
use netlist_core::Netlist;

/// Gives a driver a number, and marks the cells that read it where it had another one.
pub(crate) fn put(
    readers: &[Items<usize>],
    table: &mut Vec<u128>,
    marks: &mut Vec<u64>,
    driver: usize,
    number: u128,
)
    requires inside { driver < length table.old.items }
    requires listed { length readers.now ≡ length table.old.items }
    requires room { All (λ k. k < 64 * length marks.old.items) (slice_index_or readers.now driver []) }
    ensures { IsPut (slice_index_or readers.now driver []) driver number table.old.items marks.old.items table.new.items marks.new.items }
{
    if table[driver] == number {
        return;
    }
    table[driver] = number;
    mark_all(marks, readers[driver].as_slice());
}

/// Computes the cell at a place of the order, and takes its mark.
fn settle_cell(
    netlist: &Netlist,
    gates: &[Gate],
    readers: &[Items<usize>],
    table: &mut Vec<u128>,
    marks: &mut Vec<u64>,
    place: usize,
)
    requires inside { place < length netlist.now.order }
    requires gates { AllGates (driving netlist.now.raw) gates.now netlist.now.raw.cells }
    requires readers { AreReaders netlist.now readers.now }
    requires held { AreHeld netlist.now table.old.items marks.old.items }
    ensures held { AreHeld netlist.now table.new.items marks.new.items }
    ensures front { front netlist.now.raw table.new.items ≡ front netlist.now.raw table.old.items }
    ensures here { mark_at marks.new.items place ≡ 0 }
    ensures before { (k : ℕ) → k < place → mark_at marks.new.items k ≡ mark_at marks.old.items k }
{
    let raw = netlist.raw();
    let first = raw.inputs.as_slice().len() + raw.registers.as_slice().len();
    let cell = netlist.order()[place];
    let number = compute(&gates[cell as usize], table.as_slice());
    unmark(marks, place);
    put(readers, table, marks, first + cell as usize, number);
}

/// Computes the cells that are marked, and those that read what changes.
pub(crate) fn settle_cells(
    netlist: &Netlist,
    gates: &[Gate],
    readers: &[Items<usize>],
    table: &mut Vec<u128>,
    marks: &mut Vec<u64>,
)
    requires gates { AllGates (driving netlist.now.raw) gates.now netlist.now.raw.cells }
    requires readers { AreReaders netlist.now readers.now }
    requires held { AreHeld netlist.now table.old.items marks.old.items }
    ensures held { AreHeld netlist.now table.new.items marks.new.items }
    ensures front { front netlist.now.raw table.new.items ≡ front netlist.now.raw table.old.items }
    ensures computed { (c : ℕ) → c < length netlist.now.raw.cells → IsComputed netlist.now.raw table.new.items c }
{
    let count = netlist.order().len();
    let mut place = next_marked(marks.as_slice(), 0);
    while place < count {
        settle_cell(netlist, gates, readers, table, marks, place);
        place = next_marked(marks.as_slice(), place + 1);
    }
}
