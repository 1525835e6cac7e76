//! The nets of a cycle, computed cell by cell in the order of the netlist.
ghost use Rattle.std.specs.Prelude.{◌≡◌, ℕ, ◌%◌, ◌^◌, Some, length, map};
ghost use Rattle.netlist_core.specs.Runs.{input_ports, output_port, plain, values};
ghost use Rattle.netlist_core.specs.Shapes.{HasShape};
ghost use Rattle.netlist_core.specs.Checked.{AllWide};
ghost use Rattle.netlist_core.specs.Settled.{number_at, after_cell, after_order};
ghost use Rattle.cell_meaning.specs.Words.{FitWords, bits_of};
ghost use Rattle.netlist_core.specs.Below.{AllBelow};
ghost use Rattle.step_trials.specs.Tables.{nets_of, HasInputs};

use crate::bits::{lay, word_of};
use cell_meaning::cell_value;
use mcy_base::Word;
use netlist_core::{BitList, Cell, Netlist, output_port};

/// The words at a cell's input ports, all ports but the last. Where there are fewer than three, the last one stands
/// for the others.
fn input_words(table: &[bool], ports: &[BitList]) -> [Word; 3]
    requires inputs { HasInputs ports.now }
    requires wide { AllWide ports.now }
    ensures fit { FitWords (input_ports ports.now) result }
    ensures read { bits_of (input_ports ports.now) result ≡ map (values (nets_of table.now)) (input_ports ports.now) }
{
    match ports {
        [a, _] => {
            let a = word_of(table, a.as_slice());
            [a, a, a]
        }
        [a, b, _] => {
            let a = word_of(table, a.as_slice());
            let b = word_of(table, b.as_slice());
            [a, b, b]
        }
        [a, b, d, _] => {
            let a = word_of(table, a.as_slice());
            let b = word_of(table, b.as_slice());
            let d = word_of(table, d.as_slice());
            [a, b, d]
        }
        _ => [Word::new(1, 0).unwrap(); 3],
    }
}

/// The value of a cell, whatever its number.
fn compute(table: &[bool], cell: &Cell) -> u128
    requires shape { HasShape cell.now }
    requires wide { AllWide cell.now.ports }
    ensures { (c : ℕ) → result ≡ number_at (plain (nets_of table.now)) c cell.now % 2 ^ length (output_port cell.now.ports) }
{
    let words = input_words(table, cell.ports.as_slice());
    cell_value(cell, words).bits()
}

/// Sets the nets of a cell's Y.
fn advance(table: &mut [bool], cell: &Cell)
    requires shape { HasShape cell.now }
    requires wide { AllWide cell.now.ports }
    requires below { AllBelow (length table.old) (output_port cell.now.ports) }
    ensures { (c : ℕ) → nets_of table.new ≡ after_cell plain c (Some cell.now) (nets_of table.old) }
{
    let value = compute(table, cell);
    lay(table, output_port(cell.ports.as_slice()), value);
}

/// Gives the nets the values that they have in a cycle with the inputs that are laid.
pub(crate) fn settle(netlist: &Netlist, table: &mut [bool])
    requires { length table.old ≡ netlist.now.nets }
    ensures { nets_of table.new ≡ after_order plain netlist.now.raw.cells netlist.now.order (nets_of table.old) }
{
    let cells = netlist.raw().cells.as_slice();
    let order = netlist.order();
    for i in 0..order.len() {
        let number = order[i];
        advance(table, &cells[number as usize]);
    }
}
