//! How many gates a design counts under its limit of 100,000: 1, and the sum of the weights of its cells.
ghost use Rattle.std.specs.Prelude.{◌≡◌, ◌≤◌};
ghost use Rattle.netlist_core.specs.Sizes.{counted};
ghost use Rattle.netlist_core.specs.Shapes.{widths};
ghost use Rattle.netlist_core.specs.Checked.{AllWide, AllCellsWide};
ghost use Rattle.cell_gates.specs.Weights.{greatest, second, kind_weight, weight};
ghost use Rattle.pair_gates.specs.Weights.{cells_weight, design_gates};

use netlist_core::{BitList, Cell, CellKind, Netlist};

/// The greatest width of ports.
fn greatest(ports: &[BitList]) -> usize
    requires { AllWide ports.now }
    ensures width { result ≡ greatest (widths ports.now) }
    ensures few { result ≤ 128 }
{
    match ports {
        [] => 0,
        [bits, more @ ..] => bits.as_slice().len().max(greatest(more)),
    }
}

/// The width of port B.
fn second(ports: &[BitList]) -> usize
    requires { AllWide ports.now }
    ensures width { result ≡ second (widths ports.now) }
    ensures few { result ≤ 128 }
{
    match ports {
        [] => 0,
        [_] => 0,
        [_, bits, ..] => bits.as_slice().len(),
    }
}

/// The most gates that a cell adds, from the greatest width of a port, and that of port B.
fn kind_weight(kind: CellKind, width: usize, second: usize) -> usize
    requires width { width ≤ 128 }
    requires second { second ≤ 128 }
    ensures { result ≡ kind_weight kind width second }
{
    match kind {
        CellKind::Not => 0,
        CellKind::Neg => 5 * width,
        CellKind::And => width,
        CellKind::Or => width,
        CellKind::Xor => width,
        CellKind::Xnor => width,
        CellKind::Add => 5 * width,
        CellKind::Sub => 5 * width,
        CellKind::Mul => 6 * (width * width),
        CellKind::Lt => 5 * width,
        CellKind::Le => 5 * width,
        CellKind::Gt => 5 * width,
        CellKind::Ge => 5 * width,
        CellKind::Eq => 2 * width,
        CellKind::Ne => 2 * width,
        CellKind::Shl => 8 * width + second,
        CellKind::Shr => 8 * width + second,
        CellKind::Sshr => 8 * width + second,
        CellKind::Rand => width,
        CellKind::Ror => width,
        CellKind::Rxor => width,
        CellKind::Rnand => width,
        CellKind::Rnor => width,
        CellKind::Rxnor => width,
        CellKind::Lnot => width,
        CellKind::Land => 2 * width,
        CellKind::Lor => 2 * width,
        CellKind::Mux => width,
        CellKind::Pick => 8 * width + second,
        CellKind::Put => 18 * width + 2 * second,
    }
}

/// The most gates that a cell adds.
fn cell_weight(cell: &Cell) -> usize
    requires { AllWide cell.now.ports }
    ensures { result ≡ weight cell.now.kind (widths cell.now.ports) }
{
    let ports = cell.ports.as_slice();
    kind_weight(cell.kind, greatest(ports), second(ports))
}

/// The most gates that cells add.
fn cells_weight(cells: &[Cell]) -> usize
    requires { AllCellsWide cells.now }
    ensures { result ≡ counted (cells_weight cells.now) }
{
    let mut total: usize = 0;
    for cell in cells {
        total = total.saturating_add(cell_weight(cell));
    }
    total
}

/// The gates that a design counts, or the greatest number that there is.
pub fn design_gates(netlist: &Netlist) -> usize
    ensures { result ≡ counted (design_gates netlist.now.raw) }
{
    cells_weight(netlist.raw().cells.as_slice()).saturating_add(1)
}
