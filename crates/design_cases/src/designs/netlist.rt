//! What is printed of a netlist: the clock, the ports, the registers and the cells, one a line.
use case_lines::Page;
use mcy_base::Span;
use mutation_sites::kind_text;
use netlist_core::{Cell, Netlist, Port, Register};

/// A port: its name and how many bits it has.
fn put_port(page: &mut Page, word: &str, port: &Port) {
    page.put(word);
    page.put(" ");
    page.put(port.name.as_str());
    page.put(" ");
    page.put_number(port.bits.as_slice().len() as u128);
    page.put("\n");
}

fn put_line_end(page: &mut Page, span: Span) {
    page.put(" ");
    page.put_place(span);
    page.put("\n");
}

/// A register: its name, its width and its start value.
fn put_register(page: &mut Page, register: &Register) {
    page.put("register ");
    page.put(register.name.as_str());
    page.put(" ");
    page.put_number(register.q.as_slice().len() as u128);
    page.put(" ");
    page.put_number(register.start.bits());
    put_line_end(page, register.span);
}

/// A cell: its name, of the kind and the number.
fn put_cell(page: &mut Page, number: usize, cell: &Cell) {
    page.put(kind_text(cell.kind));
    page.put("_");
    page.put_number(number as u128);
    put_line_end(page, cell.span);
}

fn put_cells(page: &mut Page, cells: &[Cell]) {
    for (number, cell) in cells.iter().enumerate() {
        put_cell(page, number, cell);
    }
}

fn put_ports(page: &mut Page, word: &str, ports: &[Port]) {
    for port in ports {
        put_port(page, word, port);
    }
}

pub(crate) fn put_netlist(page: &mut Page, netlist: &Netlist) {
    let raw = netlist.raw();
    if let Some(clock) = &raw.clock {
        page.put("clock ");
        page.put(clock.as_str());
        page.put("\n");
    }
    put_ports(page, "input", raw.inputs.as_slice());
    put_ports(page, "output", raw.outputs.as_slice());
    for register in raw.registers.as_slice() {
        put_register(page, register);
    }
    put_cells(page, raw.cells.as_slice());
}
