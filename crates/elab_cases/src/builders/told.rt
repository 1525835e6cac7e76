//! What is printed of builders and netlists.
use crate::told::put_bit;
use case_lines::Page;
use net_builder::Builder;
use netlist_core::{BitList, Cell, Port, RawNetlist, Register};

/// Puts bits from bit 0 on, with commas between them and a blank in front.
fn put_bits(page: &mut Page, bits: &BitList) {
    let mut before = " ";
    for bit in bits.as_slice() {
        page.put(before);
        put_bit(page, *bit);
        before = ",";
    }
}

/// Puts what a net is written by.
pub(crate) fn put_asked(page: &mut Page, builder: &Builder, net: u32) {
    page.put_number(net.into());
    match (builder.joined(net), builder.is_written(net)) {
        (Some(bit), true) => {
            page.put(" is joined to ");
            put_bit(page, bit);
            page.put("\n");
        }
        (None, true) => page.put_line(" is stored"),
        (None, false) => page.put_line(" is free"),
        (Some(_), false) => page.put_line(" is joined, and not written"),
    }
}

fn put_port(page: &mut Page, word: &str, port: &Port) {
    page.put(word);
    page.put(port.name.as_str());
    put_bits(page, &port.bits);
    page.put("\n");
}

fn put_register(page: &mut Page, register: &Register) {
    page.put("register ");
    page.put(register.name.as_str());
    page.put(" ");
    page.put_number(register.start.bits());
    put_bits(page, &register.d);
    put_bits(page, &register.q);
    page.put("\n");
}

fn put_cell(page: &mut Page, cell: &Cell) {
    page.put("not");
    for port in cell.ports.as_slice() {
        put_bits(page, port);
    }
    page.put("\n");
}

fn put_ports(page: &mut Page, word: &str, ports: &[Port]) {
    for port in ports {
        put_port(page, word, port);
    }
}

fn put_cells(page: &mut Page, cells: &[Cell]) {
    for cell in cells {
        put_cell(page, cell);
    }
}

/// Puts a netlist: its inputs, outputs, registers and cells.
pub(crate) fn put_netlist(page: &mut Page, netlist: &RawNetlist) {
    put_ports(page, "input ", netlist.inputs.as_slice());
    put_ports(page, "output ", netlist.outputs.as_slice());
    for register in netlist.registers.as_slice() {
        put_register(page, register);
    }
    put_cells(page, netlist.cells.as_slice());
    page.put_line("end");
}
