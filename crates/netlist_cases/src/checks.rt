//! The check of a netlist.
use anyhow::Result;
use netlist_core::{NetError, Netlist, RawNetlist, is_formed};
use std::io;

/// Prints the numbers from the first to the last.
fn tell_row<R: Print>(rt: &R, first: u32, last: u32) -> io::Result<()> {
    if first == last {
        print!(rt; " {first}")
    } else {
        print!(rt; " {first}..{last}")
    }
}

/// Prints numbers.
fn tell_numbers<R: Print>(rt: &R, numbers: &[u32]) -> io::Result<()> {
    let mut row: Option<(u32, u32)> = None;
    for number in numbers {
        row = match row {
            Some((first, last)) if last.checked_add(1) == Some(*number) => Some((first, *number)),
            Some((first, last)) => {
                tell_row(rt, first, last)?;
                Some((*number, *number))
            }
            None => Some((*number, *number)),
        };
    }
    if let Some((first, last)) = row {
        tell_row(rt, first, last)?;
    }
    println!(rt)
}

/// Prints the free bits and the order of a copy.
fn tell_copy<R: Print + AllocGlobal>(rt: &R, netlist: &Netlist) -> Result<()> {
    let copy = netlist.copy(rt.alloc())?;
    Ok(tell_netlist(rt, &copy)?)
}

/// Prints the free bits and the order.
fn tell_netlist<R: Print>(rt: &R, netlist: &Netlist) -> io::Result<()> {
    print!(rt; "free {}, order", netlist.free_bits())?;
    tell_numbers(rt, netlist.order())
}

/// Prints what came of a check.
fn tell_checked<R: Print + AllocGlobal>(rt: &R, checked: &Result<Netlist, NetError>) -> Result<()> {
    match checked {
        Ok(netlist) => tell_copy(rt, netlist),
        Err(error) => Ok(println!(rt; "{error:?}")?),
    }
}

/// Checks the netlist of these parts, and prints the answer.
pub(crate) fn check<R: Print + AllocGlobal>(rt: &R, raw: RawNetlist) -> Result<()> {
    if is_formed(&raw) {
        let checked = Netlist::check(rt.alloc(), raw);
        tell_checked(rt, &checked)
    } else {
        Ok(println!(rt; "not formed")?)
    }
}
