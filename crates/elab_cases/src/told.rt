//! What is printed of bits and of faults.
use case_lines::Page;
use mcy_base::Span;
use netlist_core::Bit;
use vlog_meaning::Cause;

/// A constant or the number of a net.
pub(crate) fn put_bit(page: &mut Page, bit: Bit) {
    match bit {
        Bit::Fixed(false) => page.put("low"),
        Bit::Fixed(true) => page.put("high"),
        Bit::Net(net) => page.put_number(net.into()),
    }
}

/// The name of a cause.
pub(crate) fn cause_name(cause: Cause) -> &'static str {
    match cause {
        Cause::Unknown => "Unknown",
        Cause::NotConstant => "NotConstant",
        Cause::DivideByZero => "DivideByZero",
        Cause::TooWide => "TooWide",
        Cause::RangeForm => "RangeForm",
        Cause::SystemFunction | Cause::Drawn => "SystemFunction",
        Cause::DivideOrPower => "DivideOrPower",
        Cause::IndexedBase => "IndexedBase",
    }
}

/// A word and a column.
pub(crate) fn put_column(page: &mut Page, word: &str, place: Span) {
    page.put(word);
    page.put(" ");
    page.put_number(place.col.into());
}

/// A line of a word and a column.
pub(crate) fn put_fault(page: &mut Page, word: &str, place: Span) {
    put_column(page, word, place);
    page.put("\n");
}

/// A line of a word, a column and the number of a signal.
pub(crate) fn put_signal_fault(page: &mut Page, word: &str, place: Span, number: u32) {
    put_column(page, word, place);
    page.put(" signal ");
    page.put_number(number.into());
    page.put("\n");
}
