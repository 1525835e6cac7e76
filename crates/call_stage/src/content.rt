//! What the files are of which statements tell.
use std::alloc::{AllocError, Global};

/// The bytes of a text, in which a mark stands for the end of a line.
fn text_bytes(alloc: Global, text: &str, mark: u8) -> Result<Vec<u8>, AllocError> {
    let mut bytes = text.as_bytes().to_vec(alloc)?;
    for byte in bytes.iter_mut() {
        if *byte == mark {
            *byte = b'\n';
        }
    }
    Ok(bytes)
}

/// The numbers of a line; other words are left out.
pub(crate) fn numbers_of(alloc: Global, line: &str) -> Result<Vec<u32>, AllocError> {
    let mut numbers = Vec::new(alloc);
    for word in line.split_whitespace() {
        if let Ok(number) = word.parse::<u32>() {
            numbers.push(number)?;
        }
    }
    Ok(numbers)
}

/// These numbers as bytes.
fn low_bytes(alloc: Global, numbers: &[u32]) -> Result<Vec<u8>, AllocError> {
    let mut bytes = Vec::new(alloc);
    for number in numbers {
        bytes.push(u8::try_from(*number).unwrap_or(u8::MAX))?;
    }
    Ok(bytes)
}

/// Adds so many inputs, each behind a comma.
fn push_inputs(source: &mut String, inputs: u32) -> Result<(), AllocError> {
    for input in 0..inputs {
        write!(source, ", input p{input}")?;
    }
    Ok(())
}

/// A source with so many inputs, `p0` among them, and `p8` once more where asked.
fn wide_source(alloc: Global, inputs: u32, again: bool) -> Result<Vec<u8>, AllocError> {
    let mut source = String::from_str(alloc, "module g(output y")?;
    push_inputs(&mut source, inputs)?;
    if again {
        source.push_str(", input p8")?;
    }
    source.push_str(");\n  assign y = p0 & p0;\nendmodule\n")?;
    Ok(source.into_bytes())
}

/// Adds a character of a unit: `#` stands for the unit's number, and `?` for the number before it.
fn push_part(text: &mut String, part: char, number: u32) -> Result<(), AllocError> {
    match part {
        '#' => write!(text, "{number}")?,
        '?' => write!(text, "{}", number.saturating_sub(1))?,
        other => text.push(other)?,
    }
    Ok(())
}

/// Adds a unit.
fn push_unit(text: &mut String, unit: &str, number: u32) -> Result<(), AllocError> {
    for part in unit.chars() {
        push_part(text, part, number)?;
    }
    Ok(())
}

/// Adds the units from number 1 to this one.
fn push_units(text: &mut String, unit: &str, count: u32) -> Result<(), AllocError> {
    for number in 0..count {
        push_unit(text, unit, number.saturating_add(1))?;
    }
    Ok(())
}

/// Adds a part of a pattern: those at odd places are units, so many of each.
fn push_at(text: &mut String, place: usize, part: &str, count: u32) -> Result<(), AllocError> {
    if place % 2 == 1 {
        push_units(text, part, count)
    } else {
        text.push_str(part)
    }
}

/// The text of a pattern, as `TEXT\UNIT\TEXT`, with so many units.
fn pattern_text(alloc: Global, pattern: &str, count: u32) -> Result<String, AllocError> {
    let mut text = String::new(alloc);
    for (place, part) in pattern.split('\\').enumerate() {
        push_at(&mut text, place, part, count)?;
    }
    Ok(text)
}

/// The bytes that a number of units and a pattern give.
fn spread_bytes(alloc: Global, content: &str) -> Result<Vec<u8>, AllocError> {
    let (count, pattern) = content.split_once(' ').unwrap_or((content, ""));
    let text = pattern_text(alloc, pattern, count.parse::<u32>().unwrap_or(0))?;
    text_bytes(alloc, text.as_str(), b'%')
}

/// So many equal bytes.
fn equal_bytes(alloc: Global, byte: u32, count: u32) -> Result<Vec<u8>, AllocError> {
    let byte = u8::try_from(byte).unwrap_or(u8::MAX);
    vec![in alloc; byte; count as usize]
}

/// The bytes that numbers give: those that are listed, so many equal ones, or those of a source with so many inputs.
fn number_bytes(alloc: Global, verb: &str, numbers: &[u32]) -> Result<Vec<u8>, AllocError> {
    match (verb, numbers) {
        ("fill", [byte, count]) => equal_bytes(alloc, *byte, *count),
        ("wide", [inputs, again]) => wide_source(alloc, *inputs, *again == 1),
        (_, numbers) => low_bytes(alloc, numbers),
    }
}

/// The bytes of the file that a statement gives.
pub(crate) fn file_bytes(alloc: Global, verb: &str, content: &str) -> Result<Vec<u8>, AllocError> {
    match verb {
        "hold" => text_bytes(alloc, content, b'~'),
        "spread" => spread_bytes(alloc, content),
        _ => {
            let numbers = numbers_of(alloc, content)?;
            number_bytes(alloc, verb, numbers.as_slice())
        }
    }
}
