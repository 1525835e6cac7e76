//! Selections, and the words by which they are made.
use anyhow::{Context, Result};
use mcy_base::Span;
use mutation_select::{Pick, select};
use mutation_sites::{ModeSet, sites};
use netlist_core::{Netlist, RawNetlist, is_formed};
use rand_core::SeedableRng;
use rand_core::utils::NextWord;
use rand_pcg::Lcg128Xsl64;

/// All modes.
const ALL: ModeSet = ModeSet {
    inv: true,
    const0: true,
    const1: true,
    cnot0: true,
    cnot1: true,
};

/// The place that two words give: a file and a line.
pub(crate) fn place_of(words: &str) -> Result<Span> {
    let (file, line) = words.split_once(' ').context("no line")?;
    Ok(Span {
        file: file.parse::<u16>().ok().context("no file")?,
        line: line.parse::<u32>().ok().context("no line")?,
        col: 1,
    })
}

/// The two numbers of a text: how many are wanted, and a seed.
fn numbers_of(words: &str) -> Result<(u32, u64)> {
    let (size, seed) = words.split_once(' ').context("no seed")?;
    Ok((
        size.parse::<u32>().ok().context("no size")?,
        seed.parse::<u64>().ok().context("no seed")?,
    ))
}

/// Prints the numbers of the selected sites of a netlist.
pub(crate) fn tell_pick<R: Print + AllocGlobal>(
    rt: &R,
    raw: RawNetlist,
    pick: Pick,
    words: &str,
) -> Result<()> {
    let (size, seed) = numbers_of(words)?;
    if !is_formed(&raw) {
        println!(rt; "not formed")?;
        return Ok(());
    }
    let netlist = Netlist::check(rt.alloc(), raw).ok().context("no netlist")?;
    let list = sites(rt.alloc(), &netlist, ALL)?;
    if list.len() > u32::MAX as usize {
        println!(rt; "too many")?;
        return Ok(());
    }
    for number in &select(rt.alloc(), &netlist, &list, size, seed, pick, &[])? {
        println!(rt; "{number}")?;
    }
    Ok(())
}

/// Prints the first words of the generator of a seed.
pub(crate) fn tell_words<R: Print>(rt: &R, words: &str) -> Result<()> {
    let (count, seed) = numbers_of(words)?;
    let mut source = Lcg128Xsl64::seed_from_u64(seed);
    for _ in 0..count {
        println!(rt; "{}", source.next_word())?;
    }
    Ok(())
}
