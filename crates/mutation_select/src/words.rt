//! What each site draws: a word of the generator of a seed.
ghost use Rattle.std.specs.Prelude.{◌≡◌, ◌≤◌, length, IfOk};
ghost use Rattle.mutation_select.specs.Draws.{drawn, generator};
ghost use Rattle.mutation_select.specs.Selection.{shares_line, with_rank};

use crate::draw::Draw;
use mutation_sites::{Site, span_at};
use netlist_core::Netlist;
use rand_core::SeedableRng;
use rand_core::utils::NextWord;
use rand_pcg::Lcg128Xsl64;
use std::alloc::{AllocError, Global};

/// What a site draws: its word. With it stand the site's number, from 0, and the place of its cell or register in the sources.
/// They are ordered by file, line, word and number.
#[derive(Clone, Copy, Debug, PartialEq, Eq, PartialOrd, Ord)]
pub struct Drawn {
    pub file: u16,
    pub line: u32,
    pub word: u64,
    pub number: u32,
}

impl Drawn {
    /// Whether two sites stand on one line.
    pub(crate) fn shares_line(&self, other: &Drawn) -> bool
        ensures { result ≡ shares_line self.now other.now }
    {
        self.file == other.file && self.line == other.line
    }

    /// The draw with a rank.
    pub(crate) fn with_rank(&self, rank: u32) -> Draw
        ensures { result ≡ with_rank rank self.now }
    {
        Draw {
            rank,
            word: self.word,
            number: self.number,
        }
    }
}

/// What the sites of a netlist draw by a seed, in their order.
pub(crate) fn draw_words(
    alloc: Global,
    netlist: &Netlist,
    sites: &[Site],
    word_seed: u64,
) -> Result<Vec<Drawn>, AllocError>
    requires { length sites.now ≤ 4294967295 }
    ensures { IfOk result (λ list. list.items ≡ drawn netlist.now.raw (generator word_seed) 0 sites.now) }
{
    let mut words = Lcg128Xsl64::seed_from_u64(word_seed);
    let mut list = Vec::new(alloc);
    for (number, site) in sites.iter().enumerate() {
        let span = span_at(netlist.raw(), site.place);
        list.push(Drawn {
            file: span.file,
            line: span.line,
            word: words.next_word(),
            number: number as u32,
        })?;
    }
    Ok(list)
}
