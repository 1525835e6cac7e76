//! A sink that keeps the text that is written to it.
ghost use Rattle.std.specs.Prelude.{◌≡◌, []};

use mcy_outside::{Sink, SinkFailed};
use std::alloc::Global;
use std::marker::Model;

/// A sink that keeps its text. A write that finds no memory fails, and leaves the text as it was.
#[derive(Drop)]
pub(crate) struct KeptText {
    text: Vec<u8>,
    faults: u64,
}

impl Model for KeptText {
    ghost use Rattle.mcy_top.specs.KeptTexts.{Kept};

    ghost Value = { Kept };

    ghost view = { λ s. record { text = s.text.items; faults = s.faults } };
}

impl KeptText {
    /// A sink to which nothing was written yet.
    pub(crate) fn new(alloc: Global) -> KeptText
        ensures { result ≡ record { text = []; faults = 0 } }
    {
        KeptText {
            text: Vec::new(alloc),
            faults: 0,
        }
    }

    /// What was written.
    pub(crate) fn as_slice(&self) -> &[u8]
        ensures { result.now ≡ self.now.text }
    {
        &self.text
    }
}

impl Sink for KeptText {
    ghost use Rattle.std.specs.Prelude.{Some};

    ghost written = { λ s. Some s.text };

    ghost faults = { λ s. s.faults };

    fn write_all(&mut self, piece: &[u8]) -> Result<(), SinkFailed> {
        if self.text.extend_from_slice(piece).is_ok() {
            return Ok(());
        }
        self.faults = self.faults.saturating_add(1);
        Err(SinkFailed)
    }
}
