//! A real sink: any writer, as standard output.
//!
//! What the outside world has taken is not known, so the sink does not tell it. Where the writer itself
//! says what it holds, as one over memory does, contracts of this file say it too.
ghost use Rattle.std.specs.Prelude.{◌≡◌, ℕ, List, None, OnOk, OnErr, IfSome, IfNone};
ghost use Rattle.std.specs.Io.KnownBytes.{Appends, Keeps};
ghost use Rattle.mcy_outside.specs.RealSink.{Moves, Passes};

use crate::sink::{Sink, SinkFailed};
use std::io::{ErrorKind, Write};
use std::marker::Model;

/// A sink over a writer. It does not flush, so the writer is one that keeps nothing back, as standard
/// output here.
#[derive(Drop)]
pub struct RealSink<W: Write> {
    writer: W,
    faults: u64,
}

impl<W: Write> Model for RealSink<W> {
    ghost use Rattle.mcy_outside.specs.RealSink.{Wrapped};

    ghost Value = { Wrapped };

    ghost view = { λ s. record { contents = W.contents s.writer; faults = s.faults } };
}

impl<W: Write> RealSink<W> {
    /// A sink over this writer, none of whose writes has failed yet.
    pub fn new(writer: W) -> RealSink<W>
        ensures { result ≡ record { contents = W.contents writer; faults = 0 } }
    {
        RealSink { writer, faults: 0 }
    }
}

/// One write. Some is what is left of the piece: all of it where the write was interrupted. None where the
/// write failed or took nothing.
fn write_some<'a, W: Write>(writer: &mut W, piece: &'a [u8]) -> Option<&'a [u8]>
    ensures moved { IfSome result (λ rest. Moves (W.contents writer.old) (W.contents writer.new) piece.now rest.now) }
    ensures kept { IfNone result (Keeps (W.contents writer.old) (W.contents writer.new)) }
{
    match writer.write(piece) {
        Ok(0) => None,
        Ok(count) => Some(&piece[count..]),
        Err(error) if error.kind() == ErrorKind::Interrupted => Some(piece),
        Err(_) => None,
    }
}

/// Writes the whole piece.
fn write_through<W: Write>(writer: &mut W, piece: &[u8]) -> Result<(), SinkFailed>
    ensures done { OnOk result (Appends (W.contents writer.old) (W.contents writer.new) piece.now) }
    ensures part { OnErr result ((rest : List ℕ) × Moves (W.contents writer.old) (W.contents writer.new) piece.now rest) }
{
    let mut rest = piece;
    for _ in 0..u64::MAX {
        if rest.is_empty() {
            return Ok(());
        }
        match write_some(writer, rest) {
            Some(left) => rest = left,
            None => return Err(SinkFailed),
        }
    }
    Err(SinkFailed)
}

impl<W: Write> Sink for RealSink<W> {
    ghost written = { λ _. None };

    ghost faults = { λ s. s.faults };

    fn write_all(&mut self, piece: &[u8]) -> Result<(), SinkFailed>
        ensures { Passes self.old self.new piece.now result }
    {
        let result = write_through(&mut self.writer, piece);
        if result.is_err() {
            self.faults = self.faults.saturating_add(1);
        }
        result
    }
}
