// Sources and sinks over the readers and writers of std.
ghost use Rattle.std.specs.Prelude.{◌≡◌, ◌<◌, ◌≤◌, length, take, drop, None, IfSome, IfNone, IfOk, OnErr, MatchResult};
ghost use Rattle.std.specs.Io.KnownBytes.{Appends, ReadConsumes, WriteAppends};
ghost use Rattle.hg_base.specs.Outside.{HasCause, AppendsPrefix, raised};

use super::fault::Failed;
use super::outside::{Sink, Source, copy_front};
use std::io::{Read, Write};
use std::marker::Model;

// How many bytes a read asks for at most.
const PIECE: usize = 8192;

/// A source over a reader of std. It doesn't tell its bytes; contracts see the reader and the
/// count of faults.
#[derive(Drop)]
pub struct StdSource<R> {
    reader: R,
    faults: u64,
}

impl<R> Model for StdSource<R> {
    ghost use Rattle.hg_base.specs.Outside.{Counted};

    ghost Value = { Counted R };

    ghost view = { λ s. record { inner = s.reader; faults = s.faults } };
}

impl<R: Read> StdSource<R> {
    /// The source over this reader. No read of it has failed yet.
    pub fn new(reader: R) -> StdSource<R>
        ensures { result ≡ record { inner = reader; faults = 0 } }
    {
        StdSource { reader, faults: 0 }
    }
}

impl<R: Read> Source for StdSource<R> {
    ghost left = { λ _. None };

    ghost faults = { λ s. s.faults };

    /// One read of std. An error of any kind is a failure.
    fn read(&mut self, into: &mut [u8]) -> Result<usize, Failed>
        ensures bound { IfOk result (λ n. n ≤ length into.new) }
        ensures kept { MatchResult result (λ n. drop n into.new ≡ drop n into.old) (λ _. into.new ≡ into.old) }
        ensures bytes { ReadConsumes None None result into.new }
        ensures cause { HasCause self.old.faults self.new.faults result }

        // A failure raises the count of faults by one, as far as it goes.
        ensures counted { OnErr result (self.new.faults ≡ raised self.old.faults) }

        // What was moved is what the reader gave, where the reader tells it.
        ensures moved { ReadConsumes (R.remaining self.old.inner) (R.remaining self.new.inner) result into.new }
    {
        let mut piece = [0u8; PIECE];
        let wanted = into.len().min(PIECE);
        match self.reader.read(&mut piece[..wanted]) {
            Ok(count) => {
                copy_front(&piece, count, into);
                Ok(count)
            }
            Err(_) => {
                self.faults = self.faults.saturating_add(1);
                Err(Failed)
            }
        }
    }
}

/// A sink over a writer of std. It doesn't tell its content; contracts see the writer and the
/// count of faults.
#[derive(Drop)]
pub struct StdSink<W> {
    writer: W,
    faults: u64,
}

impl<W> Model for StdSink<W> {
    ghost use Rattle.hg_base.specs.Outside.{Counted};

    ghost Value = { Counted W };

    ghost view = { λ s. record { inner = s.writer; faults = s.faults } };
}

impl<W: Write> StdSink<W> {
    /// The sink over this writer. No write of it has failed yet.
    pub fn new(writer: W) -> StdSink<W>
        ensures { result ≡ record { inner = writer; faults = 0 } }
    {
        StdSink { writer, faults: 0 }
    }
}

impl<W: Write> Sink for StdSink<W> {
    ghost content = { λ _. None };

    ghost faults = { λ s. s.faults };

    /// One write and one flush of std. An error of any kind is a failure, and so is a write that
    /// takes nothing of a piece that isn't empty.
    fn write(&mut self, piece: &[u8]) -> Result<usize, Failed>
        ensures bound { IfOk result (λ n. n ≤ length piece.now) }
        ensures some { IfOk result (λ n. 0 < length piece.now → 0 < n) }
        ensures bytes { WriteAppends None None result piece.now }
        ensures cause { HasCause self.old.faults self.new.faults result }

        // A failure raises the count of faults by one, as far as it goes.
        ensures counted { OnErr result (self.new.faults ≡ raised self.old.faults) }

        // What was taken is what the writer took, where the writer tells it. It may have taken a
        // prefix of the piece before it failed.
        ensures taken { IfOk result (λ n. Appends (W.contents self.old.inner) (W.contents self.new.inner) (take n piece.now)) }
        ensures prefix { OnErr result (AppendsPrefix (W.contents self.old.inner) (W.contents self.new.inner) piece.now) }
    {
        match write_and_flush(&mut self.writer, piece) {
            Some(count) => Ok(count),
            None => {
                self.faults = self.faults.saturating_add(1);
                Err(Failed)
            }
        }
    }
}

// One write and one flush: how many bytes were taken, if both went well.
fn write_and_flush<W: Write>(writer: &mut W, piece: &[u8]) -> Option<usize>
    ensures bound { IfSome result (λ n. n ≤ length piece.now) }
    ensures some { IfSome result (λ n. 0 < length piece.now → 0 < n) }
    ensures taken { IfSome result (λ n. Appends (W.contents writer.old) (W.contents writer.new) (take n piece.now)) }
    ensures prefix { IfNone result (AppendsPrefix (W.contents writer.old) (W.contents writer.new) piece.now) }
{
    let count = writer.write(piece).ok()?;
    writer.flush().ok()?;
    if count == 0 && !piece.is_empty() {
        return None;
    }
    Some(count)
}
