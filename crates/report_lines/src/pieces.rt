ghost use Rattle.std.specs.Prelude.{◌≡◌, ℕ, ◌<◌, ◌≤◌, [], ◌++◌, IfOk, OnOk, OnErr, Result, Vec, get_or, length};
ghost use Rattle.std.specs.Io.KnownBytes.{Appends};
ghost use Rattle.std.specs.List.{flat_map};
ghost use Rattle.std.specs.declared.alloc.AllocError.{AllocError};
ghost use Rattle.std.specs.declared.alloc.Global.{Global};
ghost use Rattle.hg_base.specs.Outside.{HasCause, AppendsPrefix};
ghost use Rattle.hg_base.specs.Text.{headed_line};
ghost use Rattle.report_lines.specs.Lines.{piece_start, lines_from, lines_of_piece};

use crate::lines::{Lines, lines_text};
use crate::writer::LineWriter;
use hg_base::{Failed, Sink, write_all};
use std::alloc::{AllocError, Global};
use std::marker::Model;
use std::thread::{Threads, map_indices};

// How many pieces a list of lines is written in.
const PIECES: usize = 16;

// A list of fewer lines is made as one piece.
const FEW: usize = 4096;

// Pieces of no more bytes in all are joined to one: the room for few lines of 128 bytes each.
const SMALL: usize = 524_288;

/// A text in pieces, which are written one after another. Small ones are joined as they come, so that a small text is one
/// piece.
#[derive(Drop)]
pub struct Pieces {
    pieces: Vec<Vec<u8>>,
}

impl Model for Pieces {
    ghost use Rattle.std.specs.Prelude.{ℕ, List};
    ghost use Rattle.std.specs.List.{flat_map};

    ghost Value = { List ℕ };

    ghost view = { λ text. flat_map (λ piece. piece.items) text.pieces.items };
}

impl Pieces {
    /// No text yet.
    pub fn new(alloc: Global) -> Pieces
        ensures { result ≡ [] }
    {
        Pieces {
            pieces: Vec::new(alloc),
        }
    }

    /// A text of one piece.
    pub fn of(alloc: Global, text: Vec<u8>) -> Result<Pieces, AllocError>
        ensures { IfOk result (λ pieces. pieces ≡ text.items) }
    {
        let mut pieces = Pieces::new(alloc);
        pieces.push(text)?;
        Ok(pieces)
    }

    /// Appends a piece, which becomes a part of the last one where both are small. Where there is no memory left the text
    /// stays.
    pub fn push(&mut self, piece: Vec<u8>) -> Result<(), AllocError>
        ensures { OnOk result (self.new ≡ self.old ++ piece.items) }
    {
        push_or_join(&mut self.pieces, piece)
    }

    /// Appends a line that begins with a word, with one to six numbers after it. Where there is no memory left the text
    /// stays.
    pub fn push_headed_line(
        &mut self,
        alloc: Global,
        word: &str,
        numbers: &[u64],
    ) -> Result<(), AllocError>
        requires some { 0 < length numbers.now }
        requires few { length numbers.now ≤ 6 }
        ensures { OnOk result (self.new ≡ self.old ++ headed_line word.now numbers.now) }
    {
        let mut piece = LineWriter::new(alloc);
        piece.push_headed_line(word, numbers)?;
        self.push(piece.into_text())
    }

    /// Appends lines, in several pieces that threads of their own make where there are many. Where there is no memory
    /// left the text may end in some of the pieces.
    pub fn push_lines<L: Lines>(
        &mut self,
        rt: &(impl Threads + Sync),
        alloc: Global,
        lines: &L,
    ) -> Result<(), AllocError>
        ensures { OnOk result (self.new ≡ self.old ++ lines_from (L.line lines.now) 0 (L.count lines.now)) }
    {
        let count = lines.len();
        if count < FEW {
            return self.push(lines_text(alloc, lines, 0, count)?);
        }
        for piece in made_pieces(rt, alloc, lines)? {
            self.push(piece?)?;
        }
        Ok(())
    }

    /// The whole text in one.
    pub fn joined(&self, alloc: Global) -> Result<Vec<u8>, AllocError>
        ensures { IfOk result (λ text. text.items ≡ self.now) }
    {
        let mut text = Vec::with_capacity(alloc, total(&self.pieces))?;
        for piece in &self.pieces {
            text.extend_from_slice(piece)?;
        }
        Ok(text)
    }
}

// Appends a piece to the bytes of the last one, where they are few together, and else as one more.
fn push_or_join(pieces: &mut Vec<Vec<u8>>, piece: Vec<u8>) -> Result<(), AllocError>
    ensures { OnOk result (flat_map (λ piece. piece.items) pieces.new.items ≡ flat_map (λ piece. piece.items) pieces.old.items ++ piece.items) }
{
    match pieces.last_mut() {
        Some(last) if last.len().saturating_add(piece.len()) <= SMALL => {
            last.extend_from_slice(&piece)
        }
        _ => Ok(pieces.push(piece)?),
    }
}

// How many bytes the pieces have in all.
fn total(pieces: &[Vec<u8>]) -> usize {
    pieces
        .iter()
        .fold(0, |total, piece| total.saturating_add(piece.len()))
}

// The lines of sixteen pieces, each made in a thread of its own where one can be had.
fn made_pieces<L: Lines>(
    rt: &(impl Threads + Sync),
    alloc: Global,
    lines: &L,
) -> Result<Vec<Result<Vec<u8>, AllocError>>, AllocError>
    ensures len { IfOk result (λ made. length made.items ≡ 16) }
    ensures each { IfOk result (λ made. (k : ℕ) (d : Result (Vec ℕ Global) AllocError) → k < 16 → IfOk (get_or made.items k d) (λ text. text.items ≡ lines_of_piece (L.line lines.now) (L.count lines.now) k)) }
{
    let made = |k: usize| -> Result<Vec<u8>, AllocError>
        requires { k < 16 }
        ensures { IfOk result (λ text. text.items ≡ lines_of_piece (L.line lines.entry.now) (L.count lines.entry.now) k) }
    { piece(alloc, lines, k) };
    map_indices(rt, alloc, PIECES, &made)
}

// The lines of piece k of sixteen.
fn piece<L: Lines>(alloc: Global, lines: &L, k: usize) -> Result<Vec<u8>, AllocError>
    requires { k < 16 }
    ensures { IfOk result (λ text. text.items ≡ lines_of_piece (L.line lines.now) (L.count lines.now) k) }
{
    let count = lines.len();
    lines_text(
        alloc,
        lines,
        piece_start(count, k),
        piece_start(count, k + 1),
    )
}

// Where piece k of sixteen begins.
fn piece_start(count: usize, k: usize) -> usize
    ensures { result ≡ piece_start count k }
{
    count.min(k.saturating_mul(count / PIECES + 1))
}

/// Writes all the pieces, one after another, by as many calls of `write` as it takes.
///
/// Failed comes only where the sink's count of faults rose in this call, or stands at its end. A prefix of the text was
/// taken then.
pub fn write_pieces<K: Sink>(sink: &mut K, pieces: &Pieces) -> Result<(), Failed>
    ensures all { OnOk result (Appends (K.content sink.old) (K.content sink.new) pieces.now) }
    ensures prefix { OnErr result (AppendsPrefix (K.content sink.old) (K.content sink.new) pieces.now) }
    ensures cause { HasCause (K.faults sink.old) (K.faults sink.new) result }
{
    for piece in &pieces.pieces {
        write_all(sink, piece)?;
    }
    Ok(())
}
