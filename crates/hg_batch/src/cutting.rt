// The pieces of an input, each read as an edge list.
ghost use Rattle.std.specs.Prelude.{◌≡◌, ◌==◌, ◌<◌, ◌≤◌, [], ◌∷◌, ◌++◌, IfOk, IfSome, OnOk, length, position, slice_index};
ghost use Rattle.std.specs.Thread.{IsSync};
ghost use Rattle.hg_batch.specs.Pieces.{all_vertices, pieces, piece_reading, readings, piece_vertices};
ghost use Rattle.hg_batch.specs.Cutting.{reads, values};

use graph_reader::read_graph;
use hg_base::{InputFault, OutOfMemory, ReadError};
use higra_input::Input;
use memchr::{memchr, memrchr};
use std::alloc::Global;
use std::thread::{Threads, join};

// The byte at which an input is cut: the form feed.
const FORM_FEED: u8 = 12;

// Fewer bytes are read by one worker: another would take longer to start than to read its share.
const SMALL: usize = 65_536;

// A piece of the input, read as an edge list alone.
#[derive(Drop)]
pub(crate) enum Piece {
    Read(Input),
    Fault(InputFault),
}

// How many pieces the input has.
pub(crate) fn piece_count(bytes: &[u8]) -> usize
    requires { length bytes.now ≤ 134217728 }
    ensures { result ≡ length (pieces bytes.now) }
{
    let mut count = 1;
    let mut rest = bytes;
    while let Some(end) = first_cut(rest) {
        count += 1;
        rest = &rest[end + 1..];
    }
    count
}

// Reads all pieces of the input by so many workers side by side, each in a thread of its own where one can be had.
#[cycle(reading)]
pub(crate) fn read_pieces<R: Threads + Sync>(
    rt: &R,
    alloc: Global,
    bytes: &[u8],
    workers: u32,
) -> Result<Vec<Piece>, OutOfMemory>
    requires { length bytes.now ≤ 134217728 }
    ensures { IfOk result (λ read. values read.items ≡ readings bytes.now) }
{
    if workers < 2 || bytes.len() < SMALL {
        return read_in_turn(alloc, bytes);
    }
    let half = workers / 2;
    let others = workers - half;
    let Some(cut) = cut_near(bytes, share(bytes.len(), workers, half)) else {
        return read_in_turn(alloc, bytes);
    };
    let (front, back) = (&bytes[..cut], &bytes[cut + 1..]);
    let read_front = || -> Result<Vec<Piece>, OutOfMemory>
        requires { IsSync R.row × (length front.now ≤ 134217728) }
        ensures { IfOk result (λ read. values read.items ≡ readings front.entry.now) }
    { read_pieces(rt, alloc, front, half) };
    let read_back = || -> Result<Vec<Piece>, OutOfMemory>
        requires { IsSync R.row × (length back.now ≤ 134217728) }
        ensures { IfOk result (λ read. values read.items ≡ readings back.entry.now) }
    { read_pieces(rt, alloc, back, others) };
    let (front, back) = join(rt, read_front, read_back);
    both(front?, back?)
}

// The pieces of two lists in one.
fn both(mut front: Vec<Piece>, mut back: Vec<Piece>) -> Result<Vec<Piece>, OutOfMemory>
    ensures { IfOk result (λ all. all.items ≡ front.items ++ back.items) }
{
    front.append(&mut back).map_err(|_| OutOfMemory)?;
    Ok(front)
}

// The share of so many of the workers in a length.
fn share(len: usize, workers: u32, some: u32) -> usize
    requires workers { 1 ≤ workers }
    requires some { some ≤ workers }
    ensures { result ≤ len }
{
    len / workers as usize * some as usize
}

// Where a form feed is: the first one from a place on, or else the last one before it.
fn cut_near(bytes: &[u8], place: usize) -> Option<usize>
    requires { place ≤ length bytes.now }
    ensures within { IfSome result (λ cut. cut < length bytes.now) }
    ensures cut { IfSome result (λ cut. slice_index bytes.now cut ≡ 12) }
{
    match memchr(FORM_FEED, &bytes[place..]) {
        Some(end) => Some(place + end),
        None => memrchr(FORM_FEED, &bytes[..place]),
    }
}

// Reads all pieces of the input one after another.
fn read_in_turn(alloc: Global, bytes: &[u8]) -> Result<Vec<Piece>, OutOfMemory>
    requires { length bytes.now ≤ 134217728 }
    ensures { IfOk result (λ read. values read.items ≡ readings bytes.now) }
{
    let mut read = Vec::new(alloc);
    let mut rest = bytes;
    while let Some(end) = first_cut(rest) {
        push_piece(alloc, &mut read, &rest[..end])?;
        rest = &rest[end + 1..];
    }
    push_piece(alloc, &mut read, rest)?;
    Ok(read)
}

// Where the first form feed is, if there is one.
fn first_cut(bytes: &[u8]) -> Option<usize>
    ensures first { result ≡ position (λ b. b == 12) bytes.now }
    ensures within { IfSome result (λ end. end < length bytes.now) }
{
    memchr(FORM_FEED, bytes)
}

// Reads one piece and puts it at the end of those that were read.
#[tactic(auto, using(crate::proofs::PieceLemmas::values_push))]
fn push_piece(alloc: Global, read: &mut Vec<Piece>, bytes: &[u8]) -> Result<(), OutOfMemory>
    requires { length bytes.now ≤ 134217728 }
    ensures { OnOk result (values read.new.items ≡ values read.old.items ++ (piece_reading bytes.now ∷ [])) }
{
    let piece = read_piece(alloc, bytes)?;
    read.push(piece).map_err(|_| OutOfMemory)?;
    Ok(())
}

// Reads one piece.
fn read_piece(alloc: Global, bytes: &[u8]) -> Result<Piece, OutOfMemory>
    requires { length bytes.now ≤ 134217728 }
    ensures { IfOk result (λ piece. reads piece ≡ piece_reading bytes.now) }
{
    match read_graph(alloc, bytes) {
        Ok(graph) => Ok(Piece::Read(Input::Edges(graph))),
        Err(ReadError::Fault(fault)) => Ok(Piece::Fault(fault)),
        Err(ReadError::OutOfMemory) => Err(OutOfMemory),
    }
}

// How many vertices the pieces have that are edge lists.
pub(crate) fn vertex_count(pieces: &[Piece]) -> u64
    requires { length pieces.now ≤ 4096 }
    ensures { result ≡ all_vertices (values pieces.now) }
{
    let mut count = 0;
    for piece in pieces {
        count += vertices_of(piece);
    }
    count
}

// How many vertices a piece has that is an edge list.
fn vertices_of(piece: &Piece) -> u64
    ensures count { result ≡ piece_vertices (reads piece.now) }
    ensures few { result ≤ 1048576 }
{
    match piece {
        Piece::Read(Input::Edges(graph)) => u64::from(graph.n()),
        Piece::Read(Input::Picture(_)) => 0,
        Piece::Fault(_) => 0,
    }
}
