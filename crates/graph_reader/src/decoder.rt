ghost use Rattle.std.specs.Prelude.{◌≡◌, ◌+◌, ◌<◌, ◌≤◌, ◌↔◌, ℕ, List, [], ◌∷◌, ◌++◌, length, take, IsTrue, IsFalse, IfOk, Err, is_err};
ghost use Rattle.graph_reader.specs.EdgeList.{edge_list, settles};
ghost use Rattle.input_tokens.specs.Lexing.{IsLexing};
ghost use Rattle.graph_reader.specs.Parsing.{KeepsMemory};
ghost use Rattle.input_tokens.specs.Progress.{Answers};
ghost use Rattle.graph_reader.specs.Progress.{HasRead, is_over, with_more, is_out_of_memory, is_sized};

use crate::parser::Parser;
use hg_base::{Graph, OutOfMemory, ReadError};
use input_tokens::Lexer;
use std::alloc::Global;
use std::marker::Model;

/// A reader of edge lists that come in pieces. It keeps the graph as far as it was read, and no text.
#[derive(Drop)]
pub struct Decoder {
    taken: u64,
    lexer: Lexer,
    parser: Parser,
}

impl Model for Decoder {
    ghost use Rattle.graph_reader.specs.Progress.{Progress};

    ghost Value = { Progress };

    ghost use Rattle.graph_reader.specs.DecoderFields.{progress_of, Keeps};

    ghost view = { progress_of };

    ghost invariant = { Keeps };
}

impl Decoder {
    /// A decoder that has read nothing.
    pub fn new(alloc: Global) -> Result<Decoder, OutOfMemory>
        ensures read { IfOk result (λ d. HasRead d []) }
        ensures memory { IfOk result (λ d. IsFalse (is_out_of_memory d)) }
    {
        Ok(Decoder {
            taken: 0,
            lexer: Lexer::Between,
            parser: Parser::new(alloc),
        })
    }

    /// Reads the next piece of the input. All pieces together have at most 134,217,728 bytes.
    ///
    /// # Errors
    ///
    /// There was no memory for the graph, in this call or an earlier one. Where `is_sized` was
    /// true before the call, it fails only where an earlier call did.
    pub fn feed(&mut self, piece: &[u8]) -> Result<(), OutOfMemory>
        requires { self.old.taken + length piece.now ≤ 134217728 }
        // What has been read is read on, also where memory ran out.
        ensures read { (bytes : List ℕ) → HasRead self.old bytes → HasRead self.new (bytes ++ piece.now) }
        ensures taken { self.new.taken ≡ self.old.taken + length piece.now }
        ensures memory { is_err result ≡ is_out_of_memory self.new }
        ensures stays { IsTrue (is_out_of_memory self.old) → IsTrue (is_out_of_memory self.new) }
        ensures sized { IsTrue (is_sized self.old) → IsTrue (is_sized self.new) × (is_out_of_memory self.new ≡ is_out_of_memory self.old) }
        // After a known fault, or where memory ran out, only the number of bytes changes.
        ensures frozen { IsTrue (is_over self.old) → self.new ≡ with_more self.old (length piece.now) }
    {
        if self.parser.is_over() {
            self.taken += piece.len() as u64;
            return self.memory();
        }
        self.lexer = read_piece(self.lexer, self.taken, &mut self.parser, piece);
        self.taken += piece.len() as u64;
        self.memory()
    }

    // An error where memory ran out.
    fn memory(&self) -> Result<(), OutOfMemory>
        ensures { is_err result ≡ is_out_of_memory self.now }
    {
        if self.parser.is_out_of_memory() {
            Err(OutOfMemory)
        } else {
            Ok(())
        }
    }

    /// The graph of the edge list that was fed, or its first fault. Takes no memory.
    ///
    /// # Errors
    ///
    /// The first fault of the input; or an earlier `feed` answered that memory ran out.
    pub fn finish(self) -> Result<Graph, ReadError>
        ensures read { (bytes : List ℕ) → HasRead self bytes → Answers result (edge_list bytes) }
        ensures memory { IsTrue (is_out_of_memory self) ↔ (result ≡ Err ReadError.OutOfMemory) }
    {
        match self.lexer {
            Lexer::Inside(at, text) => self.parser.finish_with(at, text.token(), self.taken),
            Lexer::Between | Lexer::Comment => self.parser.finish(self.taken),
        }
    }

    /// The number of bytes that were fed.
    pub fn taken(&self) -> u64
        ensures { result ≡ self.now.taken }
    {
        self.taken
    }

    /// Whether the memory for the graph has been taken, or none is needed: the number of edges, or a
    /// fault before it, has been read, and a byte behind it.
    pub fn is_sized(&self) -> bool
        ensures value { result ≡ is_sized self.now }
        ensures exact { (bytes : List ℕ) → HasRead self.now bytes → result ≡ settles bytes }
    {
        self.parser.is_settled()
    }
}

// Reads one byte, at this place.
fn read_byte(lexer: Lexer, place: u64, parser: &mut Parser, b: u8) -> Lexer
    requires { IsLexing lexer }
    ensures lexing { IsLexing result }
    ensures read { (bytes : List ℕ) → HasRead (record { taken = place; lexer = lexer; parsing = parser.old }) bytes
        → HasRead (record { taken = place + 1; lexer = result; parsing = parser.new }) (bytes ++ b ∷ []) }
    ensures keeps { KeepsMemory parser.old parser.new }
{
    let (next, found) = lexer.after(place, b);
    match found {
        Some(found) => {
            parser.take(found.at, found.token);
            next
        }
        None => next,
    }
}

// Reads some bytes of a piece that begins at this place: the three numbers of an edge, or else a run. Answers how many
// they are.
fn read_some(lexer: Lexer, place: u64, parser: &mut Parser, piece: &[u8]) -> (Lexer, usize)
    requires lexing { IsLexing lexer }
    requires some { 0 < length piece.now }
    requires short { place + length piece.now ≤ 134217728 }
    ensures lexing { IsLexing result.0 }
    ensures count { (0 < result.1) × (result.1 ≤ length piece.now) }
    ensures read { (bytes : List ℕ) → HasRead (record { taken = place; lexer = lexer; parsing = parser.old }) bytes
        → HasRead (record { taken = place + result.1; lexer = result.0; parsing = parser.new }) (bytes ++ take result.1 piece.now) }
    ensures keeps { KeepsMemory parser.old parser.new }
{
    if parser.is_at_edge() {
        if let Some(edge) = lexer.three_numbers(place, piece) {
            parser.take_three(edge.u, edge.v, edge.w);
            return (Lexer::Between, edge.count);
        }
    }
    read_run(lexer, place, parser, piece)
}

// Reads a run that ends no token and that the piece, which begins at this place, begins with; and the byte behind it.
// Answers how many bytes they are.
fn read_run(lexer: Lexer, place: u64, parser: &mut Parser, piece: &[u8]) -> (Lexer, usize)
    requires lexing { IsLexing lexer }
    requires some { 0 < length piece.now }
    requires short { place + length piece.now ≤ 134217728 }
    ensures lexing { IsLexing result.0 }
    ensures count { (0 < result.1) × (result.1 ≤ length piece.now) }
    ensures read { (bytes : List ℕ) → HasRead (record { taken = place; lexer = lexer; parsing = parser.old }) bytes
        → HasRead (record { taken = place + result.1; lexer = result.0; parsing = parser.new }) (bytes ++ take result.1 piece.now) }
    ensures keeps { KeepsMemory parser.old parser.new }
{
    let (now, run) = lexer.after_run(place, piece);
    if run == piece.len() {
        return (now, run);
    }
    let next = read_byte(now, place + run as u64, parser, piece[run]);
    (next, run + 1)
}

// Reads a piece that begins at this place.
fn read_piece(lexer: Lexer, place: u64, parser: &mut Parser, piece: &[u8]) -> Lexer
    requires lexing { IsLexing lexer }
    requires short { place + length piece.now ≤ 134217728 }
    ensures lexing { IsLexing result }
    ensures read { (bytes : List ℕ) → HasRead (record { taken = place; lexer = lexer; parsing = parser.old }) bytes
        → HasRead (record { taken = place + length piece.now; lexer = result; parsing = parser.new }) (bytes ++ piece.now) }
    ensures keeps { KeepsMemory parser.old parser.new }
{
    let mut now = lexer;
    let mut read = 0;
    while read < piece.len() {
        let (next, count) = read_some(now, place + read as u64, parser, &piece[read..]);
        now = next;
        read += count;
    }
    now
}

/// The graph of an edge list of at most 134,217,728 bytes, or its first fault.
///
/// # Errors
///
/// The first fault of the input, or there was no memory for the graph.
pub fn read_graph(alloc: Global, bytes: &[u8]) -> Result<Graph, ReadError>
    requires { length bytes.now ≤ 134217728 }
    ensures { Answers result (edge_list bytes.now) }
{
    let mut decoder = match Decoder::new(alloc) {
        Ok(decoder) => decoder,
        Err(OutOfMemory) => return Err(ReadError::OutOfMemory),
    };
    match decoder.feed(bytes) {
        Ok(()) => decoder.finish(),
        Err(OutOfMemory) => Err(ReadError::OutOfMemory),
    }
}
