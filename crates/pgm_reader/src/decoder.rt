#![tactic(auto, unfolding(crate::specs::Parsing::settling_at))]

ghost use Rattle.std.specs.Prelude.{◌≡◌, ◌+◌, ◌<◌, ◌≤◌, ◌↔◌, ℕ, List, [], ◌++◌, length, IsTrue, IsFalse, IfOk, Err, is_err};
ghost use Rattle.input_tokens.specs.Progress.{Answers};
ghost use Rattle.pgm_reader.specs.Pgm.{is_picture, picture, settles};
ghost use Rattle.pgm_reader.specs.Parsing.{Reads};
ghost use Rattle.pgm_reader.specs.Progress.{HasRead, is_over, with_more, is_out_of_memory, is_sized};

use crate::parser::Parser;
use crate::picture::Picture;
use hg_base::{OutOfMemory, ReadError};
use std::alloc::Global;
use std::marker::Model;

/// A reader of pictures that come in pieces. It keeps the picture as far as it was read, and no text.
#[derive(Drop)]
pub struct PictureDecoder {
    taken: u64,
    parser: Parser,
}

impl Model for PictureDecoder {
    ghost use Rattle.pgm_reader.specs.Progress.{Progress};

    ghost Value = { Progress };

    ghost use Rattle.pgm_reader.specs.DecoderFields.{progress_of, Keeps};

    ghost view = { progress_of };

    ghost invariant = { Keeps };
}

impl PictureDecoder {
    /// A decoder that has read nothing.
    pub fn new(alloc: Global) -> Result<PictureDecoder, OutOfMemory>
        ensures read { IfOk result (λ d. HasRead d []) }
        ensures memory { IfOk result (λ d. IsFalse (is_out_of_memory d)) }
    {
        Ok(PictureDecoder {
            taken: 0,
            parser: Parser::new(alloc),
        })
    }

    /// Reads the next piece of the input. All pieces together have at most 134,217,728 bytes.
    ///
    /// # Errors
    ///
    /// There was no memory for the samples, in this call or an earlier one. Where `is_sized` was
    /// true before the call, it fails only where an earlier call did.
    pub fn feed(&mut self, piece: &[u8]) -> Result<(), OutOfMemory>
        requires { self.old.taken + length piece.now ≤ 134217728 }
        // What has been read is read on, also where memory ran out.
        ensures read { (bytes : List ℕ) → HasRead self.old bytes → HasRead self.new (bytes ++ piece.now) }
        ensures taken { self.new.taken ≡ self.old.taken + length piece.now }
        ensures memory { is_err result ≡ is_out_of_memory self.new }
        ensures stays { IsTrue (is_out_of_memory self.old) → IsTrue (is_out_of_memory self.new) }
        ensures sized { IsTrue (is_sized self.old) → IsTrue (is_sized self.new) × (is_out_of_memory self.new ≡ is_out_of_memory self.old) }
        // After a known fault, or where memory ran out, only the number of bytes changes.
        ensures frozen { IsTrue (is_over self.old) → self.new ≡ with_more self.old (length piece.now) }
    {
        if self.parser.is_over() {
            self.taken += piece.len() as u64;
            return self.memory();
        }
        for b in piece {
            self.read(*b);
        }
        self.memory()
    }

    // An error where memory ran out.
    fn memory(&self) -> Result<(), OutOfMemory>
        ensures { is_err result ≡ is_out_of_memory self.now }
    {
        if self.parser.is_out_of_memory() {
            Err(OutOfMemory)
        } else {
            Ok(())
        }
    }

    // Reads one byte.
    fn read(&mut self, b: u8)
        requires { self.old.taken < 134217728 }
        ensures taken { self.new.taken ≡ self.old.taken + 1 }
        ensures byte { Reads self.old.parsing self.new.parsing self.old.taken b }
    {
        self.parser.read(self.taken, b);
        self.taken += 1;
    }

    /// The picture that was fed, or its first fault. Takes no memory. What is said of the answer counts
    /// where the pieces put end to end begin a picture.
    ///
    /// # Errors
    ///
    /// The first fault of the input; or an earlier `feed` answered that memory ran out.
    pub fn finish(self) -> Result<Picture, ReadError>
        ensures read { (bytes : List ℕ) → HasRead self bytes → Answers result (picture bytes) }
        ensures memory { IsTrue (is_out_of_memory self) ↔ (result ≡ Err ReadError.OutOfMemory) }
    {
        self.parser.finish(self.taken)
    }

    /// The number of bytes that were fed.
    pub fn taken(&self) -> u64
        ensures { result ≡ self.now.taken }
    {
        self.taken
    }

    /// Whether the memory for the samples has been taken, or none is needed: the greatest value, or a
    /// fault before it, has been read, and a byte behind it.
    pub fn is_sized(&self) -> bool
        ensures value { result ≡ is_sized self.now }
        ensures exact { (bytes : List ℕ) → HasRead self.now bytes → result ≡ settles bytes }
    {
        self.parser.is_settled()
    }
}

/// The picture of at most 134,217,728 bytes that begin one, or its first fault.
///
/// # Errors
///
/// The first fault of the input, or there was no memory for the samples.
pub fn read_picture(alloc: Global, bytes: &[u8]) -> Result<Picture, ReadError>
    requires short { length bytes.now ≤ 134217728 }
    requires form { IsTrue (is_picture bytes.now) }
    ensures { Answers result (picture bytes.now) }
{
    let mut decoder = match PictureDecoder::new(alloc) {
        Ok(decoder) => decoder,
        Err(OutOfMemory) => return Err(ReadError::OutOfMemory),
    };
    match decoder.feed(bytes) {
        Ok(()) => decoder.finish(),
        Err(OutOfMemory) => Err(ReadError::OutOfMemory),
    }
}
