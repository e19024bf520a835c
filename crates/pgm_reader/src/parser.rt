#![tactic(auto, unfolding(crate::specs::Parsing::reading_at, crate::specs::Parsing::settling_at, crate::specs::Parsing::from_field, crate::specs::Parsing::field_settles))]

ghost use Rattle.std.specs.Prelude.{◌≡◌, ◌≢◌, ◌*◌, ◌<◌, ◌≤◌, ◌↔◌, ℕ, [], true, false, length, IsTrue, MatchResult, Err};
ghost use Rattle.input_tokens.specs.Lexing.{HasTenDigitsAtMost, IsLexing};
ghost use Rattle.input_tokens.specs.Progress.{Answers};
ghost use Rattle.pgm_reader.specs.Pgm.{ends_token};
ghost use Rattle.pgm_reader.specs.Parsing.{Reads, TakesToken, TakesSample, IsAmongSamples, IsFaultOf, StandsAt, hash_ends, is_over, is_out_of_memory, is_settled, reading};

use crate::lexer::{Step, after, behind, last};
use crate::picture::Picture;
use crate::rules;
use crate::stage::{Field, Stage};
use hg_base::{FaultKind, InputFault, ReadError};
use input_tokens::{Found, Lexer, truncated};
use std::alloc::Global;
use std::marker::Model;

/// What has been read of a picture, byte by byte. Memory is taken once, at the greatest value.
#[derive(Drop)]
pub struct Parser {
    alloc: Global,
    stage: Stage,
    width: u32,
    height: u32,
    max: u16,
    samples: Vec<u16>,
}

impl Model for Parser {
    ghost use Rattle.pgm_reader.specs.Parsing.{Parsing};

    ghost Value = { Parsing };

    ghost use Rattle.pgm_reader.specs.ParserFields.{parsing_of, Keeps};

    ghost view = { parsing_of };

    ghost invariant = { Keeps };
}

// The fault of the last number of an input that ends in its header.
fn last_error<T: Drop>(read: Result<T, InputFault>, end: u64) -> ReadError
    ensures { MatchResult read
        (λ _. result ≡ ReadError.Fault (record { kind = FaultKind.Truncated; at = end; value = 0 }))
        (λ fault. result ≡ ReadError.Fault fault) }
{
    match read {
        Ok(_) => truncated(end),
        Err(fault) => ReadError::Fault(fault),
    }
}

impl Field {
    fn hash_ends(self) -> bool
        ensures { result ≡ hash_ends self }
    {
        match self {
            Field::Width | Field::Height => true,
            Field::Greatest => false,
        }
    }
}

impl Parser {
    /// Nothing has been read.
    pub fn new(alloc: Global) -> Parser
        ensures { result ≡ record { stage = Stage.Form; width = 0; height = 0; max = 0; samples = [] } }
    {
        Parser {
            alloc,
            stage: Stage::Form,
            width: 0,
            height: 0,
            max: 0,
            samples: Vec::new(alloc),
        }
    }

    /// Reads the byte at this place. After a fault, or where memory ran out, nothing changes any more.
    pub fn read(&mut self, place: u64, b: u8)
        requires { StandsAt self.old.stage place }
        ensures { Reads self.old self.new place b }
    {
        match self.stage {
            Stage::Form => self.read_form(place),
            Stage::Header(field, lexer) => self.read_header(field, lexer, place, b),
            Stage::Samples => self.read_sample(place, b),
            Stage::LowByte(high) => self.read_low_byte(high, place, b),
            Stage::Faulty(_) | Stage::OutOfMemory => {}
        }
    }

    // Reads a byte of `P5`.
    fn read_form(&mut self, place: u64)
        requires stage { self.old.stage ≡ Stage.Form }
        requires within { place < 2 }
        ensures { (b : ℕ) → Reads self.old self.new place b }
    {
        if place == 1 {
            self.stage = Stage::Header(Field::Width, Lexer::Between);
        }
    }

    fn read_header(&mut self, field: Field, lexer: Lexer, place: u64, b: u8)
        requires stage { self.old.stage ≡ Stage.Header field lexer }
        requires lexing { IsLexing lexer }
        ensures { Reads self.old self.new place b }
    {
        match after(lexer, field.hash_ends(), place, b) {
            Step::On(next) => self.stage = Stage::Header(field, next),
            Step::Ended(found) => self.take_token(field, found, place, b),
        }
    }

    // Takes the token that this byte ends.
    fn take_token(&mut self, field: Field, found: Found, place: u64, b: u8)
        requires stage { (lexer : Lexer) × (self.old.stage ≡ Stage.Header field lexer) }
        requires ended { IsTrue (ends_token (hash_ends field) b) }
        requires digits { HasTenDigitsAtMost found.token }
        ensures { TakesToken field self.old self.new found place b }
    {
        match field {
            Field::Width => self.take_width(found, place, b),
            Field::Height => self.take_height(found, place, b),
            Field::Greatest => self.take_greatest(found),
        }
    }

    fn take_width(&mut self, found: Found, place: u64, b: u8)
        requires stage { (lexer : Lexer) × (self.old.stage ≡ Stage.Header Field.Width lexer) }
        requires ended { IsTrue (ends_token true b) }
        ensures { TakesToken Field.Width self.old self.new found place b }
    {
        match rules::width(found.at, found.token) {
            Ok(width) => {
                self.width = width;
                self.stage = Stage::Header(Field::Height, behind(b));
            }
            Err(fault) => self.stage = Stage::Faulty(fault),
        }
    }

    fn take_height(&mut self, found: Found, place: u64, b: u8)
        requires stage { (lexer : Lexer) × (self.old.stage ≡ Stage.Header Field.Height lexer) }
        requires ended { IsTrue (ends_token true b) }
        requires digits { HasTenDigitsAtMost found.token }
        ensures { TakesToken Field.Height self.old self.new found place b }
    {
        match rules::height(self.width, found.at, found.token) {
            Ok(height) => {
                self.height = height;
                self.stage = Stage::Header(Field::Greatest, behind(b));
            }
            Err(fault) => self.stage = Stage::Faulty(fault),
        }
    }

    // Takes the memory for all samples, where the greatest value has no fault.
    fn take_greatest(&mut self, found: Found)
        requires { (lexer : Lexer) × (self.old.stage ≡ Stage.Header Field.Greatest lexer) }
        ensures { (place b : ℕ) → TakesToken Field.Greatest self.old self.new found place b }
    {
        match rules::greatest(found.at, found.token) {
            Ok(max) => match Vec::with_capacity(self.alloc, self.pixels()) {
                Ok(samples) => {
                    self.max = max;
                    self.samples = samples;
                    self.stage = Stage::Samples;
                }
                Err(_) => self.stage = Stage::OutOfMemory,
            },
            Err(fault) => self.stage = Stage::Faulty(fault),
        }
    }

    fn pixels(&self) -> usize
        ensures { result ≡ self.now.width * self.now.height }
    {
        self.width as usize * self.height as usize
    }

    // Reads the first byte of a sample, or finds that no more should come.
    fn read_sample(&mut self, place: u64, b: u8)
        requires { self.old.stage ≡ Stage.Samples }
        ensures { Reads self.old self.new place b }
    {
        if self.samples.len() == self.pixels() {
            self.stage = Stage::Faulty(InputFault {
                kind: FaultKind::Trailing,
                at: place,
                value: 0,
            });
        } else if self.max < 256 {
            self.take_sample(place, u16::from(b));
        } else {
            self.stage = Stage::LowByte(b);
        }
    }

    // Reads the second byte of a sample whose first byte is `high`.
    fn read_low_byte(&mut self, high: u8, place: u64, b: u8)
        requires stage { self.old.stage ≡ Stage.LowByte high }
        requires behind { 0 < place }
        requires two_bytes { 256 ≤ self.old.max }
        requires left { length self.old.samples < self.old.width * self.old.height }
        ensures { Reads self.old self.new place b }
    {
        let sample = u16::from(high) * 256 + u16::from(b);
        self.take_sample(place - 1, sample);
    }

    // Takes a sample that begins at this place.
    fn take_sample(&mut self, place: u64, sample: u16)
        requires stage { IsAmongSamples self.old.stage }
        requires left { length self.old.samples < self.old.width * self.old.height }
        ensures { TakesSample self.old self.new place sample }
    {
        if sample > self.max {
            self.stage = Stage::Faulty(InputFault {
                kind: FaultKind::SampleAboveMax,
                at: place,
                value: u64::from(sample),
            });
        } else {
            self.samples.push_reserved(sample);
            self.stage = Stage::Samples;
        }
    }

    /// Whether the greatest value, or a fault, has been read.
    pub fn is_settled(&self) -> bool
        ensures { (place : ℕ) → result ≡ is_settled self.now place }
    {
        match self.stage {
            Stage::Form | Stage::Header(_, _) => false,
            Stage::Samples | Stage::LowByte(_) | Stage::Faulty(_) | Stage::OutOfMemory => true,
        }
    }

    /// Whether there was no memory for the samples.
    pub fn is_out_of_memory(&self) -> bool
        ensures { result ≡ is_out_of_memory self.now.stage }
    {
        matches!(self.stage, Stage::OutOfMemory)
    }

    /// Whether no byte changes anything any more: a fault is known, or memory ran out.
    pub fn is_over(&self) -> bool
        ensures { result ≡ is_over self.now.stage }
    {
        matches!(self.stage, Stage::Faulty(_) | Stage::OutOfMemory)
    }

    /// The picture, where the input ends at this place. Takes no memory.
    pub fn finish(self, end: u64) -> Result<Picture, ReadError>
        ensures read { is_out_of_memory self.stage ≡ false → Answers result (reading self end end []) }
        ensures memory { IsTrue (is_out_of_memory self.stage) ↔ (result ≡ Err ReadError.OutOfMemory) }
    {
        match self.stage {
            Stage::Header(field, lexer) => Err(self.last_fault(field, lexer, end)),
            Stage::Samples => self.finish_samples(end),
            Stage::Form | Stage::LowByte(_) => Err(truncated(end)),
            Stage::Faulty(fault) => Err(ReadError::Fault(fault)),
            Stage::OutOfMemory => Err(ReadError::OutOfMemory),
        }
    }

    // The fault of an input that ends in its header: that of its last token, or that it ends too early.
    fn last_fault(&self, field: Field, lexer: Lexer, end: u64) -> ReadError
        requires { self.now.stage ≡ Stage.Header field lexer }
        ensures { IsFaultOf self.now end result }
    {
        let width = self.width;
        let Some(Found { at, token }) = last(lexer) else {
            return truncated(end);
        };
        match field {
            Field::Width => last_error(rules::width(at, token), end),
            Field::Height => last_error(rules::height(width, at, token), end),
            Field::Greatest => last_error(rules::greatest(at, token), end),
        }
    }

    fn finish_samples(self, end: u64) -> Result<Picture, ReadError>
        requires { self.stage ≡ Stage.Samples }
        ensures read { Answers result (reading self end end []) }
        ensures memory { result ≢ Err ReadError.OutOfMemory }
    {
        if self.samples.len() == self.pixels() {
            let Parser {
                width,
                height,
                max,
                samples,
                ..
            } = self;
            Ok(Picture::new(width, height, max, samples))
        } else {
            Err(truncated(end))
        }
    }
}
