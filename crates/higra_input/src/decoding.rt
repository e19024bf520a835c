// Decoding an input whose first bytes have told its form.
ghost use Rattle.std.specs.Prelude.{◌≡◌, ◌+◌, ◌≤◌, ℕ, true, false, List, [], length, IfOk};
ghost use Rattle.graph_reader.specs.Progress as edges;
ghost use Rattle.pgm_reader.specs.Progress as pictures;
ghost use Rattle.pgm_reader.specs.Pgm.{is_picture};
ghost use Rattle.higra_input.specs.Inputs.{read_as};
ghost use Rattle.higra_input.specs.Feeding.{EndsDecoding, HasRead, ReadsOn, reads_picture, taken};

use super::input::Input;
use graph_reader::Decoder;
use hg_base::{OutOfMemory, ReadError};
use pgm_reader::{PictureDecoder, is_picture};
use std::alloc::Global;

/// A reader of edge lists or of pictures.
#[derive(Drop)]
pub(crate) enum InputDecoder {
    Edges(Decoder),
    Picture(PictureDecoder),
}

impl InputDecoder {
    /// The decoder for an input that begins with these bytes, by the form that they tell.
    pub(crate) fn new(alloc: Global, first: &[u8]) -> Result<InputDecoder, OutOfMemory>
        ensures form { IfOk result (λ d. reads_picture d ≡ is_picture first.now) }
        ensures taken { IfOk result (λ d. taken d ≡ 0) }
        ensures read { IfOk result (λ d. HasRead d []) }
    {
        if is_picture(first) {
            Ok(InputDecoder::Picture(PictureDecoder::new(alloc)?))
        } else {
            Ok(InputDecoder::Edges(Decoder::new(alloc)?))
        }
    }

    /// Reads the next piece.
    pub(crate) fn feed(&mut self, piece: &[u8]) -> Result<(), OutOfMemory>
        requires { taken self.old + length piece.now ≤ 134217728 }
        ensures { ReadsOn self.old self.new piece.now }
    {
        match self {
            InputDecoder::Edges(decoder) => decoder.feed(piece),
            InputDecoder::Picture(decoder) => decoder.feed(piece),
        }
    }

    /// How many bytes were fed.
    pub(crate) fn taken(&self) -> u64
        ensures { result ≡ taken self.now }
    {
        match self {
            InputDecoder::Edges(decoder) => decoder.taken(),
            InputDecoder::Picture(decoder) => decoder.taken(),
        }
    }

    /// What was fed, as an input.
    pub(crate) fn finish(self) -> Result<Input, ReadError>
        ensures { (bytes : List ℕ) → HasRead self bytes → EndsDecoding (read_as (reads_picture self) bytes) result }
    {
        match self {
            InputDecoder::Edges(decoder) => finish_edges(decoder),
            InputDecoder::Picture(decoder) => finish_picture(decoder),
        }
    }
}

// What was fed, as an edge list.
#[tactic(auto, unfolding(crate::specs::Inputs::read_as))]
fn finish_edges(decoder: Decoder) -> Result<Input, ReadError>
    ensures { (bytes : List ℕ) → edges.HasRead decoder bytes → EndsDecoding (read_as false bytes) result }
{
    match decoder.finish() {
        Ok(graph) => Ok(Input::Edges(graph)),
        Err(error) => Err(error),
    }
}

// What was fed, as a picture.
#[tactic(auto, unfolding(crate::specs::Inputs::read_as))]
fn finish_picture(decoder: PictureDecoder) -> Result<Input, ReadError>
    ensures { (bytes : List ℕ) → pictures.HasRead decoder bytes → EndsDecoding (read_as true bytes) result }
{
    match decoder.finish() {
        Ok(picture) => Ok(Input::Picture(picture)),
        Err(error) => Err(error),
    }
}
