// A whole run.
ghost use Rattle.std.specs.Prelude.{◌≡◌, ◌≢◌, ◌⊎◌, ◌<◌, ℕ, List, Some, None, IfErr};
ghost use Rattle.std.specs.Io.KnownBytes.{Appends};
ghost use Rattle.hg_base.specs.Outside.{AppendsPrefix, Rose};
ghost use Rattle.hg_base.specs.declared.fault.InputFault.{InputFault};
ghost use Rattle.merge_board.specs.Seats.{ReceiptState};
ghost use Rattle.higra_words.specs.declared.request.Made.{Made};
ghost use Rattle.higra_input.specs.Getting.{AreBytesOf, StoodStill};
ghost use Rattle.higra_input.specs.Inputs.{too_long};
ghost use Rattle.higra_input.specs.Reading.{GaveAtMost, GaveTooMuch, told};
ghost use Rattle.higra_cli.specs.Ending.{fault_line};
ghost use Rattle.contour_run.specs.Command.{contours_requested};
ghost use Rattle.contour_run.specs.Running.{CanDraw, Draws, DrawsWith, Ends, EndsWriting, HasStatus, HasTaken, IsAnswerTo};

use super::drawing::draw;
use super::request::{ContourRequest, contour_request_of};
use hg_base::{Gate, Sink, Source, write_all};
use higra_cli::{Status, WriteFault, tell};
use higra_input::{Input, input_for};
use higra_words::Words;
use merge_board::Receipt;
use std::alloc::Global;
use std::thread::Threads;

/// Runs the program: reads the words, then the source to its end, draws the contours of the picture in memory and writes them
/// to `out`. The tree of the picture's graph is made by the request's workers, which pass the gate, on the board of its
/// tiles, and Success has the receipt of that board. Where the run is refused, `err` gets the fault line of the status.
///
/// The refusals come in this order: the words; each read, its failure first and then an input that is too long; the faults
/// of the input; that it is no picture, or has too many tiles; the writes. Memory may run out at any point before the
/// first byte of `out` is written. A failure of `err` changes nothing.
#[tactic(auto, using(crate::proofs::RunningLemmas::complete_from))]
pub fn run_contours<S: Source, K: Sink, E: Sink, G: Gate>(
    rt: &(impl Threads + Sync),
    alloc: Global,
    words: &Words,
    source: &mut S,
    out: &mut K,
    err: &mut E,
    gate: &G,
) -> Status
    // The words.
    ensures usage { result ≡ Status.Usage → contours_requested words.now ≡ None }
    ensures no_request { contours_requested words.now ≡ None → (result ≡ Status.Usage) ⊎ (result ≡ Status.OutOfMemory) }
    ensures unread { result ≡ Status.Usage → source.new ≡ source.old }

    // The source.
    ensures made { (request : ContourRequest) (m : Made) → contours_requested words.now ≡ Some request → request.made ≡ Some m → source.new ≡ source.old }
    ensures most { GaveAtMost 134217729 (S.left source.old) (S.left source.new) }
    ensures read_failed { result ≡ Status.ReadFailed → Rose (S.faults source.old) (S.faults source.new) }
    ensures read_fault { S.faults source.old < S.faults source.new → (result ≡ Status.ReadFailed) ⊎ (result ≡ Status.OutOfMemory) }
    ensures input { (fault : InputFault) → result ≡ Status.Input fault → HasStatus words.now (S.left source.old) (Status.Input fault) }
    ensures taken { (fault : InputFault) → result ≡ Status.Input fault → HasTaken words.now (S.left source.old) (S.left source.new) fault }
    ensures too_long { (had bytes : List ℕ) → S.left source.old ≡ Some had → GaveTooMuch (S.left source.old) (S.left source.new) bytes → StoodStill (S.faults source.old) (S.faults source.new) → (result ≡ Status.Input too_long) ⊎ (result ≡ Status.OutOfMemory) }

    // Where the source tells its bytes and no read fails, the status is the one for these bytes.
    ensures complete { (request : ContourRequest) (bytes : List ℕ) → contours_requested words.now ≡ Some request → AreBytesOf request.made (S.left source.old) bytes → StoodStill (S.faults source.old) (S.faults source.new) → IsAnswerTo request bytes result }

    // The contours.
    ensures success { (receipt : ReceiptState) → result ≡ Status.Success receipt → Draws words.now (S.left source.old) (S.left source.new) (Appends (K.content out.old) (K.content out.new)) }
    ensures receipt { (receipt : ReceiptState) → result ≡ Status.Success receipt → DrawsWith words.now (S.left source.old) (S.left source.new) (Appends (K.content out.old) (K.content out.new)) receipt }
    ensures begun { result ≡ Status.WriteFailed → Draws words.now (S.left source.old) (S.left source.new) (AppendsPrefix (K.content out.old) (K.content out.new)) }

    // The sink of the contours.
    ensures write_failed { result ≡ Status.WriteFailed → Rose (K.faults out.old) (K.faults out.new) }
    ensures write_fault { K.faults out.old < K.faults out.new → result ≡ Status.WriteFailed }
    ensures unwritten { ((receipt : ReceiptState) → result ≢ Status.Success receipt) → result ≢ Status.WriteFailed → out.new ≡ out.old }

    // The sink of the fault line.
    ensures silent { (receipt : ReceiptState) → result ≡ Status.Success receipt → err.new ≡ err.old }
    ensures line { AppendsPrefix (E.content err.old) (E.content err.new) (fault_line result) }
    ensures whole_line { StoodStill (E.faults err.old) (E.faults err.new) → Appends (E.content err.old) (E.content err.new) (fault_line result) }
{
    let status = work(rt, alloc, words, source, out, gate);
    tell(&status, err);
    status
}

// All of a run but the fault line: the status with which it ends.
#[tactic(auto, using(crate::proofs::RunningLemmas::made_of_one))]
fn work<S: Source, K: Sink, G: Gate>(
    rt: &(impl Threads + Sync),
    alloc: Global,
    words: &Words,
    source: &mut S,
    out: &mut K,
    gate: &G,
) -> Status
    ensures ends { Ends words.now (told (S.left source.old) (S.faults source.old)) (told (S.left source.new) (S.faults source.new)) (told (K.content out.old) (K.faults out.old)) (told (K.content out.new) (K.faults out.new)) result }
    ensures most { GaveAtMost 134217729 (S.left source.old) (S.left source.new) }
    ensures unread { result ≡ Status.Usage → source.new ≡ source.old }
    ensures made { (request : ContourRequest) (m : Made) → contours_requested words.now ≡ Some request → request.made ≡ Some m → source.new ≡ source.old }
    ensures unwritten { ((receipt : ReceiptState) → result ≢ Status.Success receipt) → result ≢ Status.WriteFailed → out.new ≡ out.old }
{
    let request = match contour_request_of(alloc, words) {
        Ok(request) => request,
        Err(fault) => return Status::from(fault),
    };
    let input = match input_for(alloc, request.made, source) {
        Ok(input) => input,
        Err(fault) => return Status::from(fault),
    };
    match write_drawn(rt, alloc, &request, &input, out, gate) {
        Ok(receipt) => Status::Success(receipt),
        Err(fault) => Status::from(fault),
    }
}

// Draws the contours that are asked for and writes them.
#[tactic(auto, using(crate::proofs::RunningLemmas::contours_written, crate::proofs::RunningLemmas::none_drawn))]
fn write_drawn<K: Sink, G: Gate>(
    rt: &(impl Threads + Sync),
    alloc: Global,
    request: &ContourRequest,
    input: &Input,
    out: &mut K,
    gate: &G,
) -> Result<Receipt, WriteFault>
    requires { CanDraw request.now }
    ensures ends { EndsWriting request.now input.now (told (K.content out.old) (K.faults out.old)) (told (K.content out.new) (K.faults out.new)) result }
    ensures unwritten { IfErr result (λ fault. fault ≢ WriteFault.WriteFailed → out.new ≡ out.old) }
{
    match draw(rt, alloc, request, input, gate) {
        Ok((bytes, receipt)) => match write_all(out, &bytes) {
            Ok(()) => Ok(receipt),
            Err(_) => Err(WriteFault::WriteFailed),
        },
        Err(fault) => Err(WriteFault::Report(fault)),
    }
}
