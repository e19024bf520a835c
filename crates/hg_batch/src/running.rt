// A whole batch.
ghost use Rattle.std.specs.Prelude.{◌≡◌, ◌≢◌, ◌⊎◌, ◌<◌, ◌≤◌, ℕ, List, Some, None, IfErr, IfOk, length};
ghost use Rattle.std.specs.Io.KnownBytes.{Appends};
ghost use Rattle.hg_base.specs.Outside.{AppendsPrefix, Rose};
ghost use Rattle.hg_base.specs.declared.fault.InputFault.{InputFault};
ghost use Rattle.higra_input.specs.Reading.{GaveAtMost, told};
ghost use Rattle.higra_words.specs.Allowed.{CanReport};
ghost use Rattle.higra_input.specs.Getting.{StoodStill};
ghost use Rattle.higra_words.specs.declared.request.Request.{Request};
ghost use Rattle.hg_batch.specs.Batch.{batch_fault, batch_text};
ghost use Rattle.hg_batch.specs.Ending.{batch_line};
ghost use Rattle.hg_batch.specs.Running.{Batches, Ends, EndsWork, HasFault, IsAnswerTo, MakesText, batch_request};
ghost use Rattle.hg_batch.specs.declared.ending.BatchStatus.TheVariants as statuses;

use super::batch::Batch;
use super::cutting::{piece_count, read_pieces, vertex_count};
use super::ending::{BatchStatus, line_of};
use super::reading::read_all;
use hg_base::{FaultKind, InputFault, Sink, Source, write_all};
use higra_words::{Form, Request, Words, WordsFault, request_of};
use job_shift::run_jobs;
use std::alloc::Global;
use std::thread::Threads;

// The most jobs of a batch, and the most vertices of all its edge lists.
const MOST_JOBS: usize = 4_096;

const MOST_VERTICES: u64 = 4_194_304;

/// Runs a batch: reads the words, then the source to its end, cuts it at each form feed and reads each piece as an edge
/// list of its own. The request's workers draw the pieces' numbers from one shift, and make the text of each: the report
/// that the words ask for, or the fault of the piece. All texts are then written to `out` in the pieces' order. Where
/// the batch as a whole is refused, `err` gets the fault line of the status.
///
/// The refusals come in this order: the words; each read, its failure first and then an input that is too long; too many
/// jobs; too many vertices in all; the writes. Memory may run out at any point before the first byte of `out` is written.
/// A failure of `err` changes nothing.
pub fn run_batch<S: Source, K: Sink, E: Sink>(
    rt: &(impl Threads + Sync),
    alloc: Global,
    words: &Words,
    source: &mut S,
    out: &mut K,
    err: &mut E,
) -> BatchStatus
    // What it did, by how it ended.
    ensures ends { Ends words.now (told (S.left source.old) (S.faults source.old)) (told (S.left source.new) (S.faults source.new)) (told (K.content out.old) (K.faults out.old)) (told (K.content out.new) (K.faults out.new)) result }

    // The words.
    ensures usage { result ≡ BatchStatus.Usage → batch_request words.now ≡ None }
    ensures no_request { batch_request words.now ≡ None → (result ≡ BatchStatus.Usage) ⊎ (result ≡ BatchStatus.OutOfMemory) }
    ensures unread { result ≡ BatchStatus.Usage → source.new ≡ source.old }

    // The source.
    ensures most { GaveAtMost 134217729 (S.left source.old) (S.left source.new) }
    ensures read_failed { result ≡ BatchStatus.ReadFailed → Rose (S.faults source.old) (S.faults source.new) }
    ensures read_fault { S.faults source.old < S.faults source.new → (result ≡ BatchStatus.ReadFailed) ⊎ (result ≡ BatchStatus.OutOfMemory) }
    ensures input { (fault : InputFault) → result ≡ BatchStatus.Input fault → HasFault (S.left source.old) (S.left source.new) fault }

    // Where the source tells its bytes and no read fails, the status is the one for these bytes.
    ensures complete { (request : Request) (bytes : List ℕ) → batch_request words.now ≡ Some request → S.left source.old ≡ Some bytes → StoodStill (S.faults source.old) (S.faults source.new) → IsAnswerTo bytes result }

    // The texts.
    ensures success { result ≡ BatchStatus.Success → Batches words.now (S.left source.old) (S.left source.new) (Appends (K.content out.old) (K.content out.new)) }
    ensures begun { result ≡ BatchStatus.WriteFailed → Batches words.now (S.left source.old) (S.left source.new) (AppendsPrefix (K.content out.old) (K.content out.new)) }

    // The sink of the texts.
    ensures write_failed { result ≡ BatchStatus.WriteFailed → Rose (K.faults out.old) (K.faults out.new) }
    ensures write_fault { K.faults out.old < K.faults out.new → result ≡ BatchStatus.WriteFailed }
    ensures unwritten { result ≢ BatchStatus.Success → result ≢ BatchStatus.WriteFailed → out.new ≡ out.old }

    // The sink of the fault line.
    ensures silent { result ≡ BatchStatus.Success → err.new ≡ err.old }
    ensures line { AppendsPrefix (E.content err.old) (E.content err.new) (batch_line result) }
    ensures whole_line { StoodStill (E.faults err.old) (E.faults err.new) → Appends (E.content err.old) (E.content err.new) (batch_line result) }
{
    match work(rt, alloc, words, source, out) {
        Ok(()) => BatchStatus::Success,
        Err(status) => {
            tell(status, err);
            status
        }
    }
}

// All of a batch but the fault line. An error is the status with which it ends.
fn work<S: Source, K: Sink>(
    rt: &(impl Threads + Sync),
    alloc: Global,
    words: &Words,
    source: &mut S,
    out: &mut K,
) -> Result<(), BatchStatus>
    ensures ends { EndsWork words.now (told (S.left source.old) (S.faults source.old)) (told (S.left source.new) (S.faults source.new)) (told (K.content out.old) (K.faults out.old)) (told (K.content out.new) (K.faults out.new)) result }
    ensures refused { IfErr result (λ status. status ≢ BatchStatus.Success) }
    ensures most { GaveAtMost 134217729 (S.left source.old) (S.left source.new) }
    ensures unread { IfErr result (λ status. status ≡ BatchStatus.Usage → source.new ≡ source.old) }
    ensures unwritten { IfErr result (λ status. status ≢ BatchStatus.WriteFailed → out.new ≡ out.old) }
{
    let request = asked(alloc, words)?;
    let bytes = read_all(alloc, source)?;
    let text = text_for(rt, alloc, &request, &bytes)?;
    match write_all(out, &text) {
        Ok(()) => Ok(()),
        Err(_) => Err(BatchStatus::WriteFailed),
    }
}

// Writes the fault line of the status, as far as the sink takes it.
fn tell<E: Sink>(status: BatchStatus, err: &mut E)
    requires { status ≢ statuses.Success }
    ensures line { AppendsPrefix (E.content err.old) (E.content err.new) (batch_line status) }
    ensures whole_line { StoodStill (E.faults err.old) (E.faults err.new) → Appends (E.content err.old) (E.content err.new) (batch_line status) }
{
    let line = line_of(status);
    let _ = write_all(err, line.as_bytes());
}

// The request that the words give, if a batch can be asked for it.
fn asked(alloc: Global, words: &Words) -> Result<Request, BatchStatus>
    ensures request { IfOk result (λ request. batch_request words.now ≡ Some request) }
    ensures can { IfOk result CanReport }
    ensures usage { IfErr result (λ status. (status ≡ statuses.OutOfMemory) ⊎ ((status ≡ statuses.Usage) × (batch_request words.now ≡ None))) }
{
    match request_of(alloc, words) {
        Ok(request) => match (request.made, request.form) {
            (None, Form::Text) => Ok(request),
            _ => Err(BatchStatus::Usage),
        },
        Err(WordsFault::Usage) => Err(BatchStatus::Usage),
        Err(WordsFault::OutOfMemory) => Err(BatchStatus::OutOfMemory),
    }
}

// The texts of all jobs, end to end; or the fault of the batch as a whole, or that memory ran out.
fn text_for(
    rt: &(impl Threads + Sync),
    alloc: Global,
    request: &Request,
    bytes: &[u8],
) -> Result<Vec<u8>, BatchStatus>
    requires short { length bytes.now ≤ 134217728 }
    requires can { CanReport request.now }
    ensures { MakesText request.now bytes.now result }
{
    let count = piece_count(bytes);
    if MOST_JOBS < count {
        return Err(refused(FaultKind::TooManyJobs, count as u64));
    }
    let pieces = read_pieces(rt, alloc, bytes, request.workers)?;
    let vertices = vertex_count(&pieces);
    if MOST_VERTICES < vertices {
        return Err(refused(FaultKind::TooManyVertices, vertices));
    }
    // Each job is small beside the batch: it is done by the one worker that drew its number.
    let batch = Batch {
        request: Request {
            workers: 1,
            ..*request
        },
        pieces,
    };
    Ok(run_jobs(rt, alloc, &batch, request.workers)?)
}

// A fault of the batch as a whole.
fn refused(kind: FaultKind, value: u64) -> BatchStatus
    ensures { result ≡ statuses.Input (record { kind = kind; at = 0; value = value }) }
{
    BatchStatus::Input(InputFault { kind, at: 0, value })
}
