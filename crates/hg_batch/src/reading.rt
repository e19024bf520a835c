// Reading a source to its end, into one list of bytes.
ghost use Rattle.std.specs.Prelude.{◌≡◌, ◌<◌, ◌≤◌, length, take, IfOk};
ghost use Rattle.std.specs.Io.KnownBytes.{ReadConsumes};
ghost use Rattle.hg_base.specs.Outside.{HasCause};
ghost use Rattle.higra_input.specs.Reading.{GaveAtMost, told};
ghost use Rattle.hg_batch.specs.Getting.{Gets};

use super::ending::BatchStatus;
use hg_base::{Failed, FaultKind, InputFault, Source};
use std::alloc::Global;

// The most bytes of an input.
const MOST_BYTES: usize = 134_217_728;

// The most bytes that one read asks for.
const PIECE: usize = 65_536;

const TOO_LONG: InputFault = InputFault {
    kind: FaultKind::TooLong,
    at: 134_217_728,
    value: 134_217_729,
};

/// Reads the source to its end, or one byte past the most bytes of an input. An error is the status with which the
/// batch ends.
pub(crate) fn read_all<S: Source>(alloc: Global, source: &mut S) -> Result<Vec<u8>, BatchStatus>
    ensures gets { Gets (told (S.left source.old) (S.faults source.old)) (told (S.left source.new) (S.faults source.new)) result }
    ensures most { GaveAtMost 134217729 (S.left source.old) (S.left source.new) }
{
    let mut buffer = vec![in alloc; 0u8; PIECE]?;
    gather(alloc, source, &mut buffer)
}

// Gathers the pieces that the source gives, by way of a buffer.
fn gather<S: Source>(
    alloc: Global,
    source: &mut S,
    buffer: &mut [u8],
) -> Result<Vec<u8>, BatchStatus>
    requires room { 0 < length buffer.old }
    ensures gets { Gets (told (S.left source.old) (S.faults source.old)) (told (S.left source.new) (S.faults source.new)) result }
    ensures most { GaveAtMost 134217729 (S.left source.old) (S.left source.new) }
{
    let mut bytes = Vec::new(alloc);
    loop {
        let most = MOST_BYTES + 1 - bytes.len();
        let Ok(count) = next_bytes(source, buffer, most) else {
            return Err(BatchStatus::ReadFailed);
        };
        if count == 0 {
            return Ok(bytes);
        }
        if count == most {
            return Err(BatchStatus::Input(TOO_LONG));
        }
        bytes.extend_from_slice(&buffer[..count])?;
    }
}

// Moves the next bytes of the source to the front of the buffer, so many at most.
fn next_bytes<S: Source>(source: &mut S, buffer: &mut [u8], most: usize) -> Result<usize, Failed>
    requires some { 0 < most }
    requires room { 0 < length buffer.old }
    ensures most { IfOk result (λ n. n ≤ most) }
    ensures within { IfOk result (λ n. n ≤ length buffer.new) }
    ensures bytes { ReadConsumes (S.left source.old) (S.left source.new) result buffer.new }
    ensures cause { HasCause (S.faults source.old) (S.faults source.new) result }
{
    let room = most.min(buffer.len());
    source.read(&mut buffer[..room])
}
