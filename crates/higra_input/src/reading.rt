// Reading a source to its end.
ghost use Rattle.std.specs.Prelude.{◌≡◌, ◌≤◌, ◌<◌, length, take, IfOk, MatchResult};
ghost use Rattle.std.specs.Io.KnownBytes.{ReadConsumes};
ghost use Rattle.hg_base.specs.Outside.{HasCause};
ghost use Rattle.higra_input.specs.Feeding.{GaveToOneMore, HasBegun, HasFedAll, HasReadAll, StopsFeeding, taken};
ghost use Rattle.higra_input.specs.Reading.{EndsReading, GaveAtMost, StopsReading, told};

use super::decoding::InputDecoder;
use super::fault::ReadFault;
use super::input::Input;
use hg_base::{Failed, FaultKind, InputFault, Source};
use std::alloc::Global;

// The most bytes of an input.
const MOST_BYTES: u64 = 134_217_728;

// The most bytes that one read asks for.
const PIECE: usize = 65_536;

// How many first bytes tell the form of an input.
const FORM_BYTES: usize = 3;

/// Reads the source to its end, or one byte past the most bytes of an input. It is read to its end
/// also where its first bytes have a fault already.
pub(crate) fn read_input<S: Source>(alloc: Global, source: &mut S) -> Result<Input, ReadFault>
    ensures ends { EndsReading (told (S.left source.old) (S.faults source.old)) (told (S.left source.new) (S.faults source.new)) result }
    ensures most { GaveAtMost 134217729 (S.left source.old) (S.left source.new) }
{
    let mut buffer = vec![in alloc; 0u8; PIECE]?;
    read_through(alloc, source, &mut buffer)
}

// Reads the source through to its end, by way of a buffer.
fn read_through<S: Source>(
    alloc: Global,
    source: &mut S,
    buffer: &mut [u8],
) -> Result<Input, ReadFault>
    requires room { 3 ≤ length buffer.old }
    requires piece { length buffer.old ≤ 65536 }
    ensures ends { EndsReading (told (S.left source.old) (S.faults source.old)) (told (S.left source.new) (S.faults source.new)) result }
    ensures most { GaveAtMost 134217729 (S.left source.old) (S.left source.new) }
{
    match feed_whole(alloc, source, buffer) {
        Ok(decoder) => Ok(decoder.finish()?),
        Err(fault) => Err(fault),
    }
}

// Feeds the whole source to the decoder that its first bytes choose.
fn feed_whole<S: Source>(
    alloc: Global,
    source: &mut S,
    buffer: &mut [u8],
) -> Result<InputDecoder, ReadFault>
    requires room { 3 ≤ length buffer.old }
    requires piece { length buffer.old ≤ 65536 }
    ensures ends { MatchResult result (HasReadAll (told (S.left source.old) (S.faults source.old)) (told (S.left source.new) (S.faults source.new))) (StopsReading (told (S.left source.old) (S.faults source.old)) (told (S.left source.new) (S.faults source.new))) }
    ensures most { GaveAtMost 134217729 (S.left source.old) (S.left source.new) }
{
    let Ok(count) = first_bytes(source, buffer) else {
        return Err(ReadFault::ReadFailed);
    };
    let first = &buffer[..count];
    let mut decoder = InputDecoder::new(alloc, first)?;
    decoder.feed(first)?;
    if count < FORM_BYTES {
        return Ok(decoder);
    }
    match feed_all(source, &mut decoder, buffer) {
        Ok(()) => Ok(decoder),
        Err(fault) => Err(fault),
    }
}

// Moves the first bytes of the source to the front of the buffer: three at least, or all that there are.
fn first_bytes<S: Source>(source: &mut S, buffer: &mut [u8]) -> Result<usize, Failed>
    requires room { 3 ≤ length buffer.old }
    requires piece { length buffer.old ≤ 65536 }
    ensures length { length buffer.new ≡ length buffer.old }
    ensures within { IfOk result (λ n. n ≤ length buffer.new) }
    ensures begun { IfOk result (λ n. HasBegun (told (S.left source.old) (S.faults source.old)) (told (S.left source.new) (S.faults source.new)) (take n buffer.new)) }
    ensures most { GaveAtMost 65536 (S.left source.old) (S.left source.new) }
    ensures cause { HasCause (S.faults source.old) (S.faults source.new) result }
{
    let mut count = 0;
    while count < FORM_BYTES {
        let more = source.read(&mut buffer[count..])?;
        if more == 0 {
            return Ok(count);
        }
        count += more;
    }
    Ok(count)
}

// Feeds the rest of the source to the decoder, in the pieces that it gives.
fn feed_all<S: Source>(
    source: &mut S,
    decoder: &mut InputDecoder,
    buffer: &mut [u8],
) -> Result<(), ReadFault>
    requires short { taken decoder.old ≤ 134217728 }
    requires room { 0 < length buffer.old }
    ensures ends { MatchResult result (λ _. HasFedAll (told (S.left source.old) (S.faults source.old)) (told (S.left source.new) (S.faults source.new)) decoder.old decoder.new) (StopsFeeding (told (S.left source.old) (S.faults source.old)) (told (S.left source.new) (S.faults source.new)) decoder.old) }
    ensures most { GaveToOneMore (told (S.left source.old) (S.faults source.old)) (told (S.left source.new) (S.faults source.new)) decoder.old }
{
    loop {
        let most = MOST_BYTES + 1 - decoder.taken();
        let Ok(count) = next_bytes(source, buffer, most as usize) else {
            return Err(ReadFault::ReadFailed);
        };
        if count == 0 {
            return Ok(());
        }
        if count as u64 == most {
            return Err(ReadFault::Input(TOO_LONG));
        }
        decoder.feed(&buffer[..count])?;
    }
}

const TOO_LONG: InputFault = InputFault {
    kind: FaultKind::TooLong,
    at: MOST_BYTES,
    value: MOST_BYTES + 1,
};

// Moves the next bytes of the source to the front of the buffer, so many at most.
fn next_bytes<S: Source>(source: &mut S, buffer: &mut [u8], most: usize) -> Result<usize, Failed>
    requires some { 0 < most }
    requires room { 0 < length buffer.old }
    ensures most { IfOk result (λ n. n ≤ most) }
    ensures within { IfOk result (λ n. n ≤ length buffer.new) }
    ensures bytes { ReadConsumes (S.left source.old) (S.left source.new) result buffer.new }
    ensures cause { HasCause (S.faults source.old) (S.faults source.new) result }
{
    let room = most.min(buffer.len());
    source.read(&mut buffer[..room])
}
