use super::{Sink, Source, write_all};
use crate::fault::Failed;
use crate::gate::{Gate, GateEvent, OpenGate};
use crate::memory::{MemSink, MemSource, QuietSource, TallySink};
use crate::standard::{StdSink, StdSource};
use std::io;
use std::io::{Read, Write};
use std::process::Abort;
use std::test::Fail;

// Reads once into eight dots, and compares the answer and what stands there then.
fn reads<S: Source>(rt: &impl Abort, source: &mut S, want: (Result<usize, Failed>, &[u8])) {
    let mut into = *b"........";
    assert_eq!(rt; source.read(&mut into), want.0);
    assert_eq!(rt; into.as_slice(), want.1);
}

#[test]
fn a_source_in_memory_gives_pieces_and_fails_where_it_is_told(rt: HostRuntime) -> Result<(), Fail> {
    let bytes = b"0123456789ab".to_vec(rt.alloc())?;
    let fails = vec![in rt.alloc(); 2]?;
    let mut source = MemSource::new(bytes, 5, fails);
    reads(&rt, &mut source, (Ok(5), b"01234..."));
    reads(&rt, &mut source, (Err(Failed), b"........"));
    reads(&rt, &mut source, (Ok(5), b"56789..."));
    reads(&rt, &mut source, (Ok(2), b"ab......"));
    reads(&rt, &mut source, (Ok(0), b"........"));
    Ok(())
}

#[test]
fn a_quiet_source_gives_what_there_is_room_for(rt: HostRuntime) -> Result<(), Fail> {
    let mut source = QuietSource::new(b"0123456789".to_vec(rt.alloc())?);
    reads(&rt, &mut source, (Ok(8), b"01234567"));
    reads(&rt, &mut source, (Ok(2), b"89......"));
    reads(&rt, &mut source, (Ok(0), b"........"));
    Ok(())
}

#[test]
fn a_sink_in_memory_takes_pieces_up_to_its_room(rt: HostRuntime) -> Result<(), Fail> {
    let fails = vec![in rt.alloc(); 2]?;
    let mut sink = MemSink::with_room(rt.alloc(), 5, 4, fails).or(Err("no memory"))?;
    let pieces: [(&[u8], Result<usize, Failed>); 5] = [
        (b"abcdef", Ok(4)),
        (b"ef", Err(Failed)),
        (b"ef", Ok(1)),
        (b"f", Err(Failed)),
        (b"", Ok(0)),
    ];
    for (piece, want) in pieces {
        assert_eq!(rt; sink.write(piece), want);
    }
    assert_eq!(rt; sink.taken(), b"abcde".as_slice());
    Ok(())
}

#[test]
fn writing_all_of_it_stops_at_the_first_fault(rt: HostRuntime) -> Result<(), Fail> {
    // the room, the write that fails, whether all is written, and what is taken
    let rows: [(usize, u64, bool, &[u8]); 3] = [
        (40, 0, true, b"higra: read failed\n"),
        (40, 2, false, b"higr"),
        (5, 0, false, b"higra"),
    ];
    for (room, fails, is_written, taken) in rows {
        let fails = vec![in rt.alloc(); fails]?;
        let mut sink = MemSink::with_room(rt.alloc(), room, 4, fails).or(Err("no memory"))?;
        assert_eq!(rt;
            write_all(&mut sink, b"higra: read failed\n").is_ok(),
            is_written
        );
        assert_eq!(rt; sink.taken(), taken);
    }
    Ok(())
}

#[test]
fn a_tally_counts_what_it_takes(rt: HostRuntime) {
    let mut sink = TallySink::new();
    assert_eq!(rt; sink.bytes(), 0);
    assert_eq!(rt; write_all(&mut sink, b"higra"), Ok(()));
    assert_eq!(rt; sink.write(b" tree"), Ok(5));
    assert_eq!(rt; sink.bytes(), 10);
}

// Gives three bytes at most in a read, and fails once, at its second read.
#[derive(Drop)]
struct FailsOnce<'a> {
    bytes: &'a [u8],
    reads: u8,
}

impl Read for FailsOnce<'_> {
    fn read(&mut self, into: &mut [u8]) -> io::Result<usize> {
        self.reads = self.reads.saturating_add(1);
        if self.reads == 2 {
            return Err(io::Error::from(io::ErrorKind::Interrupted));
        }
        let most = into.len().min(3);
        self.bytes.read(&mut into[..most])
    }
}

#[test]
fn a_source_over_a_reader_fails_where_the_reader_does(rt: HostRuntime) {
    let mut source = StdSource::new(FailsOnce {
        bytes: b"12345",
        reads: 0,
    });
    reads(&rt, &mut source, (Ok(3), b"123....."));
    reads(&rt, &mut source, (Err(Failed), b"........"));
    reads(&rt, &mut source, (Ok(2), b"45......"));
    reads(&rt, &mut source, (Ok(0), b"........"));
}

// What a writer does at a write.
#[derive(Clone, Copy)]
enum Turn {
    Takes(usize),
    Fails,
    FailsToFlush,
}

// A writer that takes, or not, as its turns say, and keeps what it took.
#[derive(Drop)]
struct Choppy<'a> {
    turns: &'a [Turn],
    at: usize,
    taken: Vec<u8>,
}

impl Write for Choppy<'_> {
    fn write(&mut self, piece: &[u8]) -> io::Result<usize> {
        let turn = self.turns.get(self.at).copied().unwrap_or(Turn::Fails);
        self.at = self.at.saturating_add(1);
        let most = match turn {
            Turn::Takes(most) => most.min(piece.len()),
            Turn::FailsToFlush => piece.len(),
            Turn::Fails => return Err(io::Error::from(io::ErrorKind::BrokenPipe)),
        };
        self.taken.extend_from_slice(&piece[..most])?;
        Ok(most)
    }

    fn flush(&mut self) -> io::Result<()> {
        match self.turns.get(self.at.saturating_sub(1)) {
            Some(Turn::Takes(_)) => Ok(()),
            _ => Err(io::Error::from(io::ErrorKind::BrokenPipe)),
        }
    }
}

#[test]
fn a_sink_over_a_writer_fails_where_the_writer_does(rt: HostRuntime) -> Result<(), Fail> {
    let turns = [
        Turn::Takes(9),
        Turn::Takes(2),
        Turn::Takes(0),
        Turn::Fails,
        Turn::FailsToFlush,
        Turn::Takes(9),
    ];
    let mut writer = Choppy {
        turns: &turns,
        at: 0,
        taken: Vec::new(rt.alloc()),
    };
    let mut sink = StdSink::new(&mut writer);
    let pieces: [(&[u8], Result<usize, Failed>); 6] = [
        (b"ab", Ok(2)),
        (b"cdef", Ok(2)),
        (b"ef", Err(Failed)),
        (b"ef", Err(Failed)),
        (b"ef", Err(Failed)),
        (b"", Ok(0)),
    ];
    for (piece, want) in pieces {
        assert_eq!(rt; sink.write(piece), want);
    }
    assert_eq!(rt; writer.taken.as_slice(), b"abcdef".as_slice());
    Ok(())
}

fn pass_all<G: Gate>(gate: &G) {
    gate.pass(0, GateEvent::Drew(1));
    gate.pass(1, GateEvent::Merging(2));
    gate.pass(2, GateEvent::Arrived(3));
}

#[test]
fn the_open_gate_lets_all_pass() {
    pass_all(&OpenGate);
}
