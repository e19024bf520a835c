// The line that says why a run was refused. It is composed without memory.
ghost use Rattle.std.specs.Prelude.{◌≡◌, ◌+◌, ◌≤◌, [], ◌∷◌, ◌++◌, length, decimal, codes};
ghost use Rattle.higra_cli.specs.Ending.{fault_line, input_words, name_of, said};

use super::status::Status;
use hg_base::{FaultKind, InputFault};
use std::marker::Model;

// No fault line is longer.
const ROOM: usize = 96;

/// The line of text that says why a run was refused. A run that wasn't has the empty line.
#[derive(Drop)]
pub struct FaultLine {
    bytes: [u8; ROOM],
    len: usize,
}

impl Model for FaultLine {
    ghost use Rattle.std.specs.Prelude.{ℕ, ◌≤◌, List, take};

    ghost Value = { List ℕ };

    ghost view = { λ l. take l.len l.bytes };

    ghost invariant = { λ l. l.len ≤ 96 };
}

impl FaultLine {
    /// The fault line of the status.
    pub fn of(status: &Status) -> FaultLine
        ensures { result ≡ fault_line status.now }
    {
        match status {
            Status::Success(_) => FaultLine::empty(),
            Status::Usage => FaultLine::saying("usage"),
            Status::Input(fault) => FaultLine::of_input(fault),
            Status::ReadFailed => FaultLine::saying("read failed"),
            Status::WriteFailed => FaultLine::saying("write failed"),
            Status::OutOfMemory => FaultLine::saying("out of memory"),
        }
    }

    /// The bytes of the line.
    pub fn as_bytes(&self) -> &[u8]
        ensures { result.now ≡ self.now }
    {
        &self.bytes[..self.len]
    }

    fn empty() -> FaultLine
        ensures { result ≡ [] }
    {
        FaultLine {
            bytes: [0; ROOM],
            len: 0,
        }
    }

    // `higra: `, the words and a line feed.
    fn saying(words: &str) -> FaultLine
        requires { length words.now ≤ 80 }
        ensures { result ≡ said words.now }
    {
        let mut line = FaultLine::empty();
        line.put_text("higra: ");
        line.put_text(words);
        line.put(b'\n');
        line
    }

    #[tactic(auto, using(crate::proofs::LineLemmas::line_lengths))]
    fn of_input(fault: &InputFault) -> FaultLine
        ensures { result ≡ said (input_words fault.now) }
    {
        let mut line = FaultLine::empty();
        line.put_text("higra: input ");
        line.put_number(u64::from(fault.kind.number()));
        line.put(b' ');
        line.put_text(kind_name(fault.kind));
        line.put_text(" at ");
        line.put_number(fault.at);
        line.put_text(" value ");
        line.put_number(fault.value);
        line.put(b'\n');
        line
    }

    fn put(&mut self, byte: u8)
        requires { length self.old + 1 ≤ 96 }
        ensures line { self.new ≡ self.old ++ byte ∷ [] }
        ensures len { length self.new ≡ length self.old + 1 }
    {
        self.bytes[self.len] = byte;
        self.len += 1;
    }

    fn put_text(&mut self, text: &str)
        requires { length self.old + length text.now ≤ 96 }
        ensures line { self.new ≡ self.old ++ text.now }
        ensures len { length self.new ≡ length self.old + length text.now }
    {
        for byte in text.as_bytes() {
            self.put(*byte);
        }
    }

    #[tactic(auto, using(std::proofs::lemmas::Fmt::decimal_step, std::proofs::lemmas::Fmt::decimal_digit, crate::proofs::LineLemmas::line_lengths))]
    fn put_number(&mut self, number: u64)
        requires { length self.old + length (decimal number) ≤ 96 }
        ensures line { self.new ≡ self.old ++ decimal number }
        ensures len { length self.new ≡ length self.old + length (decimal number) }
    {
        if number < 10 {
            self.put(b'0' + number as u8);
        } else {
            self.put_number(number / 10);
            self.put(b'0' + (number % 10) as u8);
        }
    }
}

/// The name of a kind of fault.
pub fn kind_name(kind: FaultKind) -> &'static str
    ensures { result.now ≡ name_of kind }
{
    kind.name()
}
