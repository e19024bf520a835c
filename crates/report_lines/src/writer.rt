ghost use Rattle.std.specs.Prelude.{◌≡◌, ◌<◌, ◌≤◌, [], ◌++◌, length, drop, Some, OnOk, OnErr};
ghost use Rattle.hg_base.specs.Outside.{AppendsPrefix};
ghost use Rattle.hg_base.specs.Text.{line, headed_line};
ghost use Rattle.report_lines.specs.Lines.{spaced};

use itoa::write_digits;
use std::alloc::{AllocError, Global};
use std::marker::Model;

// The room for the longest line: six numbers of at most twenty digits, a space before each, and the line feed.
const LINE: usize = 127;

/// A text that is written line by line.
#[derive(Drop)]
pub struct LineWriter {
    text: Vec<u8>,
    // where a line is made, from its end to its front
    line: [u8; LINE],
}

impl Model for LineWriter {
    ghost use Rattle.std.specs.Prelude.{ℕ, List};

    ghost Value = { List ℕ };

    ghost view = { λ writer. writer.text.items };
}

impl LineWriter {
    /// No text yet.
    pub fn new(alloc: Global) -> LineWriter
        ensures { result ≡ [] }
    {
        LineWriter {
            text: Vec::new(alloc),
            line: [0; LINE],
        }
    }

    /// Takes room for so many more bytes. The text stays.
    pub(crate) fn reserve(&mut self, room: usize) -> Result<(), AllocError>
        ensures { self.new ≡ self.old }
    {
        self.text.reserve(room)
    }

    /// Appends a line of these numbers, of one to six: in plain decimal, one space between, one line feed at the end.
    /// Where there is no memory left the text stays.
    pub fn push_line(&mut self, numbers: &[u64]) -> Result<(), AllocError>
        requires some { 0 < length numbers.now }
        requires few { length numbers.now ≤ 6 }
        ensures all { OnOk result (self.new ≡ self.old ++ line numbers.now) }
        ensures stays { OnErr result (self.new ≡ self.old) }
    {
        let start = fill(&mut self.line, numbers);
        append(&mut self.text, &self.line, start + 1)
    }

    /// Appends a line that begins with a word, with the numbers after it, one to six. Where there is no memory left the
    /// text may end in the word.
    pub fn push_headed_line(&mut self, word: &str, numbers: &[u64]) -> Result<(), AllocError>
        requires some { 0 < length numbers.now }
        requires few { length numbers.now ≤ 6 }
        ensures all { OnOk result (self.new ≡ self.old ++ headed_line word.now numbers.now) }
        ensures prefix { OnErr result (AppendsPrefix (Some self.old) (Some self.new) (headed_line word.now numbers.now)) }
    {
        let start = fill(&mut self.line, numbers);
        self.text.extend_from_slice(word.as_bytes())?;
        append(&mut self.text, &self.line, start)
    }

    /// The text.
    pub fn into_text(self) -> Vec<u8>
        ensures { result.items ≡ self }
    {
        let LineWriter { text, line: _ } = self;
        text
    }
}

// Appends the bytes from a place on. Where there is no memory left the text stays.
fn append(text: &mut Vec<u8>, bytes: &[u8], start: usize) -> Result<(), AllocError>
    requires { start ≤ length bytes.now }
    ensures all { OnOk result (text.new.items ≡ text.old.items ++ drop start bytes.now) }
    ensures stays { OnErr result (text.new.items ≡ text.old.items) }
{
    text.extend_from_slice(&bytes[start..])
}

// Writes numbers with a space before each, and a line feed behind them, so that they end where the line does. The answer is
// where they begin.
fn fill(line: &mut [u8; LINE], numbers: &[u64]) -> usize
    requires { length numbers.now ≤ 6 }
    ensures within { result < 127 }
    ensures written { drop result line.new ≡ spaced numbers.now }
{
    let mut start = LINE - 1;
    line[start] = b'\n';
    let mut left = numbers.len();
    while 0 < left {
        left -= 1;
        start = write_digits(numbers[left], line, start) - 1;
        line[start] = b' ';
    }
    start
}
