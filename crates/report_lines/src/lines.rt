ghost use Rattle.std.specs.Prelude.{◌≡◌, ℕ, ◌-◌, ◌<◌, ◌≤◌, ◌++◌, List, IfOk, OnOk};
ghost use Rattle.report_lines.specs.Lines.{lines_from};

use crate::writer::LineWriter;
use std::alloc::{AllocError, Global};

/// A list of lines, numbered from 0.
pub trait Lines: Sync {
    // how many lines there are
    ghost count: { Self → ℕ };

    // the bytes of the line of a number
    ghost line: { Self → ℕ → List ℕ };

    /// How many lines there are.
    fn len(&self) -> usize
        ensures { result ≡ count self.now };

    /// How many bytes of room to take for a line: a hint. Longer lines are written too, and no clause rests on it.
    fn room(&self) -> usize;

    /// Appends the line of a number.
    fn write(&self, text: &mut LineWriter, i: usize) -> Result<(), AllocError>
        requires { i < count self.now }
        ensures { OnOk result (text.new ≡ text.old ++ line self.now i) };
}

impl LineWriter {
    /// Appends lines. Where there is no memory left the text may end in a part of them.
    pub fn push_lines<L: Lines>(&mut self, lines: &L) -> Result<(), AllocError>
        ensures { OnOk result (self.new ≡ self.old ++ lines_from (L.line lines.now) 0 (L.count lines.now)) }
    {
        self.push_some(lines, 0, lines.len())
    }

    // Appends the lines from a number up to, and without, another.
    fn push_some<L: Lines>(&mut self, lines: &L, from: usize, to: usize) -> Result<(), AllocError>
        requires order { from ≤ to }
        requires within { to ≤ L.count lines.now }
        ensures { OnOk result (self.new ≡ self.old ++ lines_from (L.line lines.now) from (to - from)) }
    {
        self.reserve((to - from).saturating_mul(lines.room()))?;
        for i in from..to {
            lines.write(self, i)?;
        }
        Ok(())
    }
}

/// The lines from a number up to, and without, another.
pub(crate) fn lines_text<L: Lines>(
    alloc: Global,
    lines: &L,
    from: usize,
    to: usize,
) -> Result<Vec<u8>, AllocError>
    requires order { from ≤ to }
    requires within { to ≤ L.count lines.now }
    ensures { IfOk result (λ text. text.items ≡ lines_from (L.line lines.now) from (to - from)) }
{
    let mut text = LineWriter::new(alloc);
    text.push_some(lines, from, to)?;
    Ok(text.into_text())
}
