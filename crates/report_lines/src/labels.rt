ghost use Rattle.std.specs.Prelude.{◌≡◌, length, IfOk};
ghost use Rattle.report_lines.specs.Lines.{headed_value_line};

use crate::lines::Lines;
use crate::writer::LineWriter;
use hg_base::Labels;
use std::alloc::AllocError;

// The room for a line: a letter and two numbers of at most 7 digits.
const ROOM: usize = 18;

/// A line for each vertex of labels: the word, the vertex and its label.
#[derive(Clone, Copy)]
pub struct HeadedLabels<'a> {
    pub word: &'a str,
    pub labels: &'a Labels,
}

impl Lines for HeadedLabels<'_> {
    ghost count = { λ lines. length lines.labels.now.labels };

    ghost line = { λ lines i. headed_value_line lines.word.now lines.labels.now.labels i };

    fn len(&self) -> usize {
        self.labels.len() as usize
    }

    fn room(&self) -> usize {
        ROOM
    }

    #[tactic(auto, using(std::proofs::lemmas::Option::get_or_from_slice_get))]
    fn write(&self, text: &mut LineWriter, i: usize) -> Result<(), AllocError> {
        let vertices = self.labels.len() as usize;
        prove!(i < vertices);
        let label = u64::from(self.labels.label(i as u32));
        text.push_headed_line(self.word, &[i as u64, label])
    }
}
