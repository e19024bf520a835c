ghost use Rattle.std.specs.Prelude.{◌≡◌, length, IfOk};
ghost use Rattle.attributes.specs.Report.{attributes_report, attributes_line};

use crate::table::Attributes;
use hg_base::OutOfMemory;
use report_lines::{LineWriter, Lines, Pieces, pieces_of, text_of};
use std::alloc::{AllocError, Global};
use std::thread::Threads;

// The room for a node's line: four numbers of at most 7, 10, 20 and 10 digits.
const NODE_LINE: usize = 51;

/// The report of attributes: `attributes NODES`, then for each node `NUMBER AREA VOLUME DYNAMICS`.
pub fn write_attributes(alloc: Global, attributes: &Attributes) -> Result<Vec<u8>, OutOfMemory>
    ensures { IfOk result (λ text. text.items ≡ attributes_report attributes.now) }
{
    let count = [u64::from(attributes.nodes())];
    text_of(alloc, "attributes", &count, &NodeLines { attributes })
}

/// The same report in pieces, which threads of their own make where there are many nodes.
pub fn attributes_pieces(
    rt: &(impl Threads + Sync),
    alloc: Global,
    attributes: &Attributes,
) -> Result<Pieces, OutOfMemory>
    ensures { IfOk result (λ pieces. pieces ≡ attributes_report attributes.now) }
{
    let count = [u64::from(attributes.nodes())];
    pieces_of(rt, alloc, "attributes", &count, &NodeLines { attributes })
}

// A line for each node: its number, its area, its volume and its dynamics.
#[derive(Clone, Copy)]
struct NodeLines<'a> {
    attributes: &'a Attributes,
}

impl Lines for NodeLines<'_> {
    ghost count = { λ lines. length lines.attributes.now.areas };

    ghost line = { λ lines i. attributes_line lines.attributes.now i };

    fn len(&self) -> usize {
        self.attributes.nodes() as usize
    }

    fn room(&self) -> usize {
        NODE_LINE
    }

    #[tactic(auto, using(std::proofs::lemmas::Option::get_or_from_slice_get))]
    fn write(&self, text: &mut LineWriter, i: usize) -> Result<(), AllocError> {
        let nodes = self.attributes.nodes() as usize;
        prove!(i < nodes);
        let node = i as u32;
        let area = self.attributes.area(node);
        let volume = self.attributes.volume(node);
        text.push_line(&[i as u64, area, volume, self.attributes.dynamics(node)])
    }
}
