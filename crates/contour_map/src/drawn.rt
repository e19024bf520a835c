ghost use Rattle.std.specs.Prelude.{◌≡◌, length, IfOk};
ghost use Rattle.tree_laws.specs.Tree.{ParentTree};
ghost use Rattle.pgm_reader.specs.Grid.{graph_of};
ghost use Rattle.saliency.specs.Values.{EndsShareRoots, AreLowestAltitudes};
ghost use Rattle.contour_map.specs.Drawn.{AreContoursIn};

use crate::map::ContourMap;
use crate::picture::write_contours_in_threads;
use hg_base::{Graph, OutOfMemory};
use partition_tree::Tree;
use pgm_reader::Picture;
use saliency::saliency_in_threads;
use std::alloc::Global;
use std::thread::Threads;

/// The contours of a picture in a tree over its pixels, as the bytes of a PGM picture: of its contour map by the saliency of
/// each edge of its graph, the altitude of the lowest common ancestor of the edge's ends. The graph is the picture's, the
/// leaves of the tree are its pixels, and the ends of each edge must have one root. The saliencies are found in threads. The error
/// is want of memory.
pub fn draw_contours(
    rt: &(impl Threads + Sync),
    alloc: Global,
    picture: &Picture,
    graph: &Graph,
    tree: &Tree,
) -> Result<Vec<u8>, OutOfMemory>
    requires graph { graph.now ≡ graph_of picture.now }
    requires leaves { tree.now.leaves ≡ graph.now.n }
    requires roots { EndsShareRoots graph.now tree.now }
    ensures { IfOk result (λ bytes. AreContoursIn picture.now tree.now bytes.items) }
{
    let values = saliency_in_threads(rt, alloc, graph, tree)?;
    draw_saliencies(rt, alloc, picture, &values)
}

/// The contours of a picture by a value for each edge of its graph, in order of number, as the bytes of a PGM picture. Where
/// the values are the saliencies of the edges in a tree over the pixels, these are the contours in that tree. The error is want
/// of memory.
pub fn draw_saliencies(
    rt: &(impl Threads + Sync),
    alloc: Global,
    picture: &Picture,
    values: &[u64],
) -> Result<Vec<u8>, OutOfMemory>
    requires one_each { length values.now ≡ length (graph_of picture.now).edges }
    ensures { (tree : ParentTree) → AreLowestAltitudes (graph_of picture.now) tree values.now → IfOk result (λ bytes. AreContoursIn picture.now tree bytes.items) }
{
    let map = ContourMap::of_in_threads(rt, alloc, picture.width(), picture.height(), values)?;
    write_contours_in_threads(rt, alloc, &map)
}
