ghost use Rattle.std.specs.Prelude.{◌≡◌, ℕ, ◌≤◌, List};
ghost use Rattle.watershed_cut.specs.Forest.{forest};
ghost use Rattle.watershed_cut.specs.MinimumLabels.{minima_of};
ghost use Rattle.watershed_cut.specs.Rooted.{IsRooted, cost};
ghost use Rattle.watershed_cut.specs.Watershed.{watershed_of};

use crate::sums::total_weight;
use hg_base::Graph;
use watershed_cut::{Minima, Watershed};

/// The weight of the forest of a graph's watershed, of which minima and watershed are its own. The forest is rooted in
/// the minima, and no forest that is rooted so weighs less (Cousty and others, Watershed Cuts, 2009). It takes no memory.
#[tactic(auto, using(crate::proofs::Shapes::forest_numbers, crate::proofs::Shapes::forest_few, crate::proofs::Shapes::forest_least))]
pub fn witness(graph: &Graph, minima: &Minima, watershed: &Watershed) -> u64
    requires minima { minima.now ≡ minima_of graph.now }
    requires watershed { watershed.now ≡ watershed_of graph.now }
    ensures cost { result ≡ cost graph.now (forest graph.now) }
    ensures rooted { IsRooted graph.now (forest graph.now) }
    ensures least { (f : List ℕ) → IsRooted graph.now f → result ≤ cost graph.now f }
{
    let _ = minima;
    graph.keeps_its_rules();
    total_weight(graph, watershed.forest())
}
