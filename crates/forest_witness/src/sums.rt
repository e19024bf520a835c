ghost use Rattle.std.specs.Prelude.{◌≡◌, ◌<◌, ◌≤◌, ◌^◌, All, length};
ghost use Rattle.hg_base.specs.Graph.{weight};
ghost use Rattle.watershed_cut.specs.Rooted.{cost};

use hg_base::Graph;

/// The sum of the weights of the edges with these numbers.
pub(crate) fn total_weight(graph: &Graph, edges: &[u32]) -> u64
    requires edges { All (λ e. e < length graph.now.edges) edges.now }
    requires few { length edges.now ≤ 4194304 }
    ensures { result ≡ cost graph.now edges.now }
{
    let mut total = 0;
    for e in edges {
        total += weight_of(graph, *e);
    }
    total
}

// The weight of edge e.
fn weight_of(graph: &Graph, e: u32) -> u64
    requires { e < length graph.now.edges }
    ensures value { result ≡ weight graph.now e }
    ensures small { result < 2 ^ 32 }
{
    u64::from(graph.edge(e).w)
}
