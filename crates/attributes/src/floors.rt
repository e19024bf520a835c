ghost use Rattle.std.specs.Prelude.{◌≡◌, ◌<◌, ◌≤◌, length, map, IfOk, slice_set, slice_index_or, replicate, Some, None};
ghost use Rattle.std.specs.List.{range_with_len};
ghost use Rattle.attributes.specs.Attributes.{floor};
ghost use Rattle.attributes.specs.Floors.{AreLightest, lowered};

use hg_base::Graph;
use std::alloc::{AllocError, Global};

/// The floor of each vertex: the least weight of an edge at it, or 0 where it has none.
pub(crate) fn floors(alloc: Global, graph: &Graph) -> Result<Vec<u64>, AllocError>
    ensures { IfOk result (λ floors. floors.items ≡ map (floor graph.now) (range_with_len 0 graph.now.n)) }
{
    let lightest = lightest(alloc, graph)?;
    let mut floors = Vec::with_capacity(alloc, graph.n() as usize)?;
    for x in 0..graph.n() {
        floors.push(u64::from(lightest[x as usize].unwrap_or(0)))?;
    }
    Ok(floors)
}

// The least weight of an edge at each vertex, if it has one.
fn lightest(alloc: Global, graph: &Graph) -> Result<Vec<Option<u32>>, AllocError>
    ensures { IfOk result (λ lightest. AreLightest graph.now lightest.items) }
{
    let mut lightest = vec![in alloc; None; graph.n() as usize]?;
    note_weights(graph, &mut lightest);
    Ok(lightest)
}

// Notes the weight of each edge at both of its ends.
fn note_weights(graph: &Graph, lightest: &mut [Option<u32>])
    requires { lightest.old ≡ replicate graph.now.n None }
    ensures { AreLightest graph.now lightest.new }
{
    for e in 0..graph.m() {
        let edge = graph.edge(e);
        lower(lightest, edge.u, edge.w);
        lower(lightest, edge.v, edge.w);
    }
}

// Notes a weight at a vertex where none is noted that is as light.
fn lower(lightest: &mut [Option<u32>], x: u32, weight: u32)
    requires { x < length lightest.old }
    ensures { lightest.new ≡ slice_set lightest.old x (lowered (slice_index_or lightest.old x None) weight) }
{
    let least = match lightest[x as usize] {
        Some(noted) => noted.min(weight),
        None => weight,
    };
    lightest[x as usize] = Some(least);
}
