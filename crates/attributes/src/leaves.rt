ghost use Rattle.std.specs.Prelude.{◌≡◌, ℕ, ◌*◌, ◌<◌, ◌≤◌, ◌^◌, All, length, map, slice_index, IfOk};
ghost use Rattle.std.specs.List.{range_with_len};
ghost use Rattle.attributes.specs.Attributes.{area};

use hg_base::Graph;
use std::alloc::{AllocError, Global};

/// The area of each vertex.
pub(crate) fn areas(alloc: Global, graph: &Graph) -> Result<Vec<u64>, AllocError>
    ensures areas { IfOk result (λ areas. areas.items ≡ map (area graph.now) (range_with_len 0 graph.now.n)) }
    ensures small { IfOk result (λ areas. All (λ a. a ≤ 4096) areas.items) }
{
    let mut areas = Vec::with_capacity(alloc, graph.n() as usize)?;
    for x in 0..graph.n() {
        areas.push(u64::from(graph.area(x)))?;
    }
    Ok(areas)
}

/// The area of each vertex times its floor.
pub(crate) fn products(alloc: Global, areas: &[u64], floors: &[u64]) -> Result<Vec<u64>, AllocError>
    requires one_each { length floors.now ≡ length areas.now }
    requires small { All (λ a. a ≤ 4096) areas.now }
    requires light { All (λ w. w < 2 ^ 32) floors.now }
    ensures { IfOk result (λ products. products.items ≡ map (λ x. slice_index areas.now x * slice_index floors.now x) (range_with_len 0 (length areas.now))) }
{
    let mut products = Vec::with_capacity(alloc, areas.len())?;
    for (x, area) in areas.iter().enumerate() {
        products.push(*area * floors[x])?;
    }
    Ok(products)
}
