// What a part tells of the chains of its places.
ghost use Rattle.node_region.specs.Pool.{IsCovered};

use border_climb::Part;
use std::alloc::{AllocError, Global};

// The ranks of a place's chain.
pub(crate) fn chain(alloc: Global, part: &Part, place: u32) -> Result<Vec<u32>, AllocError>
    requires { IsCovered part.now.region place }
{
    let mut ranks = Vec::new(alloc);
    let mut next = part.up_of_place(place);
    while let Some(cell) = next {
        ranks.push(part.rank_of_cell(cell))?;
        next = part.up_of_cell(cell);
    }
    Ok(ranks)
}
