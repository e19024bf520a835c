ghost use Rattle.std.specs.Prelude.{◌≡◌, ◌≤◌, length, IfOk};
ghost use Rattle.partition_tree.specs.BlockKeys.{AreBlockKeys};

use crate::list::Ranked;
use std::alloc::{AllocError, Global};

// How many vertices a block may have before it counts as the block of all vertices.
const LARGEST: u32 = 65_536;

/// When an edge of a list is given to a part. An edge's block is the least one that holds both of its ends, of the
/// vertices from k * 2^j up to (k + 1) * 2^j - 1 for some k and j, and the block of all vertices where that would have
/// more than 65,536. A block comes after the blocks in it, and a block's edges come in rising rank. So chains are short
/// as long as most edges of a picture are given, and those of an edge list with far ends aren't merged again and again.
#[derive(Clone, Copy, PartialEq, Eq, PartialOrd, Ord)]
pub(crate) struct BlockKey {
    // The last vertex of the block.
    last: u32,
    // By how much the block's last vertex is beyond its first one.
    span: u32,
    // The rank of the edge.
    pub(crate) rank: u32,
}

// The key of the edge of a rank.
fn block_key(rank: u32, e: &Ranked) -> BlockKey
    ensures { result.rank ≡ rank }
{
    let least = u32::MAX.wrapping_shr((e.u ^ e.v).leading_zeros());
    let span = if least < LARGEST { least } else { u32::MAX };
    BlockKey {
        last: e.u | span,
        span,
        rank,
    }
}

// The keys of the edges of a list, in order.
pub(crate) fn block_keys(alloc: Global, list: &[Ranked]) -> Result<Vec<BlockKey>, AllocError>
    requires { length list.now ≤ 4194304 }
    ensures { IfOk result (λ block_keys. AreBlockKeys list.now block_keys.items) }
{
    let mut block_keys = Vec::with_capacity(alloc, list.len())?;
    for (rank, e) in list.iter().enumerate() {
        block_keys.push(block_key(rank as u32, e))?;
    }
    block_keys.sort_unstable();
    Ok(block_keys)
}
