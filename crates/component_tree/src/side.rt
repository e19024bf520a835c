ghost use Rattle.std.specs.Prelude.{◌≡◌};
ghost use Rattle.component_tree.specs.MinTree.{turned};

/// From which end of the values a component tree grows: a min tree from the least, a max tree from the greatest.
#[derive(Clone, Copy, Debug, PartialEq, Eq)]
pub enum Side {
    Min,
    Max,
}

// A value as a min tree is to see it: itself, or for a max tree what it is less than the greatest u32.
pub(crate) fn turned(side: Side, value: u32) -> u32
    ensures { result ≡ turned side value }
{
    match side {
        Side::Min => value,
        Side::Max => u32::MAX - value,
    }
}
