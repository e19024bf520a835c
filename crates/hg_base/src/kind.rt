/// The attribute of a node by which it persists: the area of its vertices, their volume or their dynamics.
#[derive(Clone, Copy, Debug, PartialEq, Eq)]
pub enum Kind {
    Area,
    Volume,
    Dynamics,
}
