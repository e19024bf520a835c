ghost use Rattle.std.specs.Prelude.{◌≡◌, ◌<◌, ◌≤◌, length, slice_get, Some, All};
ghost use Rattle.hg_base.specs.Labels.{IsLabel, IsLabelling};

use std::marker::Model;

/// A label for each vertex, from 1 to the number of labels. There are from 1 to 1,048,576 vertices.
#[derive(Drop)]
pub struct Labels {
    labels: Vec<u32>,
    count: u32,
}

impl Model for Labels {
    ghost use Rattle.hg_base.specs.Labels.{Labelling};

    ghost Value = { Labelling };

    ghost use Rattle.hg_base.specs.LabelsFields.{labelling_of, IsLabelling};

    ghost view = { labelling_of };

    ghost invariant = { λ l. IsLabelling (labelling_of l) };
}

impl Labels {
    /// These labels, each from 1 to `count`. It takes no memory.
    pub fn new(labels: Vec<u32>, count: u32) -> Labels
        requires { IsLabelling (record { labels = labels.items; count = count }) }
        ensures { result ≡ record { labels = labels.items; count = count } }
    {
        Labels { labels, count }
    }

    /// How many vertices have a label.
    pub fn len(&self) -> u32
        ensures value { result ≡ length self.now.labels }
        ensures some { 1 ≤ result }
        ensures few { result ≤ 1048576 }
        ensures labelling { IsLabelling self.now }
    {
        self.labels.len() as u32
    }

    /// How many labels there are.
    pub fn count(&self) -> u32
        ensures { result ≡ self.now.count }
    {
        self.count
    }

    /// The label of a vertex.
    pub fn label(&self, v: u32) -> u32
        requires { v < length self.now.labels }
        ensures value { slice_get self.now.labels v ≡ Some result }
        ensures range { IsLabel self.now.count result }
    {
        self.labels[v as usize]
    }

    /// The label of each vertex.
    pub fn as_slice(&self) -> &[u32]
        ensures value { result.now ≡ self.now.labels }
        ensures range { All (IsLabel self.now.count) result.now }
    {
        &self.labels
    }
}
