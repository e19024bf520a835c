ghost use Rattle.std.specs.Prelude.{◌≡◌, ◌<◌, length};
ghost use Rattle.component_tree.specs.MinTree.{value_at};
ghost use Rattle.component_tree.specs.Values.{AreValues};

use std::marker::Model;

/// A value for each vertex of a graph. There are from 1 to 1,048,576 of them.
#[derive(Drop)]
pub struct Values {
    list: Vec<u32>,
}

impl Model for Values {
    ghost use Rattle.std.specs.Prelude.{ℕ, List};

    ghost Value = { List ℕ };

    ghost use Rattle.component_tree.specs.ValuesFields.{values_of, AreValues};

    ghost view = { values_of };

    ghost invariant = { λ v. AreValues (values_of v) };
}

impl Values {
    ghost use Rattle.std.specs.Prelude.{◌≤◌};

    /// These values, one for each vertex. It takes no memory.
    pub fn new(values: Vec<u32>) -> Values
        requires some { 1 ≤ length values.items }
        requires few { length values.items ≤ 1048576 }
        ensures { result ≡ values.items }
    {
        Values { list: values }
    }

    /// Does nothing. It stands where only this is needed: what all values of vertices keep to, `AreValues`.
    #[inline(always)]
    pub fn keeps_its_rules(&self)
        ensures { AreValues self.now }
    {
        let _ = &self.list;
    }

    /// The value of a vertex.
    pub fn value(&self, v: u32) -> u32
        requires { v < length self.now }
        ensures value { result ≡ value_at self.now v }
        ensures values { AreValues self.now }
    {
        self.list[v as usize]
    }
}
