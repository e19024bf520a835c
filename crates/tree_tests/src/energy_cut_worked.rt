//! Worked examples of least cuts: the checker computes each definition and compares it with values that were worked out
//! by hand. No code runs.
ghost use Rattle.std.specs.Prelude.{◌≡◌, [], ◌∷◌};
ghost use Rattle.partition_tree.specs.TreeLists.{lists_of};
ghost use Rattle.energy_cut.specs.Energies.{energies_of};
ghost use Rattle.energy_cut.specs.Regions.{energy_cut_of};

// The tree of a path of four vertices, whose edges weigh 1, 5 and 2.
fn energies_of_a_path()
    ensures { energies_of (lists_of 4 (4 ∷ 4 ∷ 5 ∷ 5 ∷ 6 ∷ 6 ∷ 6 ∷ []) (0 ∷ 0 ∷ 0 ∷ 0 ∷ 1 ∷ 2 ∷ 5 ∷ []) (0 ∷ 2 ∷ 1 ∷ [])) (1 ∷ 1 ∷ 1 ∷ 1 ∷ 2 ∷ 2 ∷ 4 ∷ []) 2
        ≡ 2 ∷ 2 ∷ 2 ∷ 2 ∷ 4 ∷ 6 ∷ 22 ∷ [] }
{}

// Where regions cost nothing, each vertex is one.
fn free_regions()
    ensures { energy_cut_of (lists_of 4 (4 ∷ 4 ∷ 5 ∷ 5 ∷ 6 ∷ 6 ∷ 6 ∷ []) (0 ∷ 0 ∷ 0 ∷ 0 ∷ 1 ∷ 2 ∷ 5 ∷ []) (0 ∷ 2 ∷ 1 ∷ [])) (0 ∷ 0 ∷ 0 ∷ 0 ∷ 2 ∷ 4 ∷ 20 ∷ [])
        ≡ record { nodes = 0 ∷ 1 ∷ 2 ∷ 3 ∷ []; labels = record { labels = 1 ∷ 2 ∷ 3 ∷ 4 ∷ []; count = 4 }; sum = 0 } }
{}

// Node 4 ties with its two leaves, and is coarser.
fn a_tie_below()
    ensures { energy_cut_of (lists_of 4 (4 ∷ 4 ∷ 5 ∷ 5 ∷ 6 ∷ 6 ∷ 6 ∷ []) (0 ∷ 0 ∷ 0 ∷ 0 ∷ 1 ∷ 2 ∷ 5 ∷ []) (0 ∷ 2 ∷ 1 ∷ [])) (2 ∷ 2 ∷ 2 ∷ 2 ∷ 4 ∷ 6 ∷ 22 ∷ [])
        ≡ record { nodes = 2 ∷ 3 ∷ 4 ∷ []; labels = record { labels = 1 ∷ 1 ∷ 2 ∷ 3 ∷ []; count = 3 }; sum = 8 } }
{}

// The root ties with its two children.
fn a_tie_at_the_root()
    ensures { energy_cut_of (lists_of 4 (4 ∷ 4 ∷ 5 ∷ 5 ∷ 6 ∷ 6 ∷ 6 ∷ []) (0 ∷ 0 ∷ 0 ∷ 0 ∷ 1 ∷ 2 ∷ 5 ∷ []) (0 ∷ 2 ∷ 1 ∷ [])) (14 ∷ 14 ∷ 14 ∷ 14 ∷ 16 ∷ 18 ∷ 34 ∷ [])
        ≡ record { nodes = 6 ∷ []; labels = record { labels = 1 ∷ 1 ∷ 1 ∷ 1 ∷ []; count = 1 }; sum = 34 } }
{}

// No leaf is below node 2, which costs nothing.
fn a_node_without_leaves()
    ensures { energy_cut_of (lists_of 2 (3 ∷ 3 ∷ 3 ∷ 3 ∷ []) (0 ∷ 0 ∷ 0 ∷ 5 ∷ []) (0 ∷ 1 ∷ [])) (1 ∷ 1 ∷ 0 ∷ 7 ∷ [])
        ≡ record { nodes = 0 ∷ 1 ∷ []; labels = record { labels = 1 ∷ 2 ∷ []; count = 2 }; sum = 2 } }
{}

#[test]
fn the_definitions_give_the_worked_values() {
    energies_of_a_path();
    free_regions();
    a_tie_below();
    a_tie_at_the_root();
    a_node_without_leaves();
}
