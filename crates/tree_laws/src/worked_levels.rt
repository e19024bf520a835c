//! Worked examples of zones, saliencies and regions: the checker computes each definition and compares it with
//! values that were worked out by hand. No code runs.
ghost use Rattle.std.specs.Prelude.{◌≡◌, [], ◌∷◌, map};
ghost use Rattle.hg_base.specs.Graph.{with_unit_areas};
ghost use Rattle.hg_base.specs.Labels.{labelling};
ghost use Rattle.tree_laws.specs.Levels.{shares};
ghost use Rattle.edge_laws.specs.Saliencies.{saliencies};
ghost use Rattle.tree_laws.specs.Worked.{edge, tree_over};
ghost use Rattle.tree_laws.specs.Zones.{zones_of};

// The node of the first edge has its parent's altitude, and isn't kept.
fn zones_of_a_triangle()
    ensures { zones_of (tree_over 3 ((0, 1, 1) ∷ (1, 2, 1) ∷ (0, 2, 1) ∷ []))
        ≡ record { leaves = 3; parents = 3 ∷ 3 ∷ 3 ∷ 3 ∷ []; altitudes = 0 ∷ 0 ∷ 0 ∷ 1 ∷ []; makers = 1 ∷ [] } }
{}

// Edge 1 weighs more than its saliency.
fn saliencies_of_a_ring()
    ensures { saliencies (with_unit_areas 4 (map edge ((0, 1, 1) ∷ (1, 2, 4) ∷ (2, 3, 2) ∷ (0, 3, 3) ∷ []))) ≡ 1 ∷ 3 ∷ 2 ∷ 3 ∷ [] }
{}

fn regions_of_a_path()
    ensures { labelling (shares (tree_over 4 ((0, 1, 1) ∷ (1, 2, 5) ∷ (2, 3, 2) ∷ [])) 1) 4 ≡ record { labels = 1 ∷ 1 ∷ 2 ∷ 3 ∷ []; count = 3 } }
{}

#[test]
fn the_definitions_give_the_worked_values() {
    zones_of_a_triangle();
    saliencies_of_a_ring();
    regions_of_a_path();
}
