//! Worked examples of minima and watersheds: the checker computes each definition and compares it with values that were
//! worked out by hand. No code runs.
ghost use Rattle.std.specs.Prelude.{◌≡◌, [], ◌∷◌, map};
ghost use Rattle.hg_base.specs.Graph.{with_unit_areas};
ghost use Rattle.tree_laws.specs.Worked.{edge};
ghost use Rattle.watershed_cut.specs.MinimumLabels.{minima_of};
ghost use Rattle.watershed_cut.specs.Rooted.{cost};
ghost use Rattle.watershed_cut.specs.Watershed.{watershed_of};

// A vertex without edges is a minimum of its own.
fn one_vertex()
    ensures minima { minima_of (with_unit_areas 1 []) ≡ record { count = 1; vertices = 1 ∷ []; edges = [] } }
    ensures watershed { watershed_of (with_unit_areas 1 []) ≡ record { labels = record { labels = 1 ∷ []; count = 1 }; cut = []; forest = [] } }
{}

fn two_minima()
    ensures minima { minima_of (with_unit_areas 4 (map edge ((0, 1, 1) ∷ (1, 2, 5) ∷ (2, 3, 2) ∷ [])))
        ≡ record { count = 2; vertices = 1 ∷ 1 ∷ 2 ∷ 2 ∷ []; edges = 1 ∷ 0 ∷ 2 ∷ [] } }
    ensures watershed { watershed_of (with_unit_areas 4 (map edge ((0, 1, 1) ∷ (1, 2, 5) ∷ (2, 3, 2) ∷ [])))
        ≡ record { labels = record { labels = 1 ∷ 1 ∷ 2 ∷ 2 ∷ []; count = 2 }; cut = 1 ∷ []; forest = [] } }
{}

// Two forests are least, and the order of the edges decides.
fn between_two_minima()
    ensures watershed { watershed_of (with_unit_areas 5 (map edge ((0, 1, 1) ∷ (1, 2, 3) ∷ (2, 3, 3) ∷ (3, 4, 1) ∷ [])))
        ≡ record { labels = record { labels = 1 ∷ 1 ∷ 1 ∷ 2 ∷ 2 ∷ []; count = 2 }; cut = 2 ∷ []; forest = 1 ∷ [] } }
    ensures cost { cost (with_unit_areas 5 (map edge ((0, 1, 1) ∷ (1, 2, 3) ∷ (2, 3, 3) ∷ (3, 4, 1) ∷ []))) (1 ∷ []) ≡ 3 }
{}

// Edges 0 and 1 are a plateau beside a lesser edge.
fn plateau_beside_a_lesser_edge()
    ensures minima { minima_of (with_unit_areas 4 (map edge ((0, 1, 2) ∷ (1, 2, 2) ∷ (2, 3, 1) ∷ [])))
        ≡ record { count = 1; vertices = 0 ∷ 0 ∷ 1 ∷ 1 ∷ []; edges = 0 ∷ 0 ∷ 1 ∷ [] } }
    ensures watershed { watershed_of (with_unit_areas 4 (map edge ((0, 1, 2) ∷ (1, 2, 2) ∷ (2, 3, 1) ∷ [])))
        ≡ record { labels = record { labels = 1 ∷ 1 ∷ 1 ∷ 1 ∷ []; count = 1 }; cut = []; forest = 0 ∷ 1 ∷ [] } }
    ensures cost { cost (with_unit_areas 4 (map edge ((0, 1, 2) ∷ (1, 2, 2) ∷ (2, 3, 1) ∷ []))) (0 ∷ 1 ∷ []) ≡ 4 }
{}

fn two_components()
    ensures minima { minima_of (with_unit_areas 3 (map edge ((0, 1, 4) ∷ [])))
        ≡ record { count = 2; vertices = 1 ∷ 1 ∷ 2 ∷ []; edges = 1 ∷ [] } }
    ensures watershed { watershed_of (with_unit_areas 3 (map edge ((0, 1, 4) ∷ [])))
        ≡ record { labels = record { labels = 1 ∷ 1 ∷ 2 ∷ []; count = 2 }; cut = []; forest = [] } }
{}

#[test]
fn the_definitions_give_the_worked_values() {
    one_vertex();
    two_minima();
    between_two_minima();
    plateau_beside_a_lesser_edge();
    two_components();
}
