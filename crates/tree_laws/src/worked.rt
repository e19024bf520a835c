//! Worked examples of the definitions: the checker computes each definition and compares it with values
//! that were worked out by hand. So they show that the definitions say what is meant; no code runs.
ghost use Rattle.std.specs.Prelude.{◌≡◌, [], ◌∷◌};
ghost use Rattle.tree_laws.specs.Worked.{tree_over};

fn one_vertex()
    ensures { tree_over 1 [] ≡ record { leaves = 1; parents = 0 ∷ []; altitudes = 0 ∷ []; makers = [] } }
{}

fn two_vertices_apart()
    ensures { tree_over 2 [] ≡ record { leaves = 2; parents = 0 ∷ 1 ∷ []; altitudes = 0 ∷ 0 ∷ []; makers = [] } }
{}

fn two_roads()
    ensures { tree_over 3 ((0, 1, 5) ∷ (1, 2, 3) ∷ [])
        ≡ record { leaves = 3; parents = 4 ∷ 3 ∷ 3 ∷ 4 ∷ 4 ∷ []; altitudes = 0 ∷ 0 ∷ 0 ∷ 3 ∷ 5 ∷ []; makers = 1 ∷ 0 ∷ [] } }
{}

// Edges of one weight come in order of number, and the last of them joins nothing.
fn triangle()
    ensures { tree_over 3 ((0, 1, 1) ∷ (1, 2, 1) ∷ (0, 2, 1) ∷ [])
        ≡ record { leaves = 3; parents = 3 ∷ 3 ∷ 4 ∷ 4 ∷ 4 ∷ []; altitudes = 0 ∷ 0 ∷ 0 ∷ 1 ∷ 1 ∷ []; makers = 0 ∷ 1 ∷ [] } }
{}

fn ring_of_four()
    ensures { tree_over 4 ((0, 1, 5) ∷ (2, 3, 6) ∷ (1, 2, 1) ∷ (0, 3, 2) ∷ [])
        ≡ record { leaves = 4; parents = 5 ∷ 4 ∷ 4 ∷ 5 ∷ 6 ∷ 6 ∷ 6 ∷ []; altitudes = 0 ∷ 0 ∷ 0 ∷ 0 ∷ 1 ∷ 2 ∷ 5 ∷ []; makers = 2 ∷ 3 ∷ 0 ∷ [] } }
{}

fn two_components()
    ensures { tree_over 3 ((0, 1, 4) ∷ [])
        ≡ record { leaves = 3; parents = 3 ∷ 3 ∷ 2 ∷ 3 ∷ []; altitudes = 0 ∷ 0 ∷ 0 ∷ 4 ∷ []; makers = 0 ∷ [] } }
{}

#[test]
fn the_definitions_give_the_worked_trees() {
    one_vertex();
    two_vertices_apart();
    two_roads();
    triangle();
    ring_of_four();
    two_components();
}
