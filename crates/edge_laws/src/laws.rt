//! Laws of edge lists. Each is the contract of a function that does nothing.
ghost use Rattle.std.specs.Prelude.{◌≡◌, ◌↔◌, ◌⊎◌, ℕ, suc, ◌+◌, ◌<◌, ◌≤◌, Bool, true, false, ◌∷◌, ◌++◌, length, Some, IsTrue};
ghost use Rattle.std.specs.List.Sorted.{IsStrictlyIncreasing};
ghost use Rattle.hg_base.specs.Graph.{WeightedGraph, IsGraph};
ghost use Rattle.edge_laws.specs.Edges.{ListedEdge, EdgeList, IsSameSet, AreApart, AreWithin, Joined, joined, component, below, joins, chain, next, merged, components, ShareBelow, renamed};
ghost use Rattle.hg_base.specs.Lists.{IsIn};
ghost use Rattle.hg_base.specs.Counting.{IsOneToOne};
ghost use Rattle.edge_laws.specs.Rank.{rank, listed, ranked};
ghost use Rattle.edge_laws.specs.Rising.{IsRising};
ghost use Rattle.edge_laws.specs.Saliency.{IsSaliency, MeetFirst};
ghost use Rattle.edge_laws.specs.SideBySide.{SideBySide};
ghost use Rattle.edge_laws.specs.Splice.{IsRedundant, LeadsOut, ComesAfter, IsAtEnd};
ghost use Rattle.edge_laws.specs.Saliencies.{saliency};
ghost use Rattle.edge_laws.specs.Placed.{ranks};
ghost use Rattle.edge_laws.specs.Alike.{JoinAlike};
ghost use Rattle.edge_laws.specs.Without.{IsWithout};

/// The test `joined` says exactly where a walk through the edges of the list leads.
pub fn joined_by_walks()
    ensures { (s : EdgeList) (x y : ℕ) → IsTrue (joined s x y) ↔ Joined s x y }
{}

/// Being joined is an equivalence, grows with the set of edges, and depends on that set alone.
pub fn joined_is_an_equivalence()
    ensures itself { (s : EdgeList) (x : ℕ) → Joined s x x }
    ensures back { (s : EdgeList) (x y : ℕ) → Joined s x y → Joined s y x }
    ensures on { (s : EdgeList) (x y z : ℕ) → Joined s x y → Joined s y z → Joined s x z }
    ensures grows { (s t : EdgeList) (x y : ℕ) → ((e : ListedEdge) → IsIn e s → IsIn e t) → Joined s x y → Joined t x y }
    ensures by_set { (s t : EdgeList) (x y : ℕ) → IsSameSet s t → (Joined s x y ↔ Joined t x y) }
{}

/// The component of a vertex is the vertices that are joined to it, in rising order, each once.
pub fn component_of_a_vertex()
    ensures members { (n : ℕ) (s : EdgeList) (x y : ℕ) → IsIn y (component n s x) ↔ ((y < n) × Joined s x y) }
    ensures rising { (n : ℕ) (s : EdgeList) (x : ℕ) → IsStrictlyIncreasing (component n s x) }
{}

/// The joining edges are exactly those of the list whose ends aren't joined by edges of lower rank, and the chain of a
/// vertex exactly the joining edges one of whose ends edges of lower rank join to it. Both are in rising rank, so that
/// each edge is there once.
pub fn joining_edges_and_chains()
    ensures joining { (e : ListedEdge) (s : EdgeList) → IsIn e (joins s) ↔ (IsIn e s × ¬ IsRedundant e s) }
    ensures joining_rise { (s : EdgeList) → AreApart s → IsRising (joins s) }
    ensures chains { (e : ListedEdge) (s : EdgeList) (x : ℕ) → IsIn e (chain s x) ↔ (IsIn e (joins s) × IsAtEnd e s e.rank x) }
    ensures chains_rise { (s : EdgeList) (x : ℕ) → AreApart s → IsRising (chain s x) }
{}

/// The joining edges and the chains depend on the set of edges alone.
pub fn chains_by_the_set_of_edges()
    ensures joining { (s t : EdgeList) → AreApart s → AreApart t → IsSameSet s t → joins s ≡ joins t }
    ensures chains { (s t : EdgeList) (x : ℕ) → AreApart s → AreApart t → IsSameSet s t → chain s x ≡ chain t x }
{}

/// Other names for the vertices, no two with one name, change the joining edges and the chains by the names alone.
pub fn chains_under_other_names()
    ensures joining { (n : ℕ) (f : ℕ → ℕ) (s : EdgeList) → IsOneToOne n f → AreWithin n s → joins (renamed f s) ≡ renamed f (joins s) }
    ensures chains { (n : ℕ) (f : ℕ → ℕ) (s : EdgeList) (x : ℕ) → IsOneToOne n f → AreWithin n s → x < n → chain (renamed f s) (f x) ≡ renamed f (chain s x) }
{}

/// The edges of rank below `k` join two vertices exactly where they are one or their chains share an edge of rank below `k`.
pub fn joined_where_chains_meet()
    ensures { (s : EdgeList) (k x y : ℕ) → AreApart s → (Joined (below s k) x y ↔ ((x ≡ y) ⊎ ShareBelow s k x y)) }
{}

/// Two lists join the same vertices up to each rank exactly where the chains of each vertex have the same ranks. With the
/// same edges added to both they still do.
pub fn lists_that_join_alike()
    ensures chains { (s t : EdgeList) (x : ℕ) → AreApart s → AreApart t → JoinAlike s t → ranks (chain s x) ≡ ranks (chain t x) }
    ensures alike { (s t : EdgeList) → AreApart s → AreApart t → ((x : ℕ) → ranks (chain s x) ≡ ranks (chain t x)) → JoinAlike s t }
    ensures more { (s t b : EdgeList) → JoinAlike s t → JoinAlike (s ++ b) (t ++ b) }
{}

/// An edge of the list that joins nothing can go: without it the joining edges and the chains are the same.
pub fn what_joins_nothing_can_go()
    ensures joining { (s t : EdgeList) (f : ListedEdge) → AreApart s → AreApart t → ¬ IsIn f (joins s) → IsWithout s f t → joins t ≡ joins s }
    ensures chains { (s t : EdgeList) (f : ListedEdge) (x : ℕ) → AreApart s → AreApart t → ¬ IsIn f (joins s) → IsWithout s f t → chain t x ≡ chain s x }
{}

/// What joins and what the chains are after one more edge `e` of any rank. Where its ends were joined by edges of
/// lower rank it changes nothing. Else it joins, and of the others the one that first joined its ends, if there is
/// one, joins no more.
pub fn one_more_edge()
    ensures redundant { (e : ListedEdge) (s : EdgeList) → AreApart (e ∷ s) → IsRedundant e s →
        (joins (e ∷ s) ≡ joins s) × ((x : ℕ) → chain (e ∷ s) x ≡ chain s x) }
    ensures joins_itself { (e : ListedEdge) (s : EdgeList) → ¬ IsRedundant e s → IsIn e (joins (e ∷ s)) }
    ensures replaces { (e f : ListedEdge) (s : EdgeList) → AreApart (e ∷ s) → ¬ IsRedundant e s → IsIn f s →
        (IsIn f (joins (e ∷ s)) ↔ (IsIn f (joins s) × ¬ MeetFirst s e.u e.v f)) }
{}

/// The splice: which edge comes next on the chain of a vertex from rank `k` on, after one more edge `e`.
pub fn splice()
    // What came before e still does.
    ensures before { (e f : ListedEdge) (s : EdgeList) (x k : ℕ) → AreApart (e ∷ s) → next s x k ≡ Some f → f.rank < e.rank →
        next (e ∷ s) x k ≡ Some f }
    // Then e comes, where it leads out of the component of x ..
    ensures at { (e : ListedEdge) (s : EdgeList) (x k : ℕ) → AreApart (e ∷ s) → k ≤ e.rank → ComesAfter (next s x k) e.rank → LeadsOut s x e →
        next (e ∷ s) x k ≡ Some e }
    // .. and is passed over where it doesn't.
    ensures past { (e : ListedEdge) (s : EdgeList) (x k : ℕ) → AreApart (e ∷ s) → k ≤ e.rank → ComesAfter (next s x k) e.rank → ¬ LeadsOut s x e →
        next (e ∷ s) x k ≡ next (e ∷ s) x (suc e.rank) }
    // Above e nothing changes for a vertex at neither end, nor once the ends are joined.
    ensures elsewhere { (e : ListedEdge) (s : EdgeList) (x k : ℕ) → AreApart (e ∷ s) → e.rank < k → ¬ IsAtEnd e s k x →
        next (e ∷ s) x k ≡ next s x k }
    ensures united { (e : ListedEdge) (s : EdgeList) (x k : ℕ) → AreApart (e ∷ s) → e.rank < k → Joined (below s k) e.u e.v →
        next (e ∷ s) x k ≡ next s x k }
    // Until then the chains of both ends are merged into one.
    ensures merging { (e : ListedEdge) (s : EdgeList) (x k : ℕ) → AreApart (e ∷ s) → e.rank < k → ¬ Joined (below s k) e.u e.v → IsAtEnd e s k x →
        next (e ∷ s) x k ≡ merged s (next s e.u k) (next s e.v k) }
{}

/// Two lists whose ends lie apart, put side by side, change no chain of each other.
pub fn lists_side_by_side()
    ensures inside { (p : ℕ → Bool) (s t : EdgeList) (x : ℕ) → SideBySide p s t → p x ≡ true → chain (s ++ t) x ≡ chain s x }
    ensures outside { (p : ℕ → Bool) (s t : EdgeList) (x : ℕ) → SideBySide p s t → p x ≡ false → chain (s ++ t) x ≡ chain t x }
{}

/// Joining edges and components add up to the number of vertices.
pub fn joining_edges_and_components()
    ensures { (n : ℕ) (s : EdgeList) → AreApart s → AreWithin n s → length (joins s) + components n s ≡ n }
{}

/// The ranked edges of a graph have different ranks, and their ends are vertices; each edge is there at its rank.
pub fn ranked_edges()
    ensures apart { (g : WeightedGraph) → AreApart (ranked g) }
    ensures within { (g : WeightedGraph) → IsGraph g → AreWithin g.n (ranked g) }
    ensures each { (g : WeightedGraph) (e : ℕ) → e < length g.edges → IsIn (listed g (rank g e) e) (ranked g) }
{}

/// The saliency of an edge, and no other number, is the least k such that the edges of weight at most k join its ends.
pub fn saliencies_are_least()
    ensures { (g : WeightedGraph) (e k : ℕ) → e < length g.edges → (IsSaliency g e k ↔ (k ≡ saliency g e)) }
{}
