ghost use Rattle.std.specs.Prelude.{◌≡◌, ◌⊎◌, ◌<◌, ℕ, Bool, List, ◌∷◌, take, Ok, Err, Contains};
ghost use Rattle.hg_base.specs.Graph.{WeightedGraph};
ghost use Rattle.hg_base.specs.declared.fault.FaultKind.TheVariants.{UnknownForm};
ghost use Rattle.hg_base.specs.declared.fault.InputFault.{InputFault};
ghost use Rattle.input_tokens.specs.Tokens.{PlacedToken, tokens};
ghost use Rattle.graph_reader.specs.EdgeList.{edge_list};
ghost use Rattle.input_tokens.specs.Rules.{fault};
ghost use Rattle.graph_reader.specs.Spelling.{Spells};
ghost use Rattle.graph_reader.specs.FirstFault.{IsFirstWrong, EndsTooEarly};

/// What begins with `P`, as each picture does, is no edge list: its form is unknown, at 0.
pub fn pictures_are_no_edge_lists()
    ensures { (rest : List ℕ) → edge_list (80 ∷ rest) ≡ fault UnknownForm 0 0 }
{}

/// An edge list is what spells a graph: a word, two counts, the areas where the word asks for them, and the edges.
pub fn edge_lists_are_spellings()
    ensures read { (with_areas : Bool) (bytes : List ℕ) (g : WeightedGraph) → Spells with_areas bytes g → edge_list bytes ≡ Ok g }
    ensures only { (bytes : List ℕ) (g : WeightedGraph) → edge_list bytes ≡ Ok g → (with_areas : Bool) × Spells with_areas bytes g }
{}

/// Each fault is the first from the left. It is one of the first wrong token, at its first byte, whatever follows that
/// token; or each token is right, and the input ends where another one is wanted. And a token that is wrong once it has
/// been read is what is wrong with the whole input.
pub fn faults_are_the_first()
    ensures found { (bytes : List ℕ) (f : InputFault) → edge_list bytes ≡ Err f → ((t : PlacedToken) × IsFirstWrong bytes t f) ⊎ EndsTooEarly bytes f }
    ensures kept { (bytes : List ℕ) (t : PlacedToken) (f : InputFault) → Contains (tokens bytes) t → edge_list (take t.to bytes) ≡ Err f → f.at < t.to → edge_list bytes ≡ Err f }
{}
