ghost use Rattle.std.specs.Prelude.{◌≡◌, ◌<◌, ◌≤◌, ℕ, List, ◌∷◌, ◌++◌, Contains};
ghost use Rattle.input_tokens.specs.Tokens.{PlacedToken, tokens};
ghost use Rattle.input_tokens.specs.LongestRuns.{IsTokenByte, IsLongestRun};

/// The tokens are the longest runs of bytes that are neither white space nor covered by a comment: each token is one,
/// each such byte is in one, and they stand in order, with a byte that isn't of a token between each two.
pub fn tokens_are_longest_runs()
    ensures runs { (bytes : List ℕ) (t : PlacedToken) → Contains (tokens bytes) t → IsLongestRun bytes t }
    ensures all { (bytes : List ℕ) (place : ℕ) → IsTokenByte bytes place → (t : PlacedToken) × Contains (tokens bytes) t × (t.from ≤ place) × (place < t.to) }
    ensures in_order { (bytes : List ℕ) (front : List PlacedToken) (t u : PlacedToken) (back : List PlacedToken) → tokens bytes ≡ front ++ t ∷ u ∷ back → t.to < u.from }
{}
