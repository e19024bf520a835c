ghost use Rattle.std.specs.Prelude.{◌≡◌, ℕ, ◌<◌};

/// What a tree reads of the edges that make it: each vertex's place in the part, and each rank's altitude and number.
pub(crate) trait Edges: Sync {
    ghost vertices: { Self → ℕ };

    // How many ranks there are.
    ghost len: { Self → ℕ };

    ghost place_at: { Self → ℕ → ℕ };

    ghost altitude_at: { Self → ℕ → ℕ };

    ghost number_at: { Self → ℕ → ℕ };

    // How many vertices there are.
    fn n(&self) -> u32
        ensures { result ≡ vertices self.now };

    // The place of a vertex.
    fn place(&self, vertex: u32) -> u32
        requires { vertex < vertices self.now }
        ensures value { result ≡ place_at self.now vertex }
        ensures within { result < vertices self.now };

    // The altitude of the edge of a rank.
    fn altitude(&self, rank: u32) -> u64
        requires { rank < len self.now }
        ensures { result ≡ altitude_at self.now rank };

    // The number of the edge of a rank.
    fn number(&self, rank: u32) -> u32
        requires { rank < len self.now }
        ensures { result ≡ number_at self.now rank };
}
