//! Laws of the definitions. Each is the contract of a function that does nothing.
ghost use Rattle.std.specs.Prelude.{◌≡◌, ◌↔◌, ℕ, ◌<◌, ◌≤◌, List};
ghost use Rattle.contour_map.specs.Places.{AreEdgeValues};
ghost use Rattle.contour_map.specs.Contours.{IsContourMap, contour_map};
ghost use Rattle.contour_map.specs.Scaling.{scaled};

/// The map whose values are taken by the numbers of the edges is the contour map: the edge of each place's number joins the
/// two neighbours of the place.
pub fn contours_are_of_edges()
    ensures { (w h : ℕ) (values : List ℕ) → AreEdgeValues w h values → IsContourMap w h values (contour_map w h values) }
{}

/// Scaling keeps the order of the values, and 0; nothing else becomes 0, and nothing is above 65,535. Where the highest value
/// is at most 65,535 nothing changes; else it becomes 65,535.
pub fn scaling_keeps_the_order()
    ensures order { (high a b : ℕ) → a ≤ b → scaled high a ≤ scaled high b }
    ensures zero { (high a : ℕ) → (scaled high a ≡ 0) ↔ (a ≡ 0) }
    ensures most { (high a : ℕ) → a ≤ high → scaled high a ≤ 65535 }
    ensures same { (high a : ℕ) → high ≤ 65535 → scaled high a ≡ a }
    ensures highest { (high : ℕ) → 65535 < high → scaled high high ≡ 65535 }
{}
