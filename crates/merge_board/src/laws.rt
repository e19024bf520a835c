//! What holds of every board at every moment, each law as the contract of a function that does nothing.
//!
//! Each law is of the very rule of the running table, that of its key. The rule holds when the board is set up, and each
//! kind of step keeps it, from any state that meets it: the draw, the three kinds of arrival, the two exchanges of a slot
//! that is out with a seat, the split of a seat and the join of two.
ghost use Rattle.std.specs.Prelude.{◌≡◌, ℕ, ◌+◌, ◌%◌, ◌^◌, ◌<◌, ◌≤◌, [], ◌∷◌, ◌++◌, None, Some, Option, true, false, List, replicate, slice_index};
ghost use lib.ListN.{get_elem?};
ghost use Rattle.atomic_table.specs.Table.{State, Allows, Splits, Joins, opening, turned};
ghost use Rattle.tile_plan.specs.Plan.{IsPlan, tile_count};
ghost use Rattle.border_climb.specs.Stands.{PartState};
ghost use Rattle.merge_board.specs.Fits.{Fits};
ghost use Rattle.merge_board.specs.Board.{IsPart, IsStatus, HasOneState, Shows, door, toll};
ghost use Rattle.merge_board.specs.Seats.{split_left, split_right, joined_seats, left_over};
ghost use Rattle.merge_board.specs.RuleOfKey.{rule_of, first_of};
ghost use Rattle.merge_board.specs.Opening.{AreOpened, KnowsNoDraw};
ghost use Rattle.merge_board.specs.Exchanges.{IsOut, AreOut, SlotState, exchanged, with_slot};
ghost use Rattle.merge_board.specs.Steps.{Hold, Draws, Arrives, AreBelow, AreTurns};
ghost use Rattle.merge_board.specs.declared.view.View.{View};
ghost use Rattle.merge_board.specs.declared.view.Key.{Key};

/// The rule holds where a board is set up: each word is 0, each tile's slot has its part, and one seat stands for all
/// workers.
pub fn a_new_board_keeps_the_rule()
    ensures { (key : Key) (slots : List (Option PartState)) → IsPlan key.plan.value → 1 ≤ key.workers → key.workers ≤ 64 → AreOpened key.plan.value slots
        → rule_of key (opening (replicate (tile_count key.plan.value + 1) 0) slots (first_of key)) }
{}

/// No tile is drawn where no seat that stands for a worker has seen a draw or missed: word 0, which counts the draws,
/// is 0.
pub fn boards_with_no_draw()
    ensures { (key : Key) (s : State (Option PartState) View) → rule_of key s → ((k : ℕ) (v : View) → Shows (get_elem? s.views) k v → 1 ≤ v.share → KnowsNoDraw v) → slice_index s.words 0 ≡ 0 }
{}

/// A draw keeps the rule, whatever it finds.
pub fn draws_keep_the_rule()
    ensures { (key : Key) (id slots : ℕ) (me : Hold) → me.0.hand ≡ None → me.0.missed ≡ false → 1 ≤ me.0.share → me.0.plan ≡ key.plan.value → me.1 ≡ []
        → Allows (rule_of key) slots id me 0 (λ z. (z + 1) % 2 ^ 64) (λ n after. Draws me n after) }
{}

/// An arrival keeps the rule, whatever it finds: first, second, or that of the root.
pub fn arrivals_keep_the_rule()
    ensures { (key : Key) (id slots i : ℕ) (v : View) (y : PartState) → v.hand ≡ Some i → v.plan ≡ key.plan.value → Fits key.plan.value i y → (below : List (ℕ × Option PartState)) → AreBelow key.plan.value i below
        → Allows (rule_of key) slots id (v, below ++ (i, Some y) ∷ []) (door key.plan.value i) (λ z. (z + toll key.plan.value i) % 2 ^ 64) (λ n after. Arrives (v, below ++ (i, Some y) ∷ []) n after) }
{}

/// A split of a seat and a join of two seats keep the rule.
pub fn seats_keep_the_rule()
    ensures split { (key : Key) (id : ℕ) (v : View) → v.hand ≡ None → v.missed ≡ false → 2 ≤ v.share → Splits (rule_of key) id v (split_left v) (split_right v) }
    ensures join { (key : Key) (id other : ℕ) (v u : View) → v.hand ≡ None → v.missed ≡ true → u.hand ≡ None → u.missed ≡ true → 1 ≤ v.share
        → Joins (rule_of key) id v other u (joined_seats v u) left_over }
{}

/// At every moment each part is in exactly one state: it is unborn, in exactly one seat's hand, at home or spent, and no
/// two of these; and a part at home stands for exactly the edges at and below it.
pub fn parts_of_a_board()
    ensures state { (key : Key) (i : ℕ) (s : State (Option PartState) View) → rule_of key s → IsPart key.plan.value i → IsStatus key.plan.value s i }
    ensures one { (key : Key) (i : ℕ) (s : State (Option PartState) View) → rule_of key s → IsPart key.plan.value i → HasOneState key.plan.value (slice_index s.words) i }
{}

/// Each slot that a seat holds is of a part in hand or spent, never of one that is unborn or at home; and whatever is in
/// the slot of such a part, the rule holds.
pub fn slots_out_with_a_seat()
    ensures seat { (key : Key) (s : State (Option PartState) View) (k : ℕ) (me : Hold) → rule_of key s → Shows (get_elem? s.views) k me.0 → 1 ≤ me.0.share → AreTurns me.0.plan me.0.hand me.1
        → AreOut key.plan.value (slice_index s.words) me.1 }
    ensures free { (key : Key) (s : State (Option PartState) View) (i : ℕ) (slot : SlotState) → rule_of key s → IsOut key.plan.value (slice_index s.words) i → rule_of key (with_slot s i slot) }
{}

/// Both exchanges keep the rule, where a part is put into a slot that is out with a seat and where one is taken out:
/// they change neither words nor views nor slots at home, and the seat's view stays. The seat holds the slots that it
/// held, those of the part in its hand and of the part's halves, and each of them stays out, also where a turn brings
/// another one to the front.
pub fn exchanges_keep_the_rule()
    ensures rule { (key : Key) (s : State (Option PartState) View) (me : Hold) (x : Option PartState) → rule_of key s → rule_of key (exchanged s me x).0 }
    ensures view { (s : State (Option PartState) View) (me : Hold) (x : Option PartState) → (exchanged s me x).1.0 ≡ me.0 }
    ensures turns { (s : State (Option PartState) View) (me : Hold) (x : Option PartState) → AreTurns me.0.plan me.0.hand me.1 → AreTurns me.0.plan me.0.hand (exchanged s me x).1.1 }
    ensures out { (key : Key) (s : State (Option PartState) View) (me : Hold) (x : Option PartState) → AreOut key.plan.value (slice_index s.words) me.1 → AreOut key.plan.value (slice_index s.words) (exchanged s me x).1.1 }
    ensures turned { (key : Key) (s : State (Option PartState) View) (held : List (ℕ × Option PartState)) → AreOut key.plan.value (slice_index s.words) held → AreOut key.plan.value (slice_index s.words) (turned held) }
{}
