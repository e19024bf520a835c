//! What holds of every shift at every moment, each law as the contract of a function that does nothing.
//!
//! The rule holds when the shift is started, and each kind of step keeps it, from any state that meets it: the draw of a
//! number, the split of a hand and the join of two.
ghost use Rattle.std.specs.Prelude.{◌≡◌, ℕ, ◌+◌, ◌%◌, ◌^◌, ◌<◌, ◌≤◌, [], ◌∷◌, true, false};
ghost use Rattle.atomic_table.specs.Table.{Allows, Splits, Joins, opening};
ghost use Rattle.job_shift.specs.Shift.{ShiftTable, IsShift, IsPairOf, Shows, steps};
ghost use Rattle.job_shift.specs.Hands.{first_view, split_left, split_right, joined_hands, left_over};
ghost use Rattle.job_shift.specs.Steps.{Hold, Steps};
ghost use Rattle.job_shift.specs.declared.view.HandView.{HandView};

/// The rule holds where a shift is started: no step was made, and one hand that got nothing stands for all workers.
pub fn a_new_shift_keeps_the_rule()
    ensures { (count workers : ℕ) → 1 ≤ count → count ≤ 4096 → 1 ≤ workers → workers ≤ 64 → IsShift count workers (opening (0 ∷ []) [] (first_view count workers)) }
{}

/// A step of a hand keeps the rule, whatever it finds.
pub fn steps_keep_the_rule()
    ensures { (count workers id slots : ℕ) (me : Hold) → me.0.missed ≡ false → 1 ≤ me.0.share → me.0.count ≡ count → me.0.workers ≡ workers
        → Allows (IsShift count workers) slots id me 0 (λ z. (z + 1) % 2 ^ 64) (λ n after. Steps me n after) }
{}

/// A split of a hand and a join of two hands keep the rule.
pub fn hands_keep_the_rule()
    ensures split { (count workers id : ℕ) (v : HandView) → v.pairs ≡ [] → v.missed ≡ false → 2 ≤ v.share → Splits (IsShift count workers) id v (split_left v) (split_right v) }
    ensures join { (count workers id other : ℕ) (v u : HandView) → v.missed ≡ true → u.missed ≡ true → 1 ≤ v.share
        → Joins (IsShift count workers) id v other u (joined_hands v u) left_over }
{}

/// At every moment the numbers that were handed out are those of jobs and are distinct, and they are the first so many
/// as there were steps; where none was handed out, there was no step.
pub fn numbers_of_a_shift()
    ensures jobs { (count workers k a j : ℕ) (s : ShiftTable) → IsShift count workers s → IsPairOf s k a j → (j < count) × (j < steps s) }
    ensures distinct { (count workers k l a b j : ℕ) (s : ShiftTable) → IsShift count workers s → IsPairOf s k a j → IsPairOf s l b j → (k ≡ l) × (a ≡ b) }
    ensures all { (count workers j : ℕ) (s : ShiftTable) → IsShift count workers s → j < count → j < steps s → (k : ℕ) × ((a : ℕ) × IsPairOf s k a j) }
    ensures none { (count workers : ℕ) (s : ShiftTable) → IsShift count workers s → ((k : ℕ) (v : HandView) → Shows s k v → v.pairs ≡ []) → steps s ≡ 0 }
{}
