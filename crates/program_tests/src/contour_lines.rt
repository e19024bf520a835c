//! Worked command lines: the checker computes what each gives and compares it with what was written down by hand.
ghost use Rattle.std.specs.Prelude.{◌≡◌, [], ◌∷◌, Some, None, codes};
ghost use Rattle.hg_base.specs.declared.kind.Kind.TheVariants.{Area, Dynamics};
ghost use Rattle.contour_run.specs.Command.{contours_requested};

// Each option is given or isn't, and each has the default that is said of it.
#[tactic(auto, unfolding(clap::proofs::OnLiterals::clap_on_literals, contour_run::specs::Command::higra_contours, contour_run::specs::Command::rows_on, higra_words::specs::Command::with_option))]
fn requests()
    ensures defaults { contours_requested [] ≡ Some (record { kind = Some Dynamics; tile = 64; workers = 4; made = None }) }
    ensures altitude { contours_requested (codes "--kind=altitude" ∷ []) ≡ Some (record { kind = None; tile = 64; workers = 4; made = None }) }
    ensures area { contours_requested (codes "--workers" ∷ codes "1" ∷ codes "--kind" ∷ codes "area" ∷ []) ≡ Some (record { kind = Some Area; tile = 64; workers = 1; made = None }) }
    ensures seeded { contours_requested (codes "--make=3" ∷ codes "--seed=0" ∷ codes "--tile=8" ∷ []) ≡ Some (record { kind = Some Dynamics; tile = 8; workers = 4; made = Some (record { side = 3; seed = 0 }) }) }
{}

// A text out of its row, an option that is unknown or without a text, and a word of its own ask for nothing.
#[tactic(auto, unfolding(clap::proofs::OnLiterals::clap_on_literals, contour_run::specs::Command::higra_contours, contour_run::specs::Command::rows_on, higra_words::specs::Command::with_option))]
fn refused_lines()
    ensures kind { contours_requested (codes "--kind" ∷ codes "depth" ∷ []) ≡ None }
    ensures tile { contours_requested (codes "--tile=0" ∷ []) ≡ None }
    ensures workers { contours_requested (codes "--workers=65" ∷ []) ≡ None }
    ensures seed { contours_requested (codes "--seed=4" ∷ []) ≡ None }
    ensures level { contours_requested (codes "--level=0" ∷ []) ≡ None }
    ensures text { contours_requested (codes "--kind" ∷ []) ≡ None }
    ensures word { contours_requested (codes "cut" ∷ []) ≡ None }
{}

#[test]
fn the_definition_gives_the_worked_lines() {
    requests();
    refused_lines();
}
