//! Worked command lines: the checker computes what each gives and compares it with what was written down by hand.
//! So they show what the definition says to someone who doesn't know `clap`; no code runs.
ghost use Rattle.std.specs.Prelude.{◌≡◌, [], ◌∷◌, Some, None, codes};
ghost use Rattle.higra_words.specs.Command.{given_by, requested};
ghost use Rattle.program_tests.specs.Worked.{only, text_in, tree_in};
ghost use Rattle.hg_base.specs.declared.kind.Kind.TheVariants.{Area, Dynamics, Volume};
ghost use Rattle.higra_words.specs.declared.request.Report.TheVariants.{Attributes, Cut, Energy, Hierarchical, Maxtree, Minima, Mintree, Summary, Watershed};

// An option stands before the report or behind it; its text is the next word, or what follows a `=`. A `--` alone counts for nothing.
#[tactic(auto, unfolding(clap::proofs::OnLiterals::clap_on_literals, higra_words::specs::Command::higra, higra_words::specs::Command::rows_on, higra_words::specs::Command::with_option, higra_words::specs::Command::with_report))]
fn options_and_their_texts()
    ensures none { given_by (codes "tree" ∷ []) ≡ Some (only (codes "tree")) }
    ensures behind { given_by (codes "tree" ∷ codes "--tile" ∷ codes "8" ∷ []) ≡ Some (record (only (codes "tree")) { tile = Some (codes "8") }) }
    ensures before { given_by (codes "--tile" ∷ codes "8" ∷ codes "tree" ∷ []) ≡ Some (record (only (codes "tree")) { tile = Some (codes "8") }) }
    ensures equals { given_by (codes "tree" ∷ codes "--tile=8" ∷ []) ≡ Some (record (only (codes "tree")) { tile = Some (codes "8") }) }
    ensures dashes { given_by (codes "--tile" ∷ codes "8" ∷ codes "--" ∷ codes "tree" ∷ []) ≡ Some (record (only (codes "tree")) { tile = Some (codes "8") }) }
    ensures two { given_by (codes "--level=3" ∷ codes "cut" ∷ codes "--kind" ∷ codes "altitude" ∷ []) ≡ Some (record (only (codes "cut")) { kind = Some (codes "altitude"); level = Some (codes "3") }) }
{}

// Any text is one, also that of a word that is no report or no number.
#[tactic(auto, unfolding(clap::proofs::OnLiterals::clap_on_literals, higra_words::specs::Command::higra, higra_words::specs::Command::rows_on, higra_words::specs::Command::with_option, higra_words::specs::Command::with_report))]
fn texts_of_any_kind()
    ensures word { given_by (codes "help" ∷ []) ≡ Some (only (codes "help")) }
    ensures dash { given_by (codes "-" ∷ []) ≡ Some (only (codes "-")) }
    ensures empty { given_by (codes "tree" ∷ codes "--tile=" ∷ []) ≡ Some (record (only (codes "tree")) { tile = Some [] }) }
    ensures sign { given_by (codes "tree" ∷ codes "--tile" ∷ codes "+8" ∷ []) ≡ Some (record (only (codes "tree")) { tile = Some (codes "+8") }) }
{}

// Where an option is unknown, repeated or without a text, and where REPORT is missing or repeated, nothing is given. A text that begins with `-` needs the `=`.
#[tactic(auto, unfolding(clap::proofs::OnLiterals::clap_on_literals, higra_words::specs::Command::higra, higra_words::specs::Command::rows_on, higra_words::specs::Command::with_option, higra_words::specs::Command::with_report))]
fn refused_lines()
    ensures nothing { given_by ([]) ≡ None }
    ensures no_report { given_by (codes "--tile" ∷ codes "8" ∷ []) ≡ None }
    ensures two_reports { given_by (codes "tree" ∷ codes "tree" ∷ []) ≡ None }
    ensures unknown { given_by (codes "tree" ∷ codes "--report" ∷ codes "tree" ∷ []) ≡ None }
    ensures shortened { given_by (codes "tree" ∷ codes "--til" ∷ codes "8" ∷ []) ≡ None }
    ensures short { given_by (codes "tree" ∷ codes "-t" ∷ codes "8" ∷ []) ≡ None }
    ensures no_text { given_by (codes "tree" ∷ codes "--tile" ∷ []) ≡ None }
    ensures dashed_text { given_by (codes "tree" ∷ codes "--tile" ∷ codes "-1" ∷ []) ≡ None }
    ensures repeated { given_by (codes "tree" ∷ codes "--tile" ∷ codes "8" ∷ codes "--tile" ∷ codes "8" ∷ []) ≡ None }
    ensures help { given_by (codes "--help" ∷ []) ≡ None }
    ensures short_help { given_by (codes "tree" ∷ codes "-h" ∷ []) ≡ None }
    ensures version { given_by (codes "tree" ∷ codes "--version" ∷ []) ≡ None }
{}

// What the texts ask for: leading zeros count for nothing.
#[tactic(auto, unfolding(clap::proofs::OnLiterals::clap_on_literals, higra_words::specs::Command::higra, higra_words::specs::Command::rows_on, higra_words::specs::Command::with_option, higra_words::specs::Command::with_report))]
fn requests()
    ensures plain { requested (codes "tree" ∷ []) ≡ Some (tree_in 64 4) }
    ensures zeros { requested (codes "tree" ∷ codes "--tile" ∷ codes "08" ∷ []) ≡ Some (tree_in 8 4) }
    ensures twenty { requested (codes "tree" ∷ codes "--tile" ∷ codes "00000000000000000008" ∷ []) ≡ Some (tree_in 8 4) }
    ensures most { requested (codes "tree" ∷ codes "--tile" ∷ codes "1048576" ∷ codes "--workers" ∷ codes "64" ∷ []) ≡ Some (tree_in 1048576 64) }
    ensures form { requested (codes "tree" ∷ codes "--workers=1" ∷ codes "--form" ∷ codes "text" ∷ []) ≡ Some (tree_in 64 1) }
    ensures attributes { requested (codes "attributes" ∷ codes "--tile" ∷ codes "8" ∷ []) ≡ Some (text_in 8 4 Attributes) }
    ensures minima { requested (codes "--form=text" ∷ codes "minima" ∷ []) ≡ Some (text_in 64 4 Minima) }
    ensures watershed { requested (codes "watershed" ∷ codes "--workers" ∷ codes "2" ∷ []) ≡ Some (text_in 64 2 Watershed) }
    ensures summary { requested (codes "summary" ∷ []) ≡ Some (text_in 64 4 Summary) }
    ensures hierarchical { requested (codes "hierarchical" ∷ []) ≡ Some (text_in 64 4 (Hierarchical Dynamics)) }
    ensures by_area { requested (codes "hierarchical" ∷ codes "--kind=area" ∷ []) ≡ Some (text_in 64 4 (Hierarchical Area)) }
    ensures cut { requested (codes "cut" ∷ codes "--kind=altitude" ∷ codes "--level=3" ∷ []) ≡ Some (text_in 64 4 (Cut None 3)) }
    ensures cut_by_volume { requested (codes "cut" ∷ codes "--kind=volume" ∷ []) ≡ Some (text_in 64 4 (Cut (Some Volume) 0)) }
    ensures energy { requested (codes "energy" ∷ codes "--level=2" ∷ []) ≡ Some (text_in 64 4 (Energy 2)) }
    ensures mintree { requested (codes "mintree" ∷ []) ≡ Some (text_in 64 4 Mintree) }
    ensures maxtree { requested (codes "maxtree" ∷ []) ≡ Some (text_in 64 4 Maxtree) }
{}

// A text out of its row, and an option that the report doesn't take, ask for nothing.
#[tactic(auto, unfolding(clap::proofs::OnLiterals::clap_on_literals, higra_words::specs::Command::higra, higra_words::specs::Command::rows_on, higra_words::specs::Command::with_option, higra_words::specs::Command::with_report))]
fn refused_texts()
    ensures unknown { requested (codes "forest" ∷ []) ≡ None }
    ensures below { requested (codes "tree" ∷ codes "--tile" ∷ codes "0" ∷ []) ≡ None }
    ensures above { requested (codes "tree" ∷ codes "--workers" ∷ codes "65" ∷ []) ≡ None }
    ensures sign { requested (codes "tree" ∷ codes "--tile" ∷ codes "+8" ∷ []) ≡ None }
    ensures digits { requested (codes "tree" ∷ codes "--tile" ∷ codes "000000000000000000008" ∷ []) ≡ None }
    ensures large { requested (codes "tree" ∷ codes "--tile" ∷ codes "18446744073709551616" ∷ []) ≡ None }
    ensures level { requested (codes "tree" ∷ codes "--level" ∷ codes "0" ∷ []) ≡ None }
    ensures kind { requested (codes "tree" ∷ codes "--kind" ∷ codes "altitude" ∷ []) ≡ None }
    ensures seed { requested (codes "tree" ∷ codes "--seed" ∷ codes "4" ∷ []) ≡ None }
    ensures level_of_attributes { requested (codes "attributes" ∷ codes "--level" ∷ codes "0" ∷ []) ≡ None }
    ensures kind_of_minima { requested (codes "minima" ∷ codes "--kind" ∷ codes "altitude" ∷ []) ≡ None }
    ensures picture_of_minima { requested (codes "minima" ∷ codes "--form" ∷ codes "pgm" ∷ []) ≡ None }
    ensures kind_of_hierarchical { requested (codes "hierarchical" ∷ codes "--kind=altitude" ∷ []) ≡ None }
    ensures kind_of_energy { requested (codes "energy" ∷ codes "--kind=area" ∷ []) ≡ None }
    ensures picture_of_mintree { requested (codes "mintree" ∷ codes "--form=pgm" ∷ []) ≡ None }
{}

#[test]
fn the_definition_gives_the_worked_lines() {
    options_and_their_texts();
    texts_of_any_kind();
    refused_lines();
    requests();
    refused_texts();
}
