//! Laws of the definitions. Each is the contract of a function that does nothing.
ghost use Rattle.std.specs.Prelude.{◌≡◌, Some};
ghost use Rattle.higra_words.specs.Command.{given_by, requested};
ghost use Rattle.higra_words.specs.Request.{CommandLine, request_by};
ghost use Rattle.higra_words.specs.Spelled.{words_of};

/// Each command line can be spelled: the words `--NAME=TEXT` for the options that are given, `--` and REPORT give exactly
/// its texts, whatever these are. So each request of the table can be asked for.
#[tactic(auto, using(crate::proofs::SpelledLemmas::given_by_words_of, crate::proofs::SpelledLemmas::requested_words_of))]
pub fn command_lines_can_be_spelled()
    ensures given { (line : CommandLine) → given_by (words_of line) ≡ Some line }
    ensures requested { (line : CommandLine) → requested (words_of line) ≡ request_by line }
{}
