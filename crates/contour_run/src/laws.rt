//! Laws of the definitions. Each is the contract of a function that does nothing.
ghost use Rattle.std.specs.Prelude.{◌≡◌, Some};
ghost use Rattle.contour_run.specs.Command.{contours_requested, options_given};
ghost use Rattle.contour_run.specs.Request.{OptionTexts, request_by};
ghost use Rattle.contour_run.specs.Spelled.{words_of};

/// Each choice of texts can be spelled: the words `--NAME=TEXT` for the options that are given give exactly these texts, whatever
/// they are. So each request of the table can be asked for.
#[tactic(auto, using(crate::proofs::SpelledLemmas::options_given_words_of, crate::proofs::SpelledLemmas::requested_words_of))]
pub fn options_can_be_spelled()
    ensures given { (texts : OptionTexts) → options_given (words_of texts) ≡ Some texts }
    ensures requested { (texts : OptionTexts) → contours_requested (words_of texts) ≡ request_by texts }
{}
