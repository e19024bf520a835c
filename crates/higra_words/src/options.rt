// The values of the options, each in its row. None says that the text is no value of the option.
ghost use Rattle.std.specs.Prelude.{◌≡◌, ◌≤◌, IfSome, None, option_map};
ghost use Rattle.std.specs.Char.{is_ascii_digit};
ghost use Rattle.std.specs.List.{list_all};
ghost use Rattle.higra_words.specs.Request.{can_be_drawn, cut_tree_by, cut_tree_named, form_by, form_named, is_number_word, kind_by, kind_named, level_by, made_by, number, number_in, seed_by, tile_by, workers_by};
ghost use Rattle.higra_words.specs.Allowed.{CanMake, IsFormOf};

use super::request::{Form, Made, Report};
use hg_base::Kind;

// The most digits of a number.
const MOST_DIGITS: usize = 20;

/// `--tile`: the greatest number of vertices in a tile of an edge list, or the side of a tile of a picture.
pub fn tile_by(text: Option<&str>) -> Option<u32>
    ensures value { result ≡ tile_by (option_map (λ s. s.now) text.entry) }
    ensures some { IfSome result (λ tile. 1 ≤ tile) }
    ensures most { IfSome result (λ tile. tile ≤ 1048576) }
{
    match text {
        None => Some(64),
        Some(text) => number_in(text, 1, 1_048_576),
    }
}

/// `--workers`: how many workers merge tiles.
pub fn workers_by(text: Option<&str>) -> Option<u32>
    ensures value { result ≡ workers_by (option_map (λ s. s.now) text.entry) }
    ensures some { IfSome result (λ workers. 1 ≤ workers) }
    ensures most { IfSome result (λ workers. workers ≤ 64) }
{
    match text {
        None => Some(4),
        Some(text) => number_in(text, 1, 64),
    }
}

/// `--kind` of a hierarchical watershed: the attribute by which its minima are compared.
pub(crate) fn kind_by(text: Option<&str>) -> Option<Kind>
    ensures { result ≡ kind_by (option_map (λ s. s.now) text.entry) }
{
    match text {
        None => Some(Kind::Dynamics),
        Some(text) => kind_named(text),
    }
}

// The attribute with this name.
fn kind_named(text: &str) -> Option<Kind>
    ensures { result ≡ kind_named text.now }
{
    match text {
        "area" => Some(Kind::Area),
        "volume" => Some(Kind::Volume),
        "dynamics" => Some(Kind::Dynamics),
        _ => None,
    }
}

/// `--kind` of a cut: the tree that is cut. None is the graph's own.
pub(crate) fn cut_tree_by(text: Option<&str>) -> Option<Option<Kind>>
    ensures { result ≡ cut_tree_by (option_map (λ s. s.now) text.entry) }
{
    match text {
        None => Some(None),
        Some(text) => cut_tree_named(text),
    }
}

/// The tree with this name that a cut is of. None is the graph's own.
pub fn cut_tree_named(text: &str) -> Option<Option<Kind>>
    ensures { result ≡ cut_tree_named text.now }
{
    if text == "altitude" {
        Some(None)
    } else {
        Some(Some(kind_named(text)?))
    }
}

/// `--level`: the greatest altitude below which a tree isn't cut, or the penalty of a region.
pub(crate) fn level_by(text: Option<&str>) -> Option<u64>
    ensures { result ≡ level_by (option_map (λ s. s.now) text.entry) }
{
    match text {
        None => Some(0),
        Some(text) => number(text),
    }
}

/// `--form`: the form of the report.
pub(crate) fn form_by(report: Report, text: Option<&str>) -> Option<Form>
    ensures form { result ≡ form_by report (option_map (λ s. s.now) text.entry) }
    ensures drawn { IfSome result (IsFormOf report) }
{
    match text {
        None => Some(Form::Text),
        Some(text) => form_named(report, text),
    }
}

// The form with this name, where the report can have it.
fn form_named(report: Report, text: &str) -> Option<Form>
    ensures form { result ≡ form_named report text.now }
    ensures drawn { IfSome result (IsFormOf report) }
{
    if text == "text" {
        Some(Form::Text)
    } else if text == "pgm" && can_be_drawn(report) {
        Some(Form::Pgm)
    } else {
        None
    }
}

// Whether the report can be drawn as a picture.
fn can_be_drawn(report: Report) -> bool
    ensures { result ≡ can_be_drawn report }
{
    matches!(
        report,
        Report::Watershed | Report::Cut(_, _) | Report::Energy(_)
    )
}

/// `--make` and `--seed`: the picture that is made, if one is. A seed needs a side.
pub fn made_by(make: Option<&str>, seed: Option<&str>) -> Option<Option<Made>>
    ensures value { result ≡ made_by (option_map (λ s. s.now) make.entry) (option_map (λ s. s.now) seed.entry) }
    ensures can_make { IfSome result (λ made. IfSome made CanMake) }
{
    match make {
        None if seed.is_some() => None,
        None => Some(None),
        Some(side) => Some(Some(Made {
            side: number_in(side, 1, 1024)?,
            seed: seed_by(seed)?,
        })),
    }
}

// `--seed`: from where the samples of a picture are made.
fn seed_by(text: Option<&str>) -> Option<u32>
    ensures { result ≡ seed_by (option_map (λ s. s.now) text.entry) }
{
    match text {
        None => Some(1),
        Some(text) => number_in(text, 0, u32::MAX),
    }
}

// The value of a number from `least` to `most`: one to twenty digits, and no sign.
fn number_in(text: &str, least: u32, most: u32) -> Option<u32>
    ensures value { result ≡ number_in least most text.now }
    ensures least { IfSome result (λ number. least ≤ number) }
    ensures most { IfSome result (λ number. number ≤ most) }
{
    let number = number(text)?;
    if u64::from(least) <= number && number <= u64::from(most) {
        Some(number as u32)
    } else {
        None
    }
}

// The value of a number.
#[tactic(auto, using(crate::proofs::NumberLemmas::number_read))]
fn number(text: &str) -> Option<u64>
    ensures { result ≡ number text.now }
{
    if is_number(text) {
        text.parse::<u64>().ok()
    } else {
        None
    }
}

// Whether the text is one to twenty digits.
fn is_number(text: &str) -> bool
    ensures { result ≡ is_number_word text.now }
{
    is_digits(text.as_bytes()) && !text.is_empty() && text.len() <= MOST_DIGITS
}

// Whether each byte is a digit.
fn is_digits(bytes: &[u8]) -> bool
    ensures { result ≡ list_all is_ascii_digit bytes.now }
{
    bytes.iter().all(|byte| byte.is_ascii_digit())
}
