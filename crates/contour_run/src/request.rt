// What the words ask for.
ghost use Rattle.std.specs.Prelude.{◌≡◌, Some, None, IfOk, IfSome, option_map};
ghost use Rattle.clap.specs.Words.{found_of, rows_of};
ghost use Rattle.higra_words.specs.Allowed.{CanMake};
ghost use Rattle.contour_run.specs.Command.{contours_requested, request_in};
ghost use Rattle.contour_run.specs.Given.{texts_of};
ghost use Rattle.contour_run.specs.Request.{contour_tree_by, request_by};
ghost use Rattle.contour_run.specs.Running.{CanDraw};

use super::command::{GivenOptions, matches_on, texts_in};
use clap::ArgMatches;
use hg_base::Kind;
use higra_words::{Made, Words, WordsFault, cut_tree_named, made_by, tile_by, workers_by};
use std::alloc::Global;

/// The contours that the words ask for.
#[derive(Clone, Copy, Debug, PartialEq, Eq)]
pub struct ContourRequest {
    /// The kind by which the tree is the hierarchical watershed. None is the graph's own tree.
    pub kind: Option<Kind>,
    /// The side of a tile of the picture.
    pub tile: u32,
    /// How many workers merge tiles.
    pub workers: u32,
    /// The picture to make in place of reading the source, if there is one.
    pub made: Option<Made>,
}

/// The contours that the words ask for: `[--kind K] [--tile N] [--workers W] [--make SIDE] [--seed S]`, read by `clap`.
///
/// Usage exactly where the words give no request, memory aside; OutOfMemory may come for any words.
pub fn contour_request_of(alloc: Global, words: &Words) -> Result<ContourRequest, WordsFault>
    ensures request { IfOk result (λ request. contours_requested words.now ≡ Some request) }
    ensures can_draw { IfOk result CanDraw }
    ensures can_make { IfOk result (λ request. IfSome request.made CanMake) }
    ensures usage { result ≡ Err WordsFault.Usage → contours_requested words.now ≡ None }
{
    let line = words.behind(alloc, "higra_contours")?;
    let matches = matches_on(alloc, &line)?;
    match request_in(&matches) {
        Some(request) => Ok(request),
        None => Err(WordsFault::Usage),
    }
}

// The request of the texts that were found.
fn request_in(matches: &ArgMatches) -> Option<ContourRequest>
    ensures request { result ≡ request_in (rows_of (found_of matches.now)) }
    ensures can_draw { IfSome result CanDraw }
    ensures can_make { IfSome result (λ request. IfSome request.made CanMake) }
{
    let given = texts_in(matches);
    request_by(&given)
}

// The request of these texts.
fn request_by(given: &GivenOptions) -> Option<ContourRequest>
    ensures request { result ≡ request_by (texts_of given.now) }
    ensures can_draw { IfSome result CanDraw }
    ensures can_make { IfSome result (λ request. IfSome request.made CanMake) }
{
    Some(ContourRequest {
        kind: contour_tree_by(given.kind)?,
        tile: tile_by(given.tile)?,
        workers: workers_by(given.workers)?,
        made: made_by(given.make, given.seed)?,
    })
}

// `--kind`: the tree whose contours are drawn. None of the two is the graph's own.
fn contour_tree_by(text: Option<&str>) -> Option<Option<Kind>>
    ensures { result ≡ contour_tree_by (option_map (λ s. s.now) text.entry) }
{
    match text {
        None => Some(Some(Kind::Dynamics)),
        Some(text) => cut_tree_named(text),
    }
}
