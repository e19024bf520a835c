// What the words ask for.
ghost use Rattle.std.specs.Prelude.{◌≡◌, IfOk, IfSome};
ghost use Rattle.clap.specs.Words.{found_of, rows_of};
ghost use Rattle.higra_words.specs.Allowed.{CanMake, CanReport};
ghost use Rattle.higra_words.specs.Command.{request_in, requested};
ghost use Rattle.higra_words.specs.CommandTexts.{texts_of};
ghost use Rattle.higra_words.specs.Request.{alone, cut_by, energy_by, hierarchical_by, report_by, request_by};

use super::command::{CommandTexts, matches_on, texts_in};
use super::fault::WordsFault;
use super::options::{cut_tree_by, form_by, kind_by, level_by, made_by, tile_by, workers_by};
use super::request::{Report, Request};
use super::words::Words;
use clap::ArgMatches;
use std::alloc::Global;

/// What the words ask for: `REPORT [--tile N] [--workers W] [--kind K] [--level T] [--form F] [--make SIDE] [--seed S]`,
/// read by `clap`.
///
/// Usage exactly where the words give no request, memory aside; OutOfMemory may come for any words.
pub fn request_of(alloc: Global, words: &Words) -> Result<Request, WordsFault>
    ensures request { IfOk result (λ request. requested words.now ≡ Some request) }
    ensures can_report { IfOk result CanReport }
    ensures can_make { IfOk result (λ request. IfSome request.made CanMake) }
    ensures usage { result ≡ Err WordsFault.Usage → requested words.now ≡ None }
{
    let line = words.behind(alloc, "higra")?;
    let matches = matches_on(alloc, &line)?;
    match request_in(&matches) {
        Some(request) => Ok(request),
        None => Err(WordsFault::Usage),
    }
}

// The request of the texts that were found.
fn request_in(matches: &ArgMatches) -> Option<Request>
    ensures request { result ≡ request_in (rows_of (found_of matches.now)) }
    ensures can_report { IfSome result CanReport }
    ensures can_make { IfSome result (λ request. IfSome request.made CanMake) }
{
    let given = texts_in(matches)?;
    request_by(&given)
}

// The request of these texts.
fn request_by(given: &CommandTexts) -> Option<Request>
    ensures request { result ≡ request_by (texts_of given.now) }
    ensures can_report { IfSome result CanReport }
    ensures can_make { IfSome result (λ request. IfSome request.made CanMake) }
{
    let report = report_by(given)?;
    Some(Request {
        report,
        tile: tile_by(given.tile)?,
        workers: workers_by(given.workers)?,
        form: form_by(report, given.form)?,
        made: made_by(given.make, given.seed)?,
    })
}

// REPORT, with the options that this report takes.
fn report_by(given: &CommandTexts) -> Option<Report>
    ensures { result ≡ report_by (texts_of given.now) }
{
    match given.report {
        "tree" => alone(given, Report::Tree),
        "zones" => alone(given, Report::Zones),
        "saliency" => alone(given, Report::Saliency),
        "attributes" => alone(given, Report::Attributes),
        "minima" => alone(given, Report::Minima),
        "watershed" => alone(given, Report::Watershed),
        "hierarchical" => hierarchical_by(given),
        "cut" => cut_by(given),
        "summary" => alone(given, Report::Summary),
        "mintree" => alone(given, Report::Mintree),
        "maxtree" => alone(given, Report::Maxtree),
        "energy" => energy_by(given),
        _ => None,
    }
}

// A hierarchical watershed, by its `--kind`.
fn hierarchical_by(given: &CommandTexts) -> Option<Report>
    ensures { result ≡ hierarchical_by (texts_of given.now) }
{
    if given.level.is_some() {
        None
    } else {
        Some(Report::Hierarchical(kind_by(given.kind)?))
    }
}

// A cut, by its `--kind` and its `--level`.
fn cut_by(given: &CommandTexts) -> Option<Report>
    ensures { result ≡ cut_by (texts_of given.now) }
{
    Some(Report::Cut(cut_tree_by(given.kind)?, level_by(given.level)?))
}

// A cut of least energy, by its `--level`.
fn energy_by(given: &CommandTexts) -> Option<Report>
    ensures { result ≡ energy_by (texts_of given.now) }
{
    if given.kind.is_some() {
        None
    } else {
        Some(Report::Energy(level_by(given.level)?))
    }
}

// A report that takes no `--kind` and no `--level`.
fn alone(given: &CommandTexts, report: Report) -> Option<Report>
    ensures { result ≡ alone (texts_of given.now) report }
{
    if given.kind.is_some() || given.level.is_some() {
        None
    } else {
        Some(report)
    }
}
