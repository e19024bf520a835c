// The command line as `clap` reads it.
ghost use Rattle.std.specs.Prelude.{◌≡◌, Some, None, IfOk, map};
ghost use Rattle.clap.specs.Words.{app_of, found_of, rows_of};
ghost use Rattle.contour_run.specs.Command.{higra_contours, rows_on, texts_in};
ghost use Rattle.contour_run.specs.Given.{texts_of};

use clap::{ArgMatches, Command};
use higra_words::{WordsFault, found_text, matches_by, with_option};
use std::alloc::{AllocError, Global};

/// The texts of the options that are given.
#[derive(Clone, Copy)]
pub(crate) struct GivenOptions<'a> {
    pub kind: Option<&'a str>,
    pub tile: Option<&'a str>,
    pub workers: Option<&'a str>,
    pub make: Option<&'a str>,
    pub seed: Option<&'a str>,
}

/// Reads a line of words that begins with the program's name.
pub(crate) fn matches_on<'a>(
    alloc: Global,
    line: &'a [&'a str],
) -> Result<ArgMatches<'a>, WordsFault>
    ensures found { IfOk result (λ matches. rows_on (map (λ s. s.now) line.entry.now) ≡ Some (rows_of (found_of matches))) }
    ensures usage { result ≡ Err WordsFault.Usage → rows_on (map (λ s. s.now) line.entry.now) ≡ None }
{
    let command = command(alloc)?;
    matches_by(command, line)
}

// The command `higra_contours`.
#[tactic(auto, unfolding(crate::specs::Command::higra_contours))]
fn command<'a>(alloc: Global) -> Result<Command<'a>, AllocError>
    ensures { IfOk result (λ command. app_of command ≡ higra_contours) }
{
    let command = Command::new(alloc, "higra_contours");
    let command = with_option(alloc, command, "kind")?;
    let command = with_option(alloc, command, "tile")?;
    let command = with_option(alloc, command, "workers")?;
    let command = with_option(alloc, command, "make")?;
    let command = with_option(alloc, command, "seed")?;
    Ok(command)
}

/// The texts that were found, each under its name.
pub(crate) fn texts_in<'a>(matches: &ArgMatches<'a>) -> GivenOptions<'a>
    ensures { texts_of result ≡ texts_in (rows_of (found_of matches.now)) }
{
    GivenOptions {
        kind: found_text(matches, "kind"),
        tile: found_text(matches, "tile"),
        workers: found_text(matches, "workers"),
        make: found_text(matches, "make"),
        seed: found_text(matches, "seed"),
    }
}
