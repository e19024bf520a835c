// The command line as `clap` reads it.
ghost use Rattle.std.specs.Prelude.{◌≡◌, Some, IfOk, map, option_map};
ghost use Rattle.clap.specs.Words.{app_of, first_of, found_of, rows_of};
ghost use Rattle.higra_words.specs.Command.{IsReadable, found_by, higra, rows_on, texts_in, with_option, with_report};
ghost use Rattle.higra_words.specs.CommandTexts.{texts_of};

use super::fault::WordsFault;
use clap::error::ErrorKind;
use clap::{Arg, ArgMatches, Command};
use std::alloc::{AllocError, Global};

/// The texts of a command line: that of REPORT, and those of the options that are given.
#[derive(Clone, Copy)]
pub(crate) struct CommandTexts<'a> {
    pub report: &'a str,
    pub tile: Option<&'a str>,
    pub workers: Option<&'a str>,
    pub kind: Option<&'a str>,
    pub level: Option<&'a str>,
    pub form: Option<&'a str>,
    pub make: Option<&'a str>,
    pub seed: Option<&'a str>,
}

/// Reads a line of words that begins with the program's name.
pub(crate) fn matches_on<'a>(
    alloc: Global,
    line: &'a [&'a str],
) -> Result<ArgMatches<'a>, WordsFault>
    ensures found { IfOk result (λ matches. rows_on (map (λ s. s.now) line.entry.now) ≡ Some (rows_of (found_of matches))) }
    ensures usage { result ≡ Err WordsFault.Usage → rows_on (map (λ s. s.now) line.entry.now) ≡ None }
{
    let command = command(alloc)?;
    matches_by(command, line)
}

/// Reads a line of words that begins with a program's name, as the program's command. Usage exactly where `clap` finds a
/// fault in it, memory aside.
pub fn matches_by<'a>(
    command: Command<'a>,
    line: &'a [&'a str],
) -> Result<ArgMatches<'a>, WordsFault>
    requires { IsReadable (app_of command) }
    ensures found { IfOk result (λ matches. found_by (app_of command.entry) (map (λ s. s.now) line.entry.now) ≡ Some (rows_of (found_of matches))) }
    ensures usage { result ≡ Err WordsFault.Usage → found_by (app_of command.entry) (map (λ s. s.now) line.entry.now) ≡ None }
{
    match command.try_get_matches_from(line) {
        Ok(matches) => Ok(matches),
        Err(error) => match error.kind() {
            ErrorKind::OutOfMemory => Err(WordsFault::OutOfMemory),
            _ => Err(WordsFault::Usage),
        },
    }
}

// The command `higra`.
#[tactic(auto, unfolding(crate::specs::Command::higra))]
fn command<'a>(alloc: Global) -> Result<Command<'a>, AllocError>
    ensures { IfOk result (λ command. app_of command ≡ higra) }
{
    let command = with_report(alloc, Command::new(alloc, "higra"))?;
    let command = with_option(alloc, command, "tile")?;
    let command = with_option(alloc, command, "workers")?;
    let command = with_option(alloc, command, "kind")?;
    let command = with_option(alloc, command, "level")?;
    let command = with_option(alloc, command, "form")?;
    let command = with_option(alloc, command, "make")?;
    let command = with_option(alloc, command, "seed")?;
    Ok(command)
}

// The command with REPORT, which must be given.
#[tactic(auto, unfolding(crate::specs::Command::with_report))]
fn with_report<'a>(alloc: Global, command: Command<'a>) -> Result<Command<'a>, AllocError>
    ensures { IfOk result (λ new. app_of new ≡ with_report (app_of command.entry)) }
{
    command.arg(Arg::new(alloc, "report").required(true))
}

/// The command with an option of this name, which has one text as its value. The error is want of memory.
#[tactic(auto, unfolding(crate::specs::Command::with_option))]
pub fn with_option<'a>(
    alloc: Global,
    command: Command<'a>,
    name: &'a str,
) -> Result<Command<'a>, AllocError>
    ensures { IfOk result (λ new. app_of new ≡ with_option name.entry.now (app_of command.entry)) }
{
    command.arg(Arg::new(alloc, name).long(name))
}

/// The texts that were found, each under its name.
pub(crate) fn texts_in<'a>(matches: &ArgMatches<'a>) -> Option<CommandTexts<'a>>
    ensures { option_map texts_of result ≡ texts_in (rows_of (found_of matches.now)) }
{
    Some(CommandTexts {
        report: found_text(matches, "report")?,
        tile: found_text(matches, "tile"),
        workers: found_text(matches, "workers"),
        kind: found_text(matches, "kind"),
        level: found_text(matches, "level"),
        form: found_text(matches, "form"),
        make: found_text(matches, "make"),
        seed: found_text(matches, "seed"),
    })
}

/// The text that was found under this name.
pub fn found_text<'a>(matches: &ArgMatches<'a>, name: &str) -> Option<&'a str>
    ensures { option_map (λ s. s.now) result ≡ first_of name.now (rows_of (found_of matches.now)) }
{
    matches.get_str(name)
}
