//! What words mean.

ghost use Rattle.std.specs.Prelude.{◌≡◌, map, option_map};
ghost use Rattle.std.specs.String.{string_bytes};
ghost use Rattle.clap.specs.Words.{first_of, found_of, rows_of, subcommand_rows_of};
ghost use Rattle.path_name.specs.Given.{GivesValue};
ghost use Rattle.composer_words.specs.Words as means;
ghost use Rattle.composer_words.specs.declared.fault.WordsFault.TheVariants.{OutOfMemory};

use crate::number::demo_number;
use crate::simple_command::composer;
use crate::{Chosen, Task, Ways, WordsFault};
use clap::ArgMatches;
use path_name::{Path, Text};
use std::alloc::Global;

/// The command that the words behind the program's name mean, as clap reads them for the command line
/// `[-d DIR] COMMAND`: `install`, `update` and `dump-autoload`, each with `-o`, `-a` and `--no-dev`, then
/// `lookup NAME`, `files`, `check`, `recover` and `demo N`. `Usage` comes exactly where clap refuses the words
/// (a request for help is refused too), where DIR is no path, or where N is not one to three digits that stand
/// for a number from 1 to 400.
pub fn command(alloc: Global, words: &[String]) -> Result<Chosen, WordsFault>
    ensures { GivesValue OutOfMemory (means.command_of (map string_bytes words.now)) result }
{
    let matches = composer(alloc)?.try_get_matches_from(words)?;
    chosen(alloc, &matches)
}

/// What the matches of the command line mean.
#[tactic(auto, unfolding(crate::specs::Words::chosen_of))]
fn chosen(alloc: Global, matches: &ArgMatches<'_>) -> Result<Chosen, WordsFault>
    ensures { GivesValue OutOfMemory (means.chosen_of (rows_of (found_of matches.now)) (subcommand_rows_of matches.now)) result }
{
    let project = project(alloc, value_of(matches, "directory"))?;
    let task = entered_task(alloc, matches)?;
    Ok(Chosen { project, task })
}

/// The value of an option or of a word.
fn value_of<'a>(found: &ArgMatches<'a>, id: &str) -> Option<&'a str>
    ensures { option_map (λ text. text.now) result ≡ first_of id.now (rows_of (found_of found.now)) }
{
    found.get_str(id)
}

/// The project's folder.
fn project(alloc: Global, text: Option<&str>) -> Result<Path, WordsFault>
    ensures { GivesValue OutOfMemory (means.project_of (option_map (λ text. text.now) text.entry)) result }
{
    match text {
        None => Ok(Path::root(alloc)),
        Some(text) => Ok(Path::read(alloc, text.as_bytes())?),
    }
}

/// The task of the command that the words name.
fn entered_task(alloc: Global, matches: &ArgMatches<'_>) -> Result<Task, WordsFault>
    ensures { GivesValue OutOfMemory (means.entered_task (subcommand_rows_of matches.now)) result }
{
    match matches.subcommand() {
        None => Err(WordsFault::Usage),
        Some((name, found)) => task(alloc, name, found),
    }
}

/// The task of the command of this name, with what was found for it.
#[tactic(auto, unfolding(crate::specs::Words::task_of))]
fn task(alloc: Global, name: &str, found: &ArgMatches<'_>) -> Result<Task, WordsFault>
    ensures { GivesValue OutOfMemory (means.task_of name.now (rows_of (found_of found.now))) result }
{
    match name {
        "install" => Ok(Task::Install(ways(found))),
        "update" => Ok(Task::Update(ways(found))),
        "dump-autoload" => Ok(Task::DumpAutoload(ways(found))),
        "lookup" => lookup_task(alloc, value_of(found, "name")),
        "files" => Ok(Task::Files),
        "check" => Ok(Task::Check),
        "recover" => Ok(Task::Recover),
        "demo" => demo_task(value_of(found, "number")),
        _ => Err(WordsFault::Usage),
    }
}

fn lookup_task(alloc: Global, name: Option<&str>) -> Result<Task, WordsFault>
    ensures { GivesValue OutOfMemory (means.lookup_task (option_map (λ text. text.now) name.entry)) result }
{
    match name {
        None => Err(WordsFault::Usage),
        Some(name) => Ok(Task::Lookup(Text::of(Vec::from_slice(alloc, name.as_bytes())?))),
    }
}

fn demo_task(number: Option<&str>) -> Result<Task, WordsFault>
    ensures { result ≡ means.demo_task (option_map (λ text. text.now) number.entry) }
{
    match number {
        None => Err(WordsFault::Usage),
        Some(number) => match demo_number(number) {
            None => Err(WordsFault::Usage),
            Some(packages) => Ok(Task::Demo(packages)),
        },
    }
}

/// Whether a flag was used.
fn is_used(found: &ArgMatches<'_>, id: &str) -> bool
    ensures { result ≡ means.is_used id.now (rows_of (found_of found.now)) }
{
    match value_of(found, id) {
        None => false,
        Some(value) => value == "true",
    }
}

/// The ways that the flags choose.
#[tactic(auto, unfolding(crate::specs::Words::ways_of))]
fn ways(found: &ArgMatches<'_>) -> Ways
    ensures { result ≡ means.ways_of (rows_of (found_of found.now)) }
{
    Ways {
        optimised: is_used(found, "optimised"),
        authoritative: is_used(found, "authoritative"),
        no_dev: is_used(found, "no-dev"),
    }
}
