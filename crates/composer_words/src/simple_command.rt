//! The command line, as clap is told of it.

ghost use Rattle.std.specs.Prelude.{◌≡◌, IfOk, false};
ghost use Rattle.clap.specs.Words.{app_of, rule_of};
ghost use Rattle.clap.specs.declared.builder.command.Command.TheViews.{out-Command};
ghost use Rattle.composer_words.specs.SimpleCommand.{app_of_options, app_with_ways, app_with_word, composer_app, long_flag, short_flag};

use clap::{Arg, ArgAction, Command};
use std::alloc::{AllocError, Global};

/// A flag, `-o` as it were.
fn short_flag<'a>(alloc: Global, id: &'a str, letter: char) -> Arg<'a>
    ensures rule { rule_of result ≡ short_flag id.entry.now letter }
    ensures local { result.global ≡ false }
{
    Arg::new(alloc, id).short(letter).action(ArgAction::SetTrue)
}

/// A flag, `--no-dev` as it were. Its id is its name.
fn long_flag<'a>(alloc: Global, name: &'a str) -> Arg<'a>
    ensures rule { rule_of result ≡ long_flag name.entry.now }
    ensures local { result.global ≡ false }
{
    Arg::new(alloc, name).long(name).action(ArgAction::SetTrue)
}

/// A command that takes `-o`, `-a` and `--no-dev`.
fn with_ways<'a>(alloc: Global, name: &'a str) -> Result<Command<'a>, AllocError>
    ensures app { IfOk result (λ command. app_of command ≡ app_with_ways name.entry.now) }
    ensures local { IfOk result (λ command. (out-Command command).has_globals ≡ false) }
{
    let optimised = short_flag(alloc, "optimised", 'o');
    let authoritative = short_flag(alloc, "authoritative", 'a');
    let no_dev = long_flag(alloc, "no-dev");
    let command = Command::new(alloc, name)
        .arg(optimised)?
        .arg(authoritative)?
        .arg(no_dev)?;
    Ok(command)
}

/// A command that takes one word.
fn with_word<'a>(alloc: Global, name: &'a str, id: &'a str) -> Result<Command<'a>, AllocError>
    ensures app { IfOk result (λ command. app_of command ≡ app_with_word name.entry.now id.entry.now) }
    ensures local { IfOk result (λ command. (out-Command command).has_globals ≡ false) }
{
    let word = Arg::new(alloc, id).action(ArgAction::Set).required(true);
    Command::new(alloc, name).arg(word)
}

/// The options before the command.
fn with_options<'a>(alloc: Global) -> Result<Command<'a>, AllocError>
    ensures app { IfOk result (λ command. app_of command ≡ app_of_options) }
    ensures local { IfOk result (λ command. (out-Command command).has_globals ≡ false) }
{
    let directory = Arg::new(alloc, "directory")
        .short('d')
        .action(ArgAction::Set);
    Command::new(alloc, "composer")
        .no_binary_name(true)
        .subcommand_required(true)
        .arg(directory)
}

/// The whole command line: `[-d DIR] COMMAND`.
pub fn composer<'a>(alloc: Global) -> Result<Command<'a>, AllocError>
    ensures app { IfOk result (λ command. app_of command ≡ composer_app) }
{
    let commands = with_options(alloc)?
        .subcommand(with_ways(alloc, "install")?)?
        .subcommand(with_ways(alloc, "update")?)?
        .subcommand(with_ways(alloc, "dump-autoload")?)?
        .subcommand(with_word(alloc, "lookup", "name")?)?
        .subcommand(Command::new(alloc, "files"))?
        .subcommand(Command::new(alloc, "check"))?
        .subcommand(Command::new(alloc, "recover"))?
        .subcommand(with_word(alloc, "demo", "number")?)?;
    Ok(commands)
}
