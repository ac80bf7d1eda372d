// A whole command line.
ghost use Rattle.std.specs.Prelude.{◌≡◌, IfNone, IfOk, IfSome, List, Some, codes};
ghost use Rattle.std.specs.List.{list_any};
ghost use Rattle.clap.specs.Matches.{found_of};
ghost use Rattle.clap.specs.Simple.{subcommand_rows_of};
ghost use Rattle.clap.specs.Walk.{rows_of};
ghost use Rattle.command_line.specs.Commands.{HasRanges, IsCommand, texts};
ghost use Rattle.command_line.specs.Parser.{Means, is_dashes};
ghost use Rattle.command_line.specs.Written.{Text};

use crate::generated::{LoadOptions, load_options, plan_in};
use crate::options::{RunOptions, run_options};
use crate::parser::parse;
use clap::ArgMatches;
use std::alloc::{AllocError, Global};
use trace_reader::Gen;

/// What the program is to do.
#[derive(Debug, Drop)]
pub enum Command {
    /// Run a trace text.
    Run(RunOptions),
    /// Print a trace text with generated requests.
    Gen(Gen),
    /// Run generated requests, and print how often each reply came.
    Load(LoadOptions),
    /// Hold a report against its text.
    Check,
}

/// Reads the words behind the program's name.
///
/// The first word is the command, and its options follow in any order, each at most once, as `--name value` or as
/// `--name=value`. None comes exactly where the words are none of a command: where there are none, where an option
/// comes twice, has no value or one out of its range, where one that must be given isn't, and where there is any other
/// word. The Err is want of memory.
pub fn read_words<'a>(alloc: Global, words: &'a [&'a str]) -> Result<Option<Command>, AllocError>
    ensures read { IfOk result (λ answer. IfSome answer (λ command. IsCommand (texts words.now) command)) }
    ensures refused { IfOk result (λ answer. IfNone answer ((command : Command) → IsCommand (texts words.now) command
        → ⊥)) }
    ensures ranges { IfOk result (λ answer. IfSome answer HasRanges) }
{
    if has_dashes(words) {
        return Ok(None);
    }
    match parse(alloc, words)? {
        Some(matches) => command_in(alloc, &matches),
        None => Ok(None),
    }
}

// Whether a word is exactly `--`, which clap would pass over.
fn has_dashes(words: &[&str]) -> bool
    ensures { result ≡ list_any (λ word. is_dashes word.now) words.now }
{
    words.iter().any(|word| *word == "--")
}

// The command that clap's matches mean. None where a value has no meaning, or where one that must be given isn't.
fn command_in(alloc: Global, matches: &ArgMatches<'_>) -> Result<Option<Command>, AllocError>
    ensures { IfOk result (Means (subcommand_rows_of matches.now)) }
{
    let Some((name, options)) = matches.subcommand() else {
        return Ok(None);
    };
    match name {
        "run" => run_command(alloc, options),
        "gen" => Ok(gen_command(options)),
        "load" => load_command(alloc, options),
        "check" => Ok(Some(Command::Check)),
        _ => Ok(None),
    }
}

// The command that these options give behind `run`.
fn run_command(alloc: Global, options: &ArgMatches<'_>) -> Result<Option<Command>, AllocError>
    ensures { IfOk result (Means (Some (codes "run", rows_of (found_of options.now)))) }
{
    match run_options(alloc, options)? {
        Some(options) => Ok(Some(Command::Run(options))),
        None => Ok(None),
    }
}

// The same behind `gen`.
fn gen_command(options: &ArgMatches<'_>) -> Option<Command>
    ensures { Means (Some (codes "gen", rows_of (found_of options.now))) result }
{
    match plan_in(options, false) {
        Some(plan) => Some(Command::Gen(plan)),
        None => None,
    }
}

// The same behind `load`.
fn load_command(alloc: Global, options: &ArgMatches<'_>) -> Result<Option<Command>, AllocError>
    ensures { IfOk result (Means (Some (codes "load", rows_of (found_of options.now)))) }
{
    match load_options(alloc, options)? {
        Some(options) => Ok(Some(Command::Load(options))),
        None => Ok(None),
    }
}

/// No words mean two commands.
pub fn words_mean_one_command()
    ensures { (words : List Text) (first second : Command) → IsCommand words first → IsCommand words second
        → first ≡ second }
{}
