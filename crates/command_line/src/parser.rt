// The command line as clap reads it.
ghost use Rattle.std.specs.Prelude.{◌≡◌, [], false, IfNone, IfOk, IfSome, option_map};
ghost use Rattle.clap.specs.Faults.{fault_of};
ghost use Rattle.clap.specs.Simple.{app_of, subcommand_of, subcommand_rows_of};
ghost use Rattle.command_line.specs.Commands.{texts};
ghost use Rattle.clap.specs.Walk.{rule_of};
ghost use Rattle.command_line.specs.Parser.{flock_app, has_globals, option_rule, said_by, shape_with};

use clap::error::ErrorKind;
use clap::{Arg, ArgAction, ArgMatches, Command};
use std::alloc::{AllocError, Global};

// The names of the options of `run`.
static RUN_NAMES: [&str; 8] = [
    "table",
    "runners",
    "buckets",
    "nodes",
    "sections",
    "version-max",
    "reads",
    "halt",
];

// The names of the options of `gen`.
static GEN_NAMES: [&str; 4] = ["seed", "traces", "length", "keys"];

// Those of `load`: these, and those of `run` but for the halts.
static LOAD_NAMES: [&str; 11] = [
    "seed",
    "traces",
    "length",
    "keys",
    "table",
    "runners",
    "buckets",
    "nodes",
    "sections",
    "version-max",
    "reads",
];

// `check` has none.
static CHECK_NAMES: [&str; 0] = [];

/// What clap makes of the words. None where it refuses them, also where it would answer with help. The Err is want of
/// memory.
pub fn parse<'a>(alloc: Global, words: &'a [&'a str]) -> Result<Option<ArgMatches<'a>>, AllocError>
    ensures faultless { IfOk result (λ answer. IfSome answer (λ matches. fault_of flock_app (texts words.now) ≡ [])) }
    ensures matches { IfOk result (λ answer. IfSome answer
        (λ matches. subcommand_rows_of matches ≡ subcommand_of flock_app (texts words.now))) }
    ensures refused { IfOk result (λ answer. IfNone answer (fault_of flock_app (texts words.now) ≡ [] → ⊥)) }
{
    match flock(alloc)?.try_get_matches_from(words) {
        Ok(matches) => Ok(Some(matches)),
        Err(error) => match error.kind() {
            ErrorKind::OutOfMemory => Err(AllocError),
            _ => Ok(None),
        },
    }
}

// The four commands. What clap says of them is never shown, so there is no help.
fn flock<'a>(alloc: Global) -> Result<Command<'a>, AllocError>
    ensures { IfOk result (λ command. app_of command ≡ flock_app) }
{
    let run = with_options(alloc, "run", &RUN_NAMES)?;
    let generate = with_options(alloc, "gen", &GEN_NAMES)?;
    let load = with_options(alloc, "load", &LOAD_NAMES)?;
    let check = with_options(alloc, "check", &CHECK_NAMES)?;
    Command::new(alloc, "flock")
        .no_binary_name(true)
        .disable_help_flag(true)
        .disable_help_subcommand(true)
        .subcommand_required(true)
        .subcommand(run)?
        .subcommand(generate)?
        .subcommand(load)?
        .subcommand(check)
}

// A command with these options, each of which takes one text.
fn with_options<'a>(
    alloc: Global,
    name: &'a str,
    options: &'a [&'a str],
) -> Result<Command<'a>, AllocError>
    ensures app { IfOk result (λ command. app_of command ≡ record {
      top = shape_with name.now (texts options.now);
      subs = [];
    }) }
    ensures local { IfOk result (λ command. has_globals command ≡ false) }
{
    let mut command = Command::new(alloc, name);
    for option in options {
        command = command.arg(option_named(alloc, *option))?;
    }
    Ok(command)
}

// An option that takes one text.
fn option_named<'a>(alloc: Global, name: &'a str) -> Arg<'a>
    ensures rule { rule_of result ≡ option_rule name.now }
    ensures local { result.global ≡ false }
{
    Arg::new(alloc, name).long(name).action(ArgAction::Set)
}

/// What an option was given, if it is there.
pub fn value_of<'a>(matches: &ArgMatches<'a>, name: &str) -> Option<&'a str>
    ensures { option_map (λ value. value.now) result ≡ said_by matches.now name.now }
{
    matches.get_str(name)
}
