// What `gen` and `load` are given.
ghost use Rattle.std.specs.Prelude.{◌≡◌, IfNone, IfOk, IfSome, option_and_then, option_map};
ghost use Rattle.command_line.specs.Generated.{MeanLoad, MeanPlan};
ghost use Rattle.command_line.specs.Numbers.{number_in};
ghost use Rattle.command_line.specs.Parser.{said_by};

use crate::number::small_number_in;
use crate::options::{RunOptions, run_options};
use crate::parser::value_of;
use clap::ArgMatches;
use std::alloc::{AllocError, Global};
use trace_reader::Gen;

/// The options of `load`.
#[derive(Debug, Drop)]
pub struct LoadOptions {
    /// `--seed`, `--traces`, `--length` and `--keys`: what is to be generated, each trace with keys of its own.
    pub plan: Gen,
    /// The options of `run`, without halts.
    pub run: RunOptions,
}

/// What these options of `load` mean. None where one of them has no meaning, or one of the four numbers isn't given.
pub fn load_options(
    alloc: Global,
    given: &ArgMatches<'_>,
) -> Result<Option<LoadOptions>, AllocError>
    ensures read { IfOk result (λ answer. IfSome answer (MeanLoad (said_by given.now))) }
    ensures refused { IfOk result (λ answer. IfNone answer ((options : LoadOptions)
        → MeanLoad (said_by given.now) options → ⊥)) }
{
    let Some(plan) = plan_in(given, true) else {
        return Ok(None);
    };
    match run_options(alloc, given)? {
        Some(run) => Ok(Some(LoadOptions { plan, run })),
        None => Ok(None),
    }
}

/// What these options say is to be generated. None where one of the numbers isn't given, or is out of its range.
pub fn plan_in(given: &ArgMatches<'_>, apart: bool) -> Option<Gen>
    ensures read { IfSome result (MeanPlan (said_by given.now) apart) }
    ensures refused { IfNone result ((plan : Gen) → MeanPlan (said_by given.now) apart plan → ⊥) }
{
    let seed = number_given(value_of(given, "seed"), 0, 2_147_483_647)?;
    let traces = number_given(value_of(given, "traces"), 0, 64)?;
    let length = number_given(value_of(given, "length"), 0, 131_072)?;
    let keys = number_given(value_of(given, "keys"), 1, 32_768)?;
    Some(Gen {
        seed,
        traces,
        length,
        keys,
        apart,
    })
}

// A number that must be given.
fn number_given(text: Option<&str>, least: u32, greatest: u32) -> Option<u32>
    ensures { result ≡ option_and_then (number_in least greatest) (option_map (λ text. text.now) text.entry) }
{
    small_number_in(text?, least, greatest)
}
