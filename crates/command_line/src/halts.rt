// The halts that are named on the command line.
ghost use Rattle.std.specs.Prelude.{◌≡◌, ◌∷◌, ◌++◌, ◌<◌, ℕ, [], IfOk, OnOk, length, map, slice_get, Some};
ghost use Rattle.std.specs.List.{slice_split};
ghost use Rattle.command_line.specs.Halts.{all_there, ask_of, halt_in, halt_of, halts_in, is_comma, names_below, names_runner, runners_differ};
ghost use Rattle.command_line.specs.Numbers.{number_in};

use crate::number::{number_in, small_number_in};
use std::alloc::{AllocError, Global};
use std::marker::Model;

/// A runner that is to halt, and at which of its asks, counted from 1.
#[derive(Clone, Copy, Debug, PartialEq, Eq)]
pub struct Halt {
    pub runner: u32,
    pub ask: u64,
}

/// The halts that are named, each of another runner, in their order.
#[derive(Debug, Drop)]
pub struct Halts {
    items: Vec<Halt>,
}

impl Model for Halts {
    ghost use Rattle.std.specs.Prelude.{List};
    ghost use Rattle.command_line.specs.declared.halts.Halt.{Halt};

    ghost Value = { List Halt };

    ghost view = { λ halts. halts.items.items };
}

impl Halts {
    /// No halt.
    pub fn new(alloc: Global) -> Self
        ensures { result ≡ [] }
    {
        Self {
            items: Vec::new(alloc),
        }
    }

    /// The halts in their order.
    pub fn as_slice(&self) -> &[Halt]
        ensures { result.now ≡ self.now }
    {
        self.items.as_slice()
    }

    // Adds one at the end.
    fn push(&mut self, halt: Halt) -> Result<(), AllocError>
        ensures { OnOk result (self.new ≡ self.old ++ halt ∷ []) }
    {
        self.items.push(halt)?;
        Ok(())
    }

    /// The ask at which a runner is to halt, if it is named.
    pub fn ask_of(&self, runner: u32) -> Option<u64>
        ensures { result ≡ ask_of self.now runner }
    {
        ask_of(self.as_slice(), runner)
    }

    /// Whether a runner below this number is named.
    pub fn name_below(&self, runners: u32) -> bool
        ensures { result ≡ names_below self.now runners }
    {
        names_below(self.as_slice(), runners)
    }

    /// For each runner below this number, in order, the ask at which it is to halt, if it is named. The Err is want
    /// of memory.
    pub fn asks(&self, alloc: Global, runners: u32) -> Result<Vec<Option<u64>>, AllocError>
        ensures length { IfOk result (λ asks. length asks.items ≡ runners) }
        ensures asks { IfOk result (λ asks. (runner : ℕ) → runner < runners
            → slice_get asks.items runner ≡ Some (ask_of self.now runner)) }
    {
        asks_of(alloc, self.as_slice(), runners)
    }
}

fn ask_of(halts: &[Halt], runner: u32) -> Option<u64>
    ensures { result ≡ ask_of halts.now runner }
{
    let halt = halts.iter().find(|halt| halt.runner == runner)?;
    Some(halt.ask)
}

fn names_below(halts: &[Halt], runners: u32) -> bool
    ensures { result ≡ names_below halts.now runners }
{
    halts.iter().any(|halt| halt.runner < runners)
}

fn asks_of(alloc: Global, halts: &[Halt], runners: u32) -> Result<Vec<Option<u64>>, AllocError>
    ensures length { IfOk result (λ asks. length asks.items ≡ runners) }
    ensures asks { IfOk result (λ asks. (runner : ℕ) → runner < runners
        → slice_get asks.items runner ≡ Some (ask_of halts.now runner)) }
{
    let mut asks = Vec::new(alloc);
    for runner in 0..runners {
        asks.push(ask_of(halts, runner))?;
    }
    Ok(asks)
}

/// The halts that a text names: `runner:ask`, parted by commas, each of another runner. None where it names none so.
pub fn read_halts(alloc: Global, text: &str) -> Result<Option<Halts>, AllocError>
    ensures { IfOk result (λ halts. halts ≡ halts_in text.now) }
{
    let parts = parts_of(alloc, text)?;
    let Some(halts) = all_halts(alloc, &parts)? else {
        return Ok(None);
    };
    if runners_differ(halts.as_slice()) {
        Ok(Some(halts))
    } else {
        Ok(None)
    }
}

// What commas part.
fn parts_of(alloc: Global, text: &str) -> Result<Vec<&str>, AllocError>
    ensures { IfOk result (λ parts. map (λ part. part.now) parts.items ≡ slice_split is_comma text.now) }
{
    text.split(',').collect(alloc)
}

// The halt that each part names, if each does.
fn all_halts(alloc: Global, parts: &[&str]) -> Result<Option<Halts>, AllocError>
    ensures { IfOk result (λ halts. halts ≡ all_there (map halt_in (map (λ part. part.now) parts.now))) }
{
    let mut halts = Halts::new(alloc);
    for part in parts {
        let Some(halt) = halt_in(part) else {
            return Ok(None);
        };
        halts.push(halt)?;
    }
    Ok(Some(halts))
}

// A runner, a colon and the number of an ask.
fn halt_in(text: &str) -> Option<Halt>
    ensures { result ≡ halt_in text.now }
{
    let (runner, ask) = text.split_once(':')?;
    halt_of(runner, ask)
}

fn halt_of(runner: &str, ask: &str) -> Option<Halt>
    ensures { result ≡ halt_of (number_in 0 15 runner.now) (number_in 1 1000000000000 ask.now) }
{
    let runner = small_number_in(runner, 0, 15)?;
    let ask = number_in(ask, 1, 1_000_000_000_000)?;
    Some(Halt { runner, ask })
}

// No runner comes twice.
fn runners_differ(halts: &[Halt]) -> bool
    ensures { result ≡ runners_differ halts.now }
{
    match halts {
        [] => true,
        [halt, more @ ..] => !names_runner(more, halt.runner) && runners_differ(more),
    }
}

fn names_runner(halts: &[Halt], runner: u32) -> bool
    ensures { result ≡ names_runner halts.now runner }
{
    halts.iter().any(|halt| halt.runner == runner)
}
