// What `run` is given.
ghost use Rattle.std.specs.Prelude.{◌≡◌, ◌<◌, ◌≤◌, [], IfOk, IfNone, IfSome, Some, codes, option_map};
ghost use Rattle.command_line.specs.declared.options.Reads.TheVariants.{Lock};
ghost use Rattle.command_line.specs.declared.options.TableKind.TheVariants.{Hash};
ghost use Rattle.command_line.specs.Halts.{halts_in};
ghost use Rattle.command_line.specs.Numbers.{exponent_in, number_in};
ghost use Rattle.command_line.specs.Options.{Mean, are_free, bits_by, bits_for, meant, meant_or, nodes_by, reads_in, runners_by, table_in};
ghost use Rattle.command_line.specs.Parser.{said_by};

use crate::halts::{Halts, read_halts};
use crate::number::{exponent_in, small_number_in};
use crate::parser::value_of;
use clap::ArgMatches;
use std::alloc::{AllocError, Global};

/// Which structure keeps the map.
#[derive(Clone, Copy, Debug, PartialEq, Eq)]
pub enum TableKind {
    /// The hash table with a lock for each bucket.
    Hash,
    /// The search tree with a lock in each inner node.
    Tree,
    /// The sorted list with a lock in each node.
    List,
}

/// How the requests that only read are served.
#[derive(Clone, Copy, Debug, PartialEq, Eq)]
pub enum Reads {
    /// Under their locks, like every other request.
    Lock,
    /// Without a lock, by loads between two equal readings of it; under it where that fails.
    Free,
}

impl Reads {
    /// Whether reads are served without a lock.
    pub fn are_free(self) -> bool
        ensures { result ≡ are_free self }
    {
        self == Reads::Free
    }
}

/// The options of `run`. Where a default depends on the text that is run, an option that isn't given is None.
#[derive(Debug, Drop)]
pub struct RunOptions {
    /// `--table`: which structure keeps the map.
    pub table: TableKind,
    /// `--runners`: how many runners serve the requests, 1 to 16.
    pub runners: Option<u32>,
    /// `--buckets`: as a power of two, by its exponent, 0 to 12.
    pub bucket_bits: Option<u32>,
    /// `--nodes`: the node slots of each runner.
    pub nodes: Option<u32>,
    /// `--sections`: the descriptor slots of each runner, 1 to 1,024.
    pub sections: u32,
    /// `--version-max`: the greatest version, at least 3.
    pub version_max: u32,
    /// `--reads`: how the requests that only read are served.
    pub reads: Reads,
    /// `--halt`: which runners are to halt, and when.
    pub halts: Halts,
}

impl RunOptions {
    /// How many runners serve a text of so many traces: as many as are given, else one for each trace, but at least
    /// one and at most sixteen.
    pub fn runners_for(&self, traces: u32) -> u32
        ensures { result ≡ runners_by self.now.runners traces }
    {
        match self.runners {
            Some(runners) => runners,
            None => traces.min(16).max(1),
        }
    }

    /// How many buckets the hash table has for so many insertions, by the exponent: as many as are given, else the
    /// least power of two that is at least 64 and at least an eighth of the insertions, but no more than 4,096.
    pub fn bits_for(&self, inserts: u32) -> u32
        ensures { result ≡ bits_by self.now.bucket_bits inserts }
    {
        match self.bucket_bits {
            Some(bits) => bits,
            None => default_bits(inserts),
        }
    }

    /// How many node slots each of so many runners has for so many insertions: as many as are given, else two for
    /// each insertion and eight more, but no more than 262,144 of all runners together.
    pub fn nodes_for(&self, inserts: u32, runners: u32) -> u32
        requires some { 0 < runners }
        requires few { inserts ≤ 131072 }
        ensures { result ≡ nodes_by self.now.nodes inserts runners }
    {
        match self.nodes {
            Some(nodes) => nodes,
            None => (2 * inserts + 8).min(262_144 / runners),
        }
    }
}

// The exponent of the default number of buckets for so many insertions.
fn default_bits(inserts: u32) -> u32
    ensures { result ≡ bits_for inserts }
{
    match inserts {
        0..=512 => 6,
        513..=1024 => 7,
        1025..=2048 => 8,
        2049..=4096 => 9,
        4097..=8192 => 10,
        8193..=16_384 => 11,
        _ => 12,
    }
}

/// What these options mean. None where one of them has no meaning.
pub fn run_options(alloc: Global, given: &ArgMatches<'_>) -> Result<Option<RunOptions>, AllocError>
    ensures read { IfOk result (λ answer. IfSome answer (Mean (said_by given.now))) }
    ensures refused { IfOk result (λ answer. IfNone answer ((run : RunOptions) → Mean (said_by given.now) run → ⊥)) }
{
    match halts_or_none(alloc, value_of(given, "halt"))? {
        Some(halts) => Ok(options_with(given, halts)),
        None => Ok(None),
    }
}

// The same where the halts are read.
fn options_with(given: &ArgMatches<'_>, halts: Halts) -> Option<RunOptions>
    requires { meant_or [] halts_in (said_by given.now (codes "halt")) ≡ Some halts }
    ensures read { IfSome result (Mean (said_by given.now)) }
    ensures refused { IfNone result ((run : RunOptions) → Mean (said_by given.now) run → ⊥) }
{
    let table = table_or_hash(value_of(given, "table"))?;
    let runners = number_if_given(value_of(given, "runners"), 1, 16)?;
    let bucket_bits = exponent_if_given(value_of(given, "buckets"))?;
    let nodes = number_if_given(value_of(given, "nodes"), 0, 262_144)?;
    let sections = number_or(value_of(given, "sections"), 64, 1, 1024)?;
    let version_max = number_or(value_of(given, "version-max"), u32::MAX, 3, u32::MAX)?;
    let reads = reads_or_lock(value_of(given, "reads"))?;
    Some(RunOptions {
        table,
        runners,
        bucket_bits,
        nodes,
        sections,
        version_max,
        reads,
        halts,
    })
}

fn table_or_hash(text: Option<&str>) -> Option<TableKind>
    ensures { result ≡ meant_or Hash table_in (option_map (λ text. text.now) text.entry) }
{
    match text {
        Some("hash") => Some(TableKind::Hash),
        Some("tree") => Some(TableKind::Tree),
        Some("list") => Some(TableKind::List),
        Some(_) => None,
        None => Some(TableKind::Hash),
    }
}

fn reads_or_lock(text: Option<&str>) -> Option<Reads>
    ensures { result ≡ meant_or Lock reads_in (option_map (λ text. text.now) text.entry) }
{
    match text {
        Some("lock") => Some(Reads::Lock),
        Some("free") => Some(Reads::Free),
        Some(_) => None,
        None => Some(Reads::Lock),
    }
}

fn number_or(text: Option<&str>, default: u32, least: u32, greatest: u32) -> Option<u32>
    ensures { result ≡ meant_or default (number_in least greatest) (option_map (λ text. text.now) text.entry) }
{
    match text {
        Some(text) => small_number_in(text, least, greatest),
        None => Some(default),
    }
}

fn number_if_given(text: Option<&str>, least: u32, greatest: u32) -> Option<Option<u32>>
    ensures { result ≡ meant (number_in least greatest) (option_map (λ text. text.now) text.entry) }
{
    match text {
        Some(text) => Some(Some(small_number_in(text, least, greatest)?)),
        None => Some(None),
    }
}

fn exponent_if_given(text: Option<&str>) -> Option<Option<u32>>
    ensures { result ≡ meant exponent_in (option_map (λ text. text.now) text.entry) }
{
    match text {
        Some(text) => Some(Some(exponent_in(text)?)),
        None => Some(None),
    }
}

fn halts_or_none(alloc: Global, text: Option<&str>) -> Result<Option<Halts>, AllocError>
    ensures { IfOk result (λ halts. halts ≡ meant_or [] halts_in (option_map (λ text. text.now) text.entry)) }
{
    match text {
        Some(text) => read_halts(alloc, text),
        None => Ok(Some(Halts::new(alloc))),
    }
}
