// Command lines, what they mean, and those that are refused. In the tables a space parts the words of a line; the last
// one that is refused has none.
use crate::rows::{Shown, check};
use command_line::{Command, RunOptions, read_words};
use std::alloc::{AllocError, Global};
use std::process::Abort;
use std::test::Fail;

const REFUSED: &str = "\
walk
Run
--help
--version
--
-- run
--nodes 1 run
help
help run
run walk
run --help
run -h
run --help=1
run --
run -- --nodes 1
run --nodes 1 --
run --nodes
run --nodes=
run --nodes --
run --nodes -1
run --nodes=-1
run --nodes +1
run --nodes 1x
run --nodes 262145
run --nodes 1 --nodes 1
run --nodes=1 --nodes 1
run --node 1
run --Nodes 1
run -nodes 1
run --nodes 1 2
run --runners 0
run --runners 17
run --runners 18446744073709551617
run --buckets 0
run --buckets 3
run --buckets 8192
run --sections 0
run --sections 1025
run --version-max 2
run --version-max 4294967296
run --table trees
run --table lists
run --table HASH
run --reads
run --reads locks
run --reads FREE
run --reads 1
run --reads free --reads free
run --halt 0:0
run --halt 16:1
run --halt 1
run --halt 1:2:3
run --halt 0:1,
run --halt ,
run --halt 0:1,0:2
run --halt 0:1000000000001
gen
gen --seed 7
gen --seed 7 --traces 1 --length 3
gen --seed 7 --traces 1 --length 3 --keys 0
gen --seed 7 --traces 1 --length 3 --keys 32769
gen --seed 7 --traces 65 --length 3 --keys 1
gen --seed 2147483648 --traces 1 --length 3 --keys 1
gen --seed 7 --traces 1 --length 131073 --keys 1
gen --seed 7 --seed 7 --traces 1 --length 3 --keys 1
gen --seed 7 --traces 1 --length 3 --keys 1 --runners 1
load --seed 7 --traces 1 --length 3
load --seed 7 --traces 1 --length 3 --keys 1 --halt 0:1
load --seed 7 --traces 1 --length 3 --keys 1 --runners 17
load --seed 7 --traces 1 --length 3 --keys 1 --
check --
check check
check report
gen --seed 7 --traces 1 --length 3 --keys 1 --reads free
load --seed 7 --traces 1 --length 3 --keys 1 --reads fre
check --table hash
check --reads free
check --help

";

const ACCEPTED: &str = "\
run
run --nodes 0
run --nodes=007
run --buckets 4096 --table hash
run --table tree --runners 2
run --table list --halt 0:7
run --table=hash --buckets=1
run --reads free
run --reads=lock --table tree
run --sections 1024 --version-max 3 --runners 16 --nodes 262144 --halt 15:1000000000000,0:1
gen --keys 32768 --length 131072 --traces 64 --seed 2147483647
gen --seed=0 --traces=0 --length=0 --keys=1
load --seed=1 --traces 8 --length 4000 --keys 1000 --runners 4
load --version-max=3 --seed=1 --sections=1 --traces=8 --nodes=0 --length=4 --buckets=1 --keys=1 --table=hash
load --reads=free --seed=1 --traces 8 --length 4000 --keys 1000
check
";

// Lines, and what they mean, as `Debug` shows it.
const MEANT: &str = "\
run => Some(Run(RunOptions { table: Hash, runners: None, bucket_bits: None, nodes: None, sections: 64, version_max: 4294967295, reads: Lock, halts: Halts { items: [] } }))
run --reads=free => Some(Run(RunOptions { table: Hash, runners: None, bucket_bits: None, nodes: None, sections: 64, version_max: 4294967295, reads: Free, halts: Halts { items: [] } }))
run --halt=2:10,0:7 --nodes 18 --runners=3 --buckets 256 --reads lock --sections=5 --version-max 9 --table=tree => Some(Run(RunOptions { table: Tree, runners: Some(3), bucket_bits: Some(8), nodes: Some(18), sections: 5, version_max: 9, reads: Lock, halts: Halts { items: [Halt { runner: 2, ask: 10 }, Halt { runner: 0, ask: 7 }] } }))
gen --keys 100 --seed=1 --length 3 --traces 2 => Some(Gen(Gen { seed: 1, traces: 2, length: 3, keys: 100, apart: false }))
load --traces 2 --keys=100 --nodes=7 --reads free --seed=1 --length 3 => Some(Load(LoadOptions { plan: Gen { seed: 1, traces: 2, length: 3, keys: 100, apart: true }, run: RunOptions { table: Hash, runners: None, bucket_bits: None, nodes: Some(7), sections: 64, version_max: 4294967295, reads: Free, halts: Halts { items: [] } } }))
check => Some(Check)
";

fn read(alloc: Global, line: &str) -> Result<Option<Command>, AllocError> {
    let words: Vec<&str> = line.split_whitespace().collect(alloc)?;
    read_words(alloc, &words)
}

fn check_lines(
    rt: &impl Abort,
    alloc: Global,
    table: &str,
    accepted: bool,
) -> Result<(), AllocError> {
    for line in table.lines() {
        let command = read(alloc, line)?;
        assert!(rt; command.is_some() == accepted, "{line}");
    }
    Ok(())
}

#[test]
fn words_are_accepted_in_both_forms_and_others_are_refused(rt: HostRuntime) -> Result<(), Fail> {
    check_lines(&rt, rt.alloc(), ACCEPTED, true)?;
    check_lines(&rt, rt.alloc(), REFUSED, false)?;
    Ok(())
}

struct Meant;

impl Shown for Meant {
    fn shown(alloc: Global, text: &str) -> Result<String, AllocError> {
        let command = read(alloc, text)?;
        format!(in alloc; "{command:?}")
    }
}

#[test]
fn an_option_has_its_value_or_its_default(rt: HostRuntime) -> Result<(), Fail> {
    check::<Meant>(&rt, rt.alloc(), MEANT)?;
    Ok(())
}

// Lines, and the runners for 0, 3 and 64 traces, the node slots for two and for 131,072 insertions, at which ask each
// of three runners is halted, and whether a halt is of the first one.
const DEFAULTS: &str = "\
run => 1, 3, 16, 14, 16384, [None, None, None], false
run --runners 3 --nodes 18 => 3, 3, 3, 18, 18, [None, None, None], false
run --halt=1:10 => 1, 3, 16, 14, 16384, [None, Some(10), None], false
run --halt=2:10,0:7 => 1, 3, 16, 14, 16384, [Some(7), None, Some(10)], true
";

/// What these options are for texts of so many traces and insertions.
fn shown_options(alloc: Global, options: &RunOptions) -> Result<String, AllocError> {
    let few = options.runners_for(0);
    let runners = options.runners_for(3);
    let many = options.runners_for(64);
    let nodes = options.nodes_for(3, 2);
    let most = options.nodes_for(131_072, 16);
    let asks = options.halts.asks(alloc, 3)?;
    let below = options.halts.name_below(1);
    format!(in alloc; "{few}, {runners}, {many}, {nodes}, {most}, {asks:?}, {below}")
}

struct Defaults;

impl Shown for Defaults {
    fn shown(alloc: Global, text: &str) -> Result<String, AllocError> {
        match read(alloc, text)? {
            Some(Command::Run(options)) => shown_options(alloc, &options),
            _ => format!(in alloc; "no run"),
        }
    }
}

#[test]
fn a_default_depends_on_the_text_and_a_halt_is_found_by_its_runner(
    rt: HostRuntime,
) -> Result<(), Fail> {
    check::<Defaults>(&rt, rt.alloc(), DEFAULTS)?;
    Ok(())
}
