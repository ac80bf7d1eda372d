//! The test whether enough own slots are free.
ghost use Rattle.std.specs.Prelude.{◌≡◌, ◌≤◌, ◌<◌, IfOk, IfErr, length};
ghost use Rattle.epoch_slots.specs.Reserves.{free_of, counts_of};

use machine_states::structure_laws::Structure;
use version_words::Runner;

/// The kinds of slots that a runner owns.
#[derive(Clone, Copy, Debug, PartialEq, Eq)]
pub enum Kind {
    /// A slot of five cells, which a Make fills.
    Node,
    /// A slot of thunk words, a done word and a log, with which a section is published.
    Descriptor,
    /// A further part of a log, which a run links to its section's descriptor.
    Block,
}

/// How many slots of a kind a runner had, where fewer were free than it asked for.
#[derive(Clone, Copy, Debug, PartialEq, Eq)]
pub struct Short {
    /// Of which slots.
    pub kind: Kind,
    /// How many are free.
    pub free: u32,
    /// How many were retired and wait until nobody can hold them.
    pub limbo: u32,
    /// How many have a cell at the greatest version and aren't used again.
    pub worn: u32,
    /// How many lay on the board as the runner last looked there for slots, since it left last, and were taken by others
    /// before it could take them. Of descriptors and blocks none lies there.
    pub board: u32,
}

/// How many of the runner's own slots of this kind are free.
fn free_count<S: Structure>(runner: &Runner<S>, kind: Kind) -> usize
    ensures { result ≡ length (free_of runner.now kind) }
{
    match kind {
        Kind::Node => runner.free_nodes().len(),
        Kind::Descriptor => runner.free_descriptors().len(),
        Kind::Block => runner.free_blocks().len(),
    }
}

/// The counts of the runner's own slots of this kind.
fn counts<S: Structure>(runner: &Runner<S>, kind: Kind) -> Short
    ensures { result ≡ counts_of runner.now kind }
{
    match kind {
        Kind::Node => Short {
            kind,
            free: runner.free_nodes().len() as u32,
            limbo: runner.limbo_nodes(),
            worn: runner.worn(),
            board: runner.lost_links(),
        },
        Kind::Descriptor => Short {
            kind,
            free: runner.free_descriptors().len() as u32,
            limbo: runner.limbo_descriptors(),
            worn: 0,
            board: 0,
        },
        Kind::Block => Short {
            kind,
            free: runner.free_blocks().len() as u32,
            limbo: runner.limbo_blocks(),
            worn: 0,
            board: 0,
        },
    }
}

/// The runner, if at least `n` of its own slots of this kind are free; else the runner and the counts.
/// Nothing changes, and no step is made.
pub fn reserve<S: Structure>(
    runner: Runner<S>,
    kind: Kind,
    n: u32,
) -> Result<Runner<S>, (Runner<S>, Short)>
    ensures same { IfOk result (λ x. x ≡ runner) }
    ensures enough { IfOk result (λ x. n ≤ length (free_of runner kind)) }
    ensures err { IfErr result (λ e. e.0 ≡ runner) }
    ensures few { IfErr result (λ e. length (free_of runner kind) < n) }
    ensures counts { IfErr result (λ e. e.1 ≡ counts_of runner kind) }
{
    if free_count(&runner, kind) < n as usize {
        let counts = counts(&runner, kind);
        Err((runner, counts))
    } else {
        Ok(runner)
    }
}
