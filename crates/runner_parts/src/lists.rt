//! The lists of a runner.

use crate::entries::{Known, Left, Look, Retired, Stored, Tested, Waiting};
use crate::run::Finished;
use std::marker::Model;
use structure_laws::body_terms::{Place, Word};

/// The own node slots: the free ones, those in the hand with how far their cells were looked at, those in
/// limbo, and the worn ones. A Make takes the slot at the end of the free list, and a slot that comes back
/// is put there.
#[derive(Drop)]
pub struct Nodes {
    pub free: Vec<u32>,
    pub hand: Vec<u32>,
    pub tests: Vec<Tested>,
    pub limbo: Vec<Retired>,
    pub worn: Vec<u32>,
}

impl Model for Nodes {
    ghost use Rattle.runner_parts.specs.State.{NodesState};

    ghost Value = { NodesState };

    ghost view = { λ a. record {
      free = a.free.items;
      hand = a.hand.items;
      tests = a.tests.items;
      limbo = a.limbo.items;
      worn = a.worn.items;
    } };
}

/// The own descriptors: the free ones with what was stored into them, in the order of the stores, and those in limbo,
/// which are retired and wait until no guard word names them.
#[derive(Drop)]
pub struct Descriptors {
    pub free: Vec<u32>,
    pub stored: Vec<Stored>,
    pub limbo: Vec<u32>,
}

impl Model for Descriptors {
    ghost use Rattle.runner_parts.specs.State.{DescriptorsState};

    ghost Value = { DescriptorsState };

    ghost view = { λ a. record { free = a.free.items; stored = a.stored.items; limbo = a.limbo.items } };
}

/// The own blocks: the free ones, and those in limbo, which were linked in a run that is over and wait until no guard
/// word names the descriptor under which they lie.
#[derive(Drop)]
pub struct Blocks {
    pub free: Vec<u32>,
    pub limbo: Vec<Waiting>,
}

impl Model for Blocks {
    ghost use Rattle.runner_parts.specs.State.{BlocksState};

    ghost Value = { BlocksState };

    ghost view = { λ a. record { free = a.free.items; limbo = a.limbo.items } };
}

/// What a runner guards: the descriptor that its guard word names, whether it has seen that one published while the
/// word named it, and the guard words that it has read in the sweep in progress, in the order of the runners.
#[derive(Drop)]
pub struct Guards {
    pub named: Option<u32>,
    pub sure: bool,
    pub looked: Vec<u64>,
}

impl Model for Guards {
    ghost use Rattle.runner_parts.specs.State.{GuardsState};

    ghost Value = { GuardsState };

    ghost view = { λ a. record { named = a.named; sure = a.sure; looked = a.looked.items } };
}

/// What a runner has read since it entered: the loads outside a run, all loads and exchanges of cells, and its read
/// without a lock.
#[derive(Drop)]
pub struct Reads {
    pub walk: Vec<(Place, Word)>,
    pub cells: Vec<(Place, Word)>,
    pub look: Option<Look>,
}

impl Model for Reads {
    ghost use Rattle.runner_parts.specs.State.{ReadsState};

    ghost Value = { ReadsState };

    ghost view = { λ a. record {
      walk = a.walk.items;
      cells = a.cells.items;
      look = a.look;
    } };
}

/// What a runner keeps for good: the stamp and reply words that it knows, the sections that it ran to their ends, how
/// many steps it has made and how many of these were exchanges or raises that changed their word; of the epoch what its
/// own steps last saw or left (0 until one did); whether others' steps crossed its own: a scan of its met an
/// announcement that wasn't idle, a sweep of its met a guard word that named a descriptor, or a step of its found the
/// epoch other than its own steps had left it; and of the keeper what its steps since the last join left, in order, how
/// many workers were split off, which were joined, and whether it joined one when its own steps had met the epoch, so
/// that they may have crossed the worker's; whether it has only loaded cells since it entered, and announced a read and
/// loaded the clock for it; and whether each slot that it gave to the board left it at least as many free ones as it
/// had at first.
#[derive(Drop)]
pub struct Records {
    pub known: Vec<Known>,
    pub finished: Vec<Finished>,
    pub events: u64,
    pub won: u64,
    pub epoch_seen: u64,
    pub crossed: bool,
    pub crosses: bool,
    pub left: Vec<Left>,
    pub splits: u32,
    pub joined: Vec<u32>,
    pub only_loads: bool,
    pub gave_above: bool,
}

impl Model for Records {
    ghost use Rattle.runner_parts.specs.State.{RecordsState};

    ghost Value = { RecordsState };

    ghost view = { λ a. record {
      known = a.known.items;
      finished = a.finished.items;
      events = a.events;
      won = a.won;
      epoch_seen = a.epoch_seen;
      crossed = a.crossed;
      crosses = a.crosses;
      left = a.left.items;
      splits = a.splits;
      joined = a.joined.items;
      only_loads = a.only_loads;
      gave_above = a.gave_above;
    } };
}
