//! A seat with what its thread keeps.
ghost use Rattle.std.specs.Prelude.{◌≡◌, ◌+◌, ◌*◌, ◌<◌, ◌^◌, nat_le, length, Some};
ghost use Rattle.machine_states.specs.table_words.specs.Places.{part_words};
ghost use Rattle.machine_states.specs.runner_parts.specs.State.{RunState};
ghost use Rattle.machine_states.specs.runner_steps.specs.InRun.{make_slot};
ghost use Rattle.machine_states.specs.runner_steps.specs.Sections.{is_beyond};
ghost use Rattle.version_words.specs.RunnerState.{entered_of};
ghost use Rattle.runner_block.specs.Marks.{lost_links};

use crate::view::View;
use atomic_table::Seat;
use machine_states::body_terms::Thunk;
use machine_states::epoch_core::Stage;
use machine_states::structure_laws::Structure;
use machine_states::table_words::PART_WORDS;
use runner_block::{Block, RunRoom};
use std::alloc::Global;
use std::marker::Model;

/// A seat at the table, with what its thread keeps: a number, and behind one pointer the runner's lists. What else the
/// runner knows stands in its view alone and has no bytes.
#[derive(Drop)]
pub struct Runner<S: Structure> {
    pub(crate) seat: Seat<Thunk, View<S>>,
    pub(crate) number: u32,
    pub(crate) kept: Box<Block, Global>,
}

impl<S: Structure> Model for Runner<S> {
    ghost use Rattle.version_words.specs.RunnerState.{RunnerState};
    ghost use Rattle.version_words.specs.Kept.{IsKept};

    ghost Value = { RunnerState S };

    ghost view = { λ a. record {
      table = a.seat.table_id;
      structure = a.seat.me.0.structure;
      layout = a.seat.me.0.layout;
      requests = a.seat.me.0.requests;
      number = a.seat.me.0.number;
      part = a.seat.me.0.part;
      joined = a.seat.me.0.joined;
    } };

    ghost invariant = { λ a. IsKept S.meaning a.number a.kept.value a.seat.me };
}

/// Whether this word of a log stands behind the part that begins at this one. Most logs have one part: they ask for no
/// more than the word.
#[inline(always)]
fn is_behind(word: u32, start: u32) -> bool
    ensures { result ≡ nat_le (start + part_words) word }
{
    word as usize >= PART_WORDS && start as usize + PART_WORDS <= word as usize
}

impl<S: Structure> Runner<S> {
    pub fn number(&self) -> u32
        ensures { result ≡ self.now.number }
    {
        self.number
    }

    /// The epoch with which the runner is entered, if it is.
    pub fn entered(&self) -> Option<u64>
        ensures { result ≡ entered_of self.now.part.stage }
    {
        match self.kept.lists.stage() {
            Stage::Entered(epoch) => Some(epoch),
            _ => None,
        }
    }

    pub fn free_nodes(&self) -> &[u32]
        ensures list { result.now ≡ self.now.part.nodes.free }
        ensures few { length result.now < 2 ^ 32 }
    {
        self.kept.lists.free_nodes()
    }

    pub fn free_descriptors(&self) -> &[u32]
        ensures list { result.now ≡ self.now.part.descriptors.free }
        ensures few { length result.now < 2 ^ 32 }
    {
        self.kept.lists.free_descriptors()
    }

    /// The descriptor of the section that the run in progress runs. The runner has to be in a run.
    pub fn descriptor(&self) -> u32
        requires { (q : RunState) × (self.now.part.run ≡ Some q) }
        ensures { (q : RunState) → self.now.part.run ≡ Some q → result ≡ q.descriptor }
    {
        self.kept.place.descriptor
    }

    /// The node slots in the own hand, in the order in which they came.
    pub fn hand(&self) -> &[u32]
        ensures list { result.now ≡ self.now.part.nodes.hand }
        ensures few { length result.now < 2 ^ 32 }
    {
        self.kept.lists.hand()
    }

    pub fn limbo_nodes(&self) -> u32
        ensures { result ≡ length self.now.part.nodes.limbo }
    {
        self.kept.lists.limbo_nodes()
    }

    pub fn limbo_descriptors(&self) -> u32
        ensures { result ≡ length self.now.part.descriptors.limbo }
    {
        self.kept.lists.limbo_descriptors()
    }

    pub fn free_blocks(&self) -> &[u32]
        ensures list { result.now ≡ self.now.part.blocks.free }
        ensures few { length result.now < 2 ^ 32 }
    {
        self.kept.lists.free_blocks()
    }

    pub fn limbo_blocks(&self) -> u32
        ensures { result ≡ length self.now.part.blocks.limbo }
    {
        self.kept.lists.limbo_blocks()
    }

    /// The place in the log at which the last part begins that the run in progress knows. The runner has to be in a run.
    pub fn part_start(&self) -> u32
        requires { (q : RunState) × (self.now.part.run ≡ Some q) }
        ensures { (q : RunState) → self.now.part.run ≡ Some q → result ≡ part_words * length q.links }
    {
        self.kept.lists.part_start()
    }

    /// The block that the run in progress empties to link it next: the one in its hand, or else the last free one.
    pub fn next_block(&self) -> Option<u32>
        requires { (q : RunState) × (self.now.part.run ≡ Some q) }
        ensures { (q : RunState) → self.now.part.run ≡ Some q → result ≡ make_slot q.block self.now.part.blocks.free }
    {
        self.kept.lists.next_block()
    }

    /// How many words of that block the run has made 0.
    pub fn emptied(&self) -> u32
        requires { (q : RunState) × (self.now.part.run ≡ Some q) }
        ensures { (q : RunState) → self.now.part.run ≡ Some q → result ≡ q.emptied }
    {
        self.kept.lists.emptied()
    }

    /// Whether the next word of the log of the run in progress stands behind the last part that it knows, so that it links
    /// a block before it commits that word. The runner has to be in a run.
    #[inline(always)]
    pub fn is_link_due(&self) -> bool
        requires { (q : RunState) × (self.now.part.run ≡ Some q) }
        ensures { (q : RunState) → self.now.part.run ≡ Some q → result ≡ is_beyond q (Some (length q.trail)) }
    {
        is_behind(self.kept.place.agreed, self.kept.lists.part_start())
    }

    pub fn worn(&self) -> u32
        ensures { result ≡ length self.now.part.nodes.worn }
    {
        self.kept.lists.worn()
    }

    /// In how many words of the board the runner's latest load, since it left last, found a link, and the exchange behind
    /// it lost, as another runner had taken that slot.
    pub fn lost_links(&self) -> u32
        ensures { result ≡ lost_links self.now.part.board }
    {
        self.kept.lists.lost_links()
    }

    /// Hands out the room that the runner keeps for its runs, unless it is out already. A run refills the body, begins
    /// the trail anew, and puts the room back by `keep_room`, so that no run makes a body or a trail. What the runner
    /// is stays the same.
    pub fn take_room(&mut self) -> Option<Box<RunRoom, Global>>
        ensures { self.new ≡ self.old }
    {
        self.kept.lists.take_room()
    }

    /// Puts back the room that `take_room` handed out, or another one, whatever is in it.
    pub fn keep_room(&mut self, room: Box<RunRoom, Global>)
        ensures { self.new ≡ self.old }
    {
        self.kept.lists.keep_room(room);
    }
}
