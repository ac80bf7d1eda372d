//! What a runner's code keeps of its part, in one block of memory.
ghost use Rattle.std.specs.Prelude.{◌≡◌, ◌⊎◌, ◌+◌, ◌<◌, ◌≤◌, ◌^◌, ◌∷◌, ◌++◌, ℕ, [], IfOk, length, true, false, Some, None, if◌then◌else◌, slice_set};
ghost use Rattle.machine_states.specs.runner_parts.specs.declared.event.EventKind.TheVariants as kinds;
ghost use Rattle.machine_states.specs.runner_parts.specs.Tests.{has};
ghost use Rattle.machine_states.specs.epoch_core.specs.Lists.{times};
ghost use Rattle.machine_states.specs.epoch_core.specs.declared.stage.Stage.TheVariants as stages;
ghost use Rattle.machine_states.specs.runner_steps.specs.AfterOutside.{with_stage, collected, scan_one_after, advance_after, split_after};
ghost use Rattle.machine_states.specs.runner_steps.specs.Guards.{is_last_guard, load_guard_after};
ghost use Rattle.machine_states.specs.runner_steps.specs.Board.{free_if};
ghost use Rattle.machine_states.specs.runner_parts.specs.Lists.{slot_taken, slot_made, slot_back, slot_retired, slot_given, slot_drawn, nodes_looked};
ghost use Rattle.runner_block.specs.Scans.{scan_of};
ghost use Rattle.runner_block.specs.Kept.{loaded_of, scanned_of, held_in, entered_in, run_ended, with_part, with_nodes, with_marks, with_blocks, with_named, given_back_if, freed_if};
ghost use Rattle.runner_block.specs.Links.{first_blocks, block_emptied, block_linked, blocks_are, names};
ghost use Rattle.machine_states.specs.runner_parts.specs.Lists.{blocks_given_back};
ghost use Rattle.machine_states.specs.runner_steps.specs.InRun.{make_slot};
ghost use Rattle.runner_block.specs.Marks.{mark_loaded, slot_tried, marks_of, lost_in};
ghost use Rattle.machine_states.specs.table_words.specs.Places.{board_words, part_words};
ghost use Rattle.runner_block.specs.Room.{AreFew, most_guards};
ghost use Rattle.machine_states.specs.First.{falling, first_part};

use crate::descriptors::DescriptorLists;
use crate::guards::GuardWords;
use crate::log_blocks::LogBlocks;
use crate::marks::BoardMarks;
use crate::nodes::NodeLists;
use crate::stage_fields::StageFields;
use machine_states::body_terms::{Body, Trail, Word};
use machine_states::epoch_core::{LAST_EPOCH, Stage};
use machine_states::table_words::Layout;
use std::alloc::{AllocError, Global};
use std::marker::Model;

/// Room for a run: bodies for it to refill, and a trail to begin anew. So no run makes them.
///
/// There are four bodies, of which a thunk's form says which one is refilled: those of one form have mostly the same
/// number of steps, and a body is refilled faster where that stays.
#[derive(Drop)]
pub struct RunRoom {
    pub bodies: [Body; 4],
    pub trail: Trail,
}

impl RunRoom {
    /// Empty bodies and an empty trail.
    fn new() -> RunRoom {
        RunRoom {
            bodies: [Body::empty(), Body::empty(), Body::empty(), Body::empty()],
            trail: Trail::new(),
        }
    }
}

/// What a runner's code keeps of its part: its stage, its lists, what its guard word names, the guard words of a sweep
/// in progress, of a run what it has linked, and of the keeper how many workers were split off. The lists have room for
/// each slot of their kind, so that no step takes memory. Beside these there is the room for a run: contracts don't see
/// it.
#[derive(Drop)]
pub struct Kept {
    stage: StageFields,
    nodes: NodeLists,
    descriptors: DescriptorLists,
    blocks: LogBlocks,
    named: Option<u32>,
    guards: GuardWords,
    marks: BoardMarks,
    splits: u32,
    run: Option<Box<RunRoom, Global>>,
}

impl Model for Kept {
    ghost use Rattle.std.specs.Prelude.{None, [], false, true};
    ghost use Rattle.machine_states.specs.runner_parts.specs.Lists.{no_reads};
    ghost use Rattle.runner_block.specs.Kept.{KeptState, published_as, only_looked};

    ghost Value = { KeptState };

    ghost view = { λ a. record {
      part = record {
        stage = a.stage;
        run = None;
        published = published_as a.descriptors.published;
        nodes = a.nodes.lists;
        descriptors = record { free = a.descriptors.free; stored = []; limbo = a.descriptors.limbo };
        blocks = record { free = []; limbo = [] };
        guards = only_looked a.guards;
        reads = no_reads;
        board = [];
        records = record {
          known = [];
          finished = [];
          events = 0;
          won = 0;
          epoch_seen = 0;
          crossed = false;
          crosses = false;
          left = [];
          splits = a.splits;
          joined = [];
          only_loads = false;
          gave_above = true;
        };
        gone = false;
      };
      room = a.nodes.room;
      marks = a.marks;
      blocks = a.blocks;
      named = a.named;
    } };
}

/// What one kind of slot begins with: so many free slots from the first on, and room for so many.
#[derive(Clone, Copy)]
pub struct Share {
    pub first: u32,
    pub count: u32,
    pub room: u32,
}

impl Kept {
    /// A runner that has done nothing, with these node slots, these descriptors and these blocks, of which none comes
    /// from another runner.
    pub fn new(
        alloc: Global,
        nodes: Share,
        descriptors: Share,
        first_block: u32,
        blocks: u32,
    ) -> Result<Self, AllocError>
        requires nodes { nodes.first + nodes.count ≤ nodes.room }
        requires descriptors { descriptors.first + descriptors.count < 2 ^ 32 }
        requires descriptor_room { descriptors.count ≤ descriptors.room }
        requires blocks { first_block + blocks < 2 ^ 32 }
        ensures part { IfOk result
            (λ x. x.part ≡ first_part (falling nodes.first nodes.count)
            (falling descriptors.first descriptors.count) []) }
        ensures room { IfOk result (λ x. x.room ≡ nodes.room) }
        ensures marks { IfOk result (λ x. x.marks ≡ marks_of []) }
        ensures blocks { IfOk result (λ x. x.blocks ≡ first_blocks (falling first_block blocks)) }
        ensures named { IfOk result (λ x. x.named ≡ None) }
    {
        Ok(Kept {
            stage: StageFields::idle(),
            nodes: NodeLists::new(alloc, nodes.first, nodes.count, nodes.room)?,
            descriptors: DescriptorLists::new(
                alloc,
                descriptors.first,
                descriptors.count,
                descriptors.room,
            )?,
            blocks: LogBlocks::new(alloc, first_block, blocks)?,
            named: None,
            guards: GuardWords::new(alloc)?,
            marks: BoardMarks::new(),
            splits: 0,
            run: Some(Box::new(alloc, RunRoom::new())?),
        })
    }

    pub fn stage(&self) -> Stage
        ensures { result ≡ self.now.part.stage }
    {
        self.stage.get()
    }

    /// The epoch that was loaded, to be announced.
    pub fn loaded(&self) -> u64
        ensures { result ≡ loaded_of self.now.part.stage }
    {
        self.stage.loaded()
    }

    /// The epoch for which the runner scans.
    pub fn scanned(&self) -> u64
        ensures { result ≡ scanned_of self.now.part.stage }
    {
        self.stage.scanned()
    }

    pub fn splits(&self) -> u32
        ensures { result ≡ self.now.part.records.splits }
    {
        self.splits
    }

    pub fn free_nodes(&self) -> &[u32]
        ensures list { result.now ≡ self.now.part.nodes.free }
        ensures few { length result.now < 2 ^ 32 }
    {
        self.nodes.free()
    }

    pub fn hand(&self) -> &[u32]
        ensures list { result.now ≡ self.now.part.nodes.hand }
        ensures few { length result.now < 2 ^ 32 }
    {
        self.nodes.hand()
    }

    pub fn limbo_nodes(&self) -> u32
        ensures { result ≡ length self.now.part.nodes.limbo }
    {
        self.nodes.limbo()
    }

    pub fn worn(&self) -> u32
        ensures { result ≡ length self.now.part.nodes.worn }
    {
        self.nodes.worn()
    }

    pub fn free_descriptors(&self) -> &[u32]
        ensures list { result.now ≡ self.now.part.descriptors.free }
        ensures few { length result.now < 2 ^ 32 }
    {
        self.descriptors.free()
    }

    pub fn limbo_descriptors(&self) -> u32
        ensures { result ≡ length self.now.part.descriptors.limbo }
    {
        self.descriptors.limbo()
    }

    pub fn free_blocks(&self) -> &[u32]
        ensures list { result.now ≡ self.now.blocks.lists.free }
        ensures few { length result.now < 2 ^ 32 }
    {
        self.blocks.free()
    }

    pub fn limbo_blocks(&self) -> u32
        ensures { result ≡ length self.now.blocks.lists.limbo }
    {
        self.blocks.limbo()
    }

    /// The place in the log at which the last part of the run's section begins.
    pub fn part_start(&self) -> u32
        ensures { result ≡ self.now.blocks.links.start }
    {
        self.blocks.start()
    }

    /// The block that has this part, if it isn't the descriptor.
    pub fn last_link(&self) -> Option<u32>
        ensures { result ≡ self.now.blocks.links.last }
    {
        self.blocks.last()
    }

    /// The block that the run is to empty and to link: the one in its hand, or else the last free one.
    pub fn next_block(&self) -> Option<u32>
        ensures { result ≡ make_slot self.now.blocks.links.block self.now.blocks.lists.free }
    {
        self.blocks.next()
    }

    /// How many words of that block are 0.
    pub fn emptied(&self) -> u32
        ensures { result ≡ self.now.blocks.links.emptied }
    {
        self.blocks.emptied()
    }

    /// In how many words of the board the runner last found a link, and the exchange behind it lost.
    pub fn lost_links(&self) -> u32
        ensures { result ≡ lost_in self.now.marks }
    {
        self.marks.lost()
    }

    /// A word of the board was loaded, and held this number.
    pub fn load_board(&mut self, word: u32, found: u64)
        requires { word < board_words }
        ensures { self.new ≡ with_marks self.old (slice_set self.old.marks word (mark_loaded found)) }
    {
        self.marks.load(word, found);
    }

    /// The runner left: it is idle, and what it found on the board counts for nothing.
    pub fn leave(&mut self)
        ensures { self.new ≡ with_marks
            (with_part self.old (with_stage self.old.part stages.Idle)) (marks_of []) }
    {
        self.stage.set(Stage::Idle);
        self.marks.forget();
    }

    /// Hands out the room for a run, unless it is out already.
    pub fn take_room(&mut self) -> Option<Box<RunRoom, Global>>
        ensures { self.new ≡ self.old }
    {
        self.run.take()
    }

    /// Puts the room for a run back, whatever is in it.
    pub fn keep_room(&mut self, room: Box<RunRoom, Global>)
        ensures { self.new ≡ self.old }
    {
        self.run = Some(room);
    }

    pub fn set_stage(&mut self, stage: Stage)
        ensures { self.new ≡ with_part self.old (with_stage self.old.part stage) }
    {
        self.stage.set(stage);
    }

    /// A scan is over, and this epoch was reached.
    fn collect(&mut self, epoch: u64)
        ensures { self.new ≡ with_part self.old (collected self.old.part epoch) }
    {
        self.nodes.collect(epoch);
        self.stage.set(Stage::Idle);
    }

    /// One more announcement was read, the one that came next. After the last one the scan is over, unless
    /// an advance may be tried.
    pub fn scan_one(&mut self, layout: Layout, announcement: u32, found: u64)
        requires limits { layout.runners < 2 ^ 31 }
        requires next { scan_of self.old.part.stage ≡ kinds.ScanOne announcement }
        ensures { self.new ≡ with_part self.old (scan_one_after layout self.old.part self.old.part.stage found) }
    {
        if let Stage::Scanning {
            epoch,
            next: _,
            clear,
        } = self.stage.get()
        {
            if announcement <= layout.runners {
                let idle = found == 0 || found == epoch;
                if announcement == layout.runners && !(clear && idle && epoch < LAST_EPOCH) {
                    self.collect(epoch);
                } else {
                    self.stage.go_on(announcement + 1, idle);
                }
            }
        }
    }

    /// The next epoch was reached.
    pub fn advance(&mut self)
        ensures { self.new ≡ with_part self.old (advance_after self.old.part self.old.part.stage) }
    {
        if let Stage::Scanning {
            epoch,
            next: _,
            clear: _,
        } = self.stage.get()
        {
            if epoch < LAST_EPOCH {
                self.collect(epoch + 1);
            }
        }
    }

    /// One more worker was split off.
    pub fn split(&mut self, layout: Layout)
        ensures { self.new ≡ with_part self.old (split_after layout self.old.part) }
    {
        if self.splits < layout.runners {
            self.splits += 1;
        }
    }

    /// An exchange was to publish a section with this free descriptor, and won or lost.
    pub fn hold(&mut self, descriptor: u32, won: bool)
        requires own { has self.old.part.descriptors.free descriptor ≡ true }
        requires once { times descriptor self.old.part.descriptors.free ≤ 1 }
        requires none { self.old.part.published ≡ None }
        ensures { self.new ≡ with_blocks (with_part self.old (held_in self.old.part descriptor won))
            (given_back_if won descriptor self.old.blocks) }
    {
        if won {
            self.descriptors.publish(descriptor);
            self.blocks.give_back(descriptor);
        }
    }

    /// The runner entered with this epoch: a sweep in progress counts for nothing.
    pub fn enter(&mut self, epoch: u64)
        ensures { self.new ≡ with_part self.old (entered_in self.old.part epoch) }
    {
        self.stage.set(Stage::Entered(epoch));
        self.guards.forget();
    }

    /// The own guard word names this from now on.
    pub fn guard(&mut self, named: Option<u32>)
        ensures { self.new ≡ with_named self.old named }
    {
        self.named = named;
    }

    /// Whether this word of a lock, if it is one, makes the runner sure of a descriptor under which blocks may lie in
    /// its limbo: the own guard word names the descriptor too. Mostly none is in limbo.
    #[inline(always)]
    pub fn is_awaited(&self, word: u64) -> bool
        ensures none { result ≡ false
            → (length self.now.blocks.lists.limbo ≡ 0) ⊎ (names self.now.named word ≡ false) }
        ensures some { result ≡ true → names self.now.named word ≡ true }
    {
        self.blocks.limbo() != 0 && names(self.named, word)
    }

    /// The runner became sure of this descriptor: the blocks under it are free.
    #[inline(never)]
    pub fn give_back(&mut self, descriptor: u32)
        ensures { self.new ≡ with_blocks self.old
            (blocks_are self.old.blocks (blocks_given_back descriptor self.old.blocks.lists)) }
    {
        self.blocks.give_back(descriptor);
    }

    /// One more word of this block, which the run is to link, is 0.
    pub fn empty_block(&mut self, block: u32)
        requires own { make_slot self.old.blocks.links.block self.old.blocks.lists.free ≡ Some block }
        requires once { self.old.blocks.links.block ≡ None → times block self.old.blocks.lists.free ≤ 1 }
        ensures { self.new ≡ with_blocks self.old (block_emptied self.old.blocks block) }
    {
        self.blocks.empty(block);
    }

    /// The exchange that was to link the block in the hand found this number.
    pub fn link_block(&mut self, block: u32, found: u64)
        requires own { self.old.blocks.links.block ≡ Some block }
        requires few { self.old.blocks.links.start + part_words < 2 ^ 32 }
        ensures { self.new ≡ with_blocks self.old (block_linked self.old.blocks block found) }
    {
        self.blocks.link(block, found);
    }

    /// A sweep read one more guard word. After the last one it is over, and the retired descriptors that none of its
    /// words names are free, and the blocks that lie under such a descriptor.
    pub fn load_guard(&mut self, layout: Layout, found: u64)
        requires limits { layout.runners < most_guards }
        requires few { length self.old.part.guards.looked ≤ layout.runners }
        ensures { self.new ≡ with_blocks (with_part self.old (load_guard_after layout self.old.part found))
            (freed_if (is_last_guard layout self.old.part.guards.looked)
            (self.old.part.guards.looked ++ found ∷ []) self.old.blocks) }
    {
        let last = self.guards.words().len() == layout.runners as usize;
        self.guards.read(found);
        if last {
            self.descriptors.sweep(self.guards.words());
            self.blocks.sweep(self.guards.words());
            self.guards.forget();
        }
    }

    /// A run of this descriptor came to its end: where it is that of the own section, the descriptor goes into limbo, and
    /// so do the blocks that the run linked.
    pub fn end_run(&mut self, descriptor: u32)
        ensures { self.new ≡ run_ended self.old descriptor }
    {
        self.descriptors.end_run(descriptor);
        self.blocks.end_run(descriptor);
    }

    /// A Make takes a free slot into the hand.
    #[inline(never)]
    pub fn take(&mut self, slot: u32)
        requires own { has self.old.part.nodes.free slot ≡ true }
        requires once { times slot self.old.part.nodes.free ≤ 1 }
        ensures { self.new ≡ with_nodes self.old (slot_taken self.old.part.nodes slot) }
    {
        self.nodes.take(slot);
    }

    /// The slot in the hand that a Make filled is live, where its commit won; otherwise it comes back.
    pub fn made(&mut self, slot: u32, won: bool, worn: bool)
        requires { has self.old.part.nodes.hand slot ≡ true }
        ensures { self.new ≡ with_nodes self.old
            (if won then slot_made self.old.part.nodes slot else slot_back self.old.part.nodes slot worn) }
    {
        self.nodes.made(slot, won, worn);
    }

    /// A node slot was retired with this epoch.
    pub fn retire_slot(&mut self, slot: u32, epoch: u64)
        requires { AreFew self.old.room (slot_retired self.old.part.nodes slot epoch) }
        ensures { self.new ≡ with_nodes self.old (slot_retired self.old.part.nodes slot epoch) }
    {
        self.nodes.retire(slot, epoch);
    }

    /// An exchange was to put a free slot onto this word of the board, and won or lost.
    pub fn give_slot(&mut self, word: u32, slot: u32, won: bool)
        requires word { word < board_words }
        requires own { has self.old.part.nodes.free slot ≡ true }
        requires once { times slot self.old.part.nodes.free ≤ 1 }
        ensures { self.new ≡ with_marks
            (with_nodes self.old (free_if won (slot_given self.old.part.nodes slot) self.old.part.nodes))
            (slot_tried self.old.marks word won) }
    {
        self.marks.exchange(word, won);
        if won {
            self.nodes.give(slot);
        }
    }

    /// An exchange was to take a slot from this word of the board, and won or lost: where it won the slot is free.
    pub fn draw_slot(&mut self, word: u32, slot: u32, won: bool)
        requires word { word < board_words }
        requires node { won ≡ true → slot < self.old.room }
        requires few { won ≡ true → AreFew self.old.room (slot_drawn self.old.part.nodes slot) }
        ensures { self.new ≡ with_marks
            (with_nodes self.old (free_if won (slot_drawn self.old.part.nodes slot) self.old.part.nodes))
            (slot_tried self.old.marks word won) }
    {
        self.marks.exchange(word, won);
        if won {
            self.nodes.draw(slot);
        }
    }

    /// A cell of an own node slot was loaded outside a run.
    #[inline(never)]
    pub fn look(&mut self, layout: Layout, slot: u32, cell: u32, word: u64)
        ensures { self.new ≡ with_nodes self.old (nodes_looked layout self.old.part.nodes slot cell word) }
    {
        self.nodes.look(layout, slot, cell, word);
    }
}

/// Whether this word, if it is a lock's, names the descriptor that the own guard word names.
fn names(named: Option<u32>, word: u64) -> bool
    ensures { result ≡ names named word }
{
    let value = Word::from_bits(word).value();
    match named {
        Some(descriptor) => value != 0 && descriptor == value - 1,
        None => false,
    }
}
