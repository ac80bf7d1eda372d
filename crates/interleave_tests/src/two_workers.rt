//! The machine with two workers and the keeper.
ghost use Rattle.std.specs.Prelude.{◌≡◌, ◌≤◌, ◌<◌, IfOk, OnErr, OnOk, Some, true};
ghost use Rattle.machine_states.specs.map_history.specs.Requests.{AreInOrder};
ghost use Rattle.machine_states.specs.body_terms.specs.block_words.specs.Blocks.{log_in};
ghost use Rattle.machine_states.specs.table_words.specs.declared.spot.Spot.TheVariants.{Cell};
ghost use Rattle.machine_states.specs.structure_laws.specs.Tray.{tray};
ghost use Rattle.interleave_core.specs.Local.{part_of};
ghost use Rattle.interleave_core.specs.Machine.{word_of};
ghost use Rattle.interleave_tests.specs.Steps.{Makes, StandsFirst};

use interleave_core::{Event, EventKind, Machine, StepError, Tray};
use machine_states::body_terms::{Place, Word};
use machine_states::map_history::Request;
use machine_states::runner_parts::Part;
use machine_states::table_words::Layout;
use std::alloc::{AllocError, Global};

/// How many node slots and descriptors each worker has, and how many requests.
pub const OWN: u32 = 8;

/// How many descriptors the workers and the keeper have.
pub const SECTIONS: u32 = 18;

/// The machine over the test structure, with two workers and the keeper.
#[derive(Drop)]
pub struct TwoWorkers {
    machine: Machine<Tray>,
    ghost runners: { machine.layout.runners ≡ 2 },
    ghost sections: { machine.layout.sections ≡ 8 },
}

impl TwoWorkers {
    /// The first state, with these requests.
    pub fn new(alloc: Global, requests: &[Request]) -> Result<TwoWorkers, AllocError>
        requires { AreInOrder requests.now 64 }
        ensures first { IfOk result (λ two. StandsFirst two.machine) }
        ensures requests { IfOk result (λ two. two.machine.requests ≡ requests.now) }
    {
        let layout = Layout {
            runners: 2,
            nodes: OWN,
            sections: OWN,
            version_max: 4294967295,
        };
        let machine = Machine::new(alloc, Tray, layout, requests)?;
        Ok(TwoWorkers { machine })
    }

    /// One event. Where it isn't enabled the machine is as it was.
    pub fn step(&mut self, runner: u32, kind: EventKind) -> Result<(), StepError>
        ensures made { OnOk result (Makes runner kind self.old.machine self.new.machine) }
        ensures refused { OnErr result (self.new.machine ≡ self.old.machine) }
    {
        self.machine.step(Event { runner, kind })
    }

    /// Makes this step, and says whether it was enabled.
    pub fn goes(&mut self, runner: u32, kind: EventKind) -> bool
        ensures { result ≡ true → Makes runner kind self.old.machine self.new.machine }
    {
        self.step(runner, kind).is_ok()
    }

    /// The kinds that this runner may make.
    pub fn kinds(&mut self, runner: u32) -> u64 {
        match self.step(runner, EventKind::ScanOne(u32::MAX)) {
            Err(StepError::NotEnabled { enabled }) => enabled,
            _ => 0,
        }
    }

    /// The word of the lock, the number or the link.
    pub fn cell(&self, place: Place) -> Word
        requires { place < 3 }
        ensures { result ≡ word_of tray self.now.machine (Cell place) }
    {
        self.machine.cell(place)
    }

    /// What a worker or the keeper is at and keeps.
    pub fn part(&self, runner: u32) -> &Part
        requires { runner ≤ 2 }
        ensures { part_of self.now.machine.layout self.now.machine.world runner ≡ Some result.now }
    {
        self.machine.part(runner)
    }

    /// This word of a descriptor's log.
    pub fn log_word(&self, descriptor: u32, index: u32) -> u64
        ensures { result ≡ log_in (word_of tray self.now.machine) descriptor index }
    {
        self.machine.log_word(descriptor, index)
    }
}
