//! The stage of a runner, in fields of its own.
ghost use Rattle.std.specs.Prelude.{◌≡◌};
ghost use Rattle.machine_states.specs.epoch_core.specs.declared.stage.Stage.TheVariants as stages;
ghost use Rattle.runner_block.specs.Kept.{loaded_of, scanned_of};
ghost use Rattle.runner_block.specs.StageFields.{gone_on};

use machine_states::epoch_core::Stage;
use std::marker::Model;

/// Which stage it is.
#[derive(Clone, Copy, PartialEq, Eq)]
pub enum Phase {
    Idle,
    Loaded,
    Announced,
    Entered,
    Scanning,
}

/// A stage in fields: a step writes those that it changes, and no step waits for a number that an earlier
/// one has just written.
#[derive(Drop)]
pub struct StageFields {
    phase: Phase,
    epoch: u64,
    next: u32,
    clear: bool,
}

impl Model for StageFields {
    ghost use Rattle.machine_states.specs.epoch_core.specs.declared.stage.Stage.{Stage};
    ghost use Rattle.runner_block.specs.StageFields.{stage_of};

    ghost Value = { Stage };

    ghost view = { λ a. stage_of a.phase a.epoch a.next a.clear };
}

impl StageFields {
    pub fn idle() -> Self
        ensures { result ≡ stages.Idle }
    {
        StageFields {
            phase: Phase::Idle,
            epoch: 0,
            next: 0,
            clear: false,
        }
    }

    pub fn get(&self) -> Stage
        ensures { result ≡ self.now }
    {
        match self.phase {
            Phase::Idle => Stage::Idle,
            Phase::Loaded => Stage::Loaded(self.epoch),
            Phase::Announced => Stage::Announced,
            Phase::Entered => Stage::Entered(self.epoch),
            Phase::Scanning => Stage::Scanning {
                epoch: self.epoch,
                next: self.next,
                clear: self.clear,
            },
        }
    }

    /// The epoch that was loaded, to be announced.
    pub fn loaded(&self) -> u64
        ensures { result ≡ loaded_of self.now }
    {
        if self.phase == Phase::Loaded {
            self.epoch
        } else {
            0
        }
    }

    /// The epoch for which the runner scans.
    pub fn scanned(&self) -> u64
        ensures { result ≡ scanned_of self.now }
    {
        if self.phase == Phase::Scanning {
            self.epoch
        } else {
            0
        }
    }

    pub fn set(&mut self, stage: Stage)
        ensures { self.new ≡ stage }
    {
        match stage {
            Stage::Idle => self.phase = Phase::Idle,
            Stage::Loaded(epoch) => {
                self.phase = Phase::Loaded;
                self.epoch = epoch;
            }
            Stage::Announced => self.phase = Phase::Announced,
            Stage::Entered(epoch) => {
                self.phase = Phase::Entered;
                self.epoch = epoch;
            }
            Stage::Scanning { epoch, next, clear } => {
                self.phase = Phase::Scanning;
                self.epoch = epoch;
                self.next = next;
                self.clear = clear;
            }
        }
    }

    /// A scan goes on with this announcement, and stays clear where this is so.
    pub fn go_on(&mut self, next: u32, clear: bool)
        ensures { self.new ≡ gone_on self.old next clear }
    {
        self.next = next;
        if !clear {
            self.clear = false;
        }
    }
}
