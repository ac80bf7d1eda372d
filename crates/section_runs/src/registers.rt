//! What a run's code keeps of the registers of its body.
ghost use Rattle.std.specs.Prelude.{◌≡◌, ◌≤◌};
ghost use Rattle.idem_cell.specs.machine_states.specs.body_terms.specs.Line.{Registers, no_registers, registers_after};
ghost use Rattle.idem_cell.specs.machine_states.specs.body_terms.specs.Shape.{set_registers};
ghost use Rattle.section_runs.specs.Registers.{AreKept, IsWithin};

use idem_cell::body_terms::{Place, Step};

/// The place from which each register was loaded, and the place of its word in the log.
#[derive(Clone, Copy, Debug, PartialEq, Eq)]
pub struct Places {
    pub places: [Place; 16],
    pub logs: [u8; 16],
}

impl Places {
    /// Before the first step.
    pub fn new() -> Places
        ensures { AreKept result no_registers }
    {
        Places {
            places: [0; 16],
            logs: [0; 16],
        }
    }

    /// One more step was made, before which so many words were agreed on.
    pub fn note(&mut self, step: &Step, count: u8)
        requires within { IsWithin step.now }
        ensures { (g : Registers) → AreKept self.old g → count ≡ g.count
            → AreKept self.new (registers_after g step.now) }
    {
        match *step {
            Step::Load { place, into } => {
                self.places[into as usize] = place;
                self.logs[into as usize] = count;
            }
            Step::Make { init: _, into } => self.logs[into as usize] = count,
            _ => (),
        }
    }
}
