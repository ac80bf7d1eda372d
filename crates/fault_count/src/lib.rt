//! How often a stream has failed, as a count that never falls: streams say by it that an error had a cause.
#![tactic(auto)]

ghost use Rattle.std.specs.Prelude.{◌≡◌, ◌≤◌};
ghost use Rattle.fault_count.specs.Rose.{Rose};

use std::marker::Model;

/// A count of faults. It stands still at the last number that it can hold.
#[derive(Debug, Drop)]
pub struct FaultCount {
    count: u64,
}

impl Model for FaultCount {
    ghost use Rattle.std.specs.Prelude.{ℕ};

    ghost Value = { ℕ };

    ghost view = { λ faults. faults.count };
}

impl FaultCount {
    /// No fault yet.
    pub fn new() -> Self
        ensures { result ≡ 0 }
    {
        Self { count: 0 }
    }

    /// Counts one fault.
    pub fn raise(&mut self)
        ensures rose { Rose self.old self.new }
        ensures later { self.old ≤ self.new }
    {
        self.count = self.count.saturating_add(1);
    }

    /// How many faults were counted.
    pub fn get(&self) -> u64
        ensures { result ≡ self.now }
    {
        self.count
    }
}
