//! Where a runner may be stopped.
ghost use Rattle.std.specs.Prelude.{◌≡◌, ℕ, ◌≤◌, Bool, true, false};
ghost use Rattle.runner_gate.specs.Asks.{Asks, asked_on, HaltedOnce};
ghost use Rattle.runner_gate.specs.declared.gate.Pass.TheVariants.{Go, Halt};

use body_terms::StepKind;

/// Whether a runner goes on.
#[derive(Clone, Copy, Debug, PartialEq, Eq)]
pub enum Pass {
    /// The runner goes on.
    Go,
    /// The runner stops here.
    Halt,
}

/// What is asked after each atomic step, and may stop the runner there.
///
/// A gate has a count of halts, which each halt raises by one and nothing else changes, and a number of asks. Both may
/// stand still at the last number of 64 bits, so a gate can count in a `u64`. Its asks tell too for which runner it was
/// made, and with which plan, and that never changes: so whoever says how often a gate was asked says that it is that
/// gate still.
pub trait Gate {
    /// How often this gate halted so far.
    ghost halts: { Self → ℕ };

    /// For which runner this gate was made, and how often it was asked so far.
    ghost asks: { Self → Asks };

    /// Whether this gate never halts any more.
    ghost free: { Self → Bool } = { λ _. false };

    /// Whether the runner goes on after a step of this kind.
    fn after(&mut self, kind: StepKind) -> Pass
        ensures never_falls { halts self.old ≤ halts self.new }
        ensures halted { result ≡ Halt → HaltedOnce (halts self.old) (halts self.new) }
        ensures went { result ≡ Go → halts self.new ≡ halts self.old }
        ensures asked { asks self.new ≡ asked_on (asks self.old) 1 }
        ensures free { free self.old ≡ true → (result ≡ Go) × (free self.new ≡ true) };

    /// Whether the gate says that it never halts any more. Then its asks may be counted apart, and told it all at
    /// once by `count`, which costs less than to ask it after each step.
    fn is_free(&self) -> bool
        ensures { result ≡ true → free self.now ≡ true }
    {
        false
    }

    /// Counts so many asks at once. Where the gate never halts any more its halts stand still.
    fn count(&mut self, more: u64)
        ensures never_falls { halts self.old ≤ halts self.new }
        ensures halts { free self.old ≡ true → halts self.new ≡ halts self.old }
        ensures asked { asks self.new ≡ asked_on (asks self.old) more }
        ensures free { free self.old ≡ true → free self.new ≡ true }
    {
        for n in 0..more {
            let _ = n;
            self.after(StepKind::Opening);
        }
    }
}
