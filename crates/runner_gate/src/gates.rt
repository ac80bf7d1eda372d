//! Where the runners of a table get their gates.
ghost use Rattle.std.specs.Prelude.{◌≡◌, ℕ, List};
ghost use Rattle.runner_gate.specs.Asks.{unasked_of};
ghost use Rattle.runner_gate.specs.Counts.{plus, halts_after, plans_after, planned_after};
ghost use Rattle.runner_gate.specs.declared.counts.GatePlan.{GatePlan};

use crate::gate::Gate;

/// Gives each runner of a table its gate, and takes the gates back once the runners are done.
///
/// It counts the gates that came back, the halted ones among them, and the asks of those that came back, and it keeps
/// for which runners gates were given and what was planned. A count that is kept in 64 bits stands still at its last
/// number.
pub trait Gates {
    /// The gates, which go with their runners into threads.
    type Gate: Gate + Send + Drop;

    /// How many gates came back, halted or not.
    ghost returned: { Self → ℕ };

    /// How many gates came back that had halted.
    ghost halts: { Self → ℕ };

    /// How many asks the gates had that came back.
    ghost asks: { Self → ℕ };

    /// How many gates were given that are to halt.
    ghost plans: { Self → ℕ };

    /// For which runners the first 16 gates were given, and with which values of `halt`, in the order of the calls.
    ghost planned: { Self → List GatePlan };

    /// A gate that wasn't asked yet, for the runner with this number. Where `halt` has a number, the gate is planned
    /// to halt at its ask with this number, counted from 1, if the gates are of a kind that halts.
    fn gate(&mut self, runner: u32, halt: Option<u64>) -> Self::Gate
        ensures unasked { (Self.Gate.halts result ≡ 0) × (Self.Gate.asks result ≡ unasked_of runner halt) }
        ensures returned { returned self.new ≡ returned self.old }
        ensures halts { halts self.new ≡ halts self.old }
        ensures asks { asks self.new ≡ asks self.old }
        ensures plans { plans self.new ≡ plans_after (plans self.old) halt }
        ensures planned { planned self.new ≡ planned_after (planned self.old) runner halt };

    /// Takes a gate back, and counts what it counted.
    fn back(&mut self, gate: Self::Gate)
        ensures returned { returned self.new ≡ plus (returned self.old) 1 }
        ensures halts { halts self.new ≡ halts_after (halts self.old) (Self.Gate.halts gate) }
        ensures asks { asks self.new ≡ plus (asks self.old) (Self.Gate.asks gate).count }
        ensures plans { plans self.new ≡ plans self.old }
        ensures planned { planned self.new ≡ planned self.old };
}
