//! Which lists of steps are bodies.
ghost use Rattle.std.specs.Prelude.{◌≤◌, ◌↔◌, IsOk, IfErr, length};
ghost use Rattle.body_terms.specs.Shape.{IsShaped};
ghost use Rattle.body_terms.specs.Fault.{IsFirstFault};

use crate::body::Body;
use crate::fault::{end_fault, step_fault};
use crate::misshape::Misshape;
use crate::step::Step;

/// Checks these steps, from the first on.
fn check_steps(steps: &[Step]) -> Result<(), Misshape>
    requires { length steps.now ≤ 40 }
    ensures ok { IsOk result ↔ IsShaped steps.now }
    ensures first { IfErr result (IsFirstFault steps.now) }
{
    if steps.len() > 32 {
        return Err(Misshape::TooLong { at: 32 });
    }
    for at in 0..steps.len() {
        if let Some(fault) = step_fault(&steps[..at], &steps[at]) {
            return Err(fault);
        }
    }
    match end_fault(steps) {
        Some(fault) => Err(fault),
        None => Ok(()),
    }
}

impl Body {
    /// Whether the steps have the shape of a body: at most 32 steps; first those that may leave, then at
    /// most two `Make`s, the one `Stamp`, the `Store`s, the `Retire`s and the one `Answer`; registers set
    /// once and before they are used; a `Fresh` for each `Store`, and no two `Store`s to one place.
    /// The error is the first fault: of the step at the lowest place, there by the order of the tests.
    pub fn check(&self) -> Result<(), Misshape>
        ensures ok { IsOk result ↔ IsShaped self.now }
        ensures first { IfErr result (IsFirstFault self.now) }
    {
        check_steps(self.steps.as_slice())
    }
}
