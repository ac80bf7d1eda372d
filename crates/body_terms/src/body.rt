//! A section's body: its list of steps.
ghost use Rattle.std.specs.Prelude.{◌≡◌, ◌+◌, ◌≤◌, [], length, take};

use crate::step::Step;
use arrayvec::ArrayVec;
use std::marker::Model;

/// What a critical section does, as data. A body that runs has at most 32 steps.
///
/// Contracts see the list of its steps.
#[derive(Debug, Drop)]
pub struct Body {
    /// The steps, in the order in which they run.
    pub steps: ArrayVec<Step, 40>,
}

impl Model for Body {
    ghost use Rattle.std.specs.Prelude.{List};
    ghost use Rattle.body_terms.specs.declared.step.Step.{Step as Action};

    ghost Value = { List Action };

    ghost view = { λ b. b.steps.items };
}

impl Body {
    /// The body with these steps.
    pub fn from_slice(steps: &[Step]) -> Body
        requires { length steps.now ≤ 40 }
        ensures { result ≡ steps.now }
    {
        let mut body = Body::empty();
        body.refill(steps);
        body
    }

    /// A body without steps, which has no shape and is never run.
    pub fn empty() -> Body
        ensures { result ≡ [] }
    {
        Body {
            steps: ArrayVec::new(),
        }
    }

    /// Gives the body this many steps: its first ones, and `Stamp` for each that it hasn't.
    #[inline(never)]
    fn resize(&mut self, count: usize)
        requires { count ≤ 40 }
        ensures { length self.new ≡ count }
    {
        self.steps.truncate(count);
        for _ in self.steps.len()..count {
            self.steps.push(Step::Stamp);
        }
    }

    /// Puts these steps in place of those that the body has. A body has room for 40 steps, so one that is kept
    /// and refilled is cheaper than another one made. Each step is written once, over what stands there: where the
    /// caller lists the steps in the call, the compiler makes no list of them.
    #[inline(always)]
    pub fn refill(&mut self, steps: &[Step])
        requires { length steps.now ≤ 40 }
        ensures { self.new ≡ steps.now }
    {
        if self.steps.len() != steps.len() {
            self.resize(steps.len());
        }
        write_over(self.steps.as_mut_slice(), steps);
    }
}

/// Writes the next ten of these steps, from this one on, over those that stand there; the ones before are written.
/// Where the list is known the compiler unrolls ten turns, and not many more.
#[inline(always)]
fn write_ten(place: &mut [Step], steps: &[Step], from: usize)
    requires few { from ≤ 30 }
    requires room { length place.old ≡ length steps.now }
    requires before { take from place.old ≡ take from steps.now }
    ensures room { length place.new ≡ length steps.now }
    ensures written { take (from + 10) place.new ≡ take (from + 10) steps.now }
{
    let end = steps.len().min(from + 10);
    for n in from..end {
        place[n] = steps[n];
    }
}

/// Writes these steps over so many others.
#[inline(always)]
fn write_over(place: &mut [Step], steps: &[Step])
    requires few { length steps.now ≤ 40 }
    requires room { length place.old ≡ length steps.now }
    ensures { place.new ≡ steps.now }
{
    write_ten(place, steps, 0);
    write_ten(place, steps, 10);
    write_ten(place, steps, 20);
    write_ten(place, steps, 30);
}
