//! A count of atomic steps.
ghost use Rattle.std.specs.Prelude.{◌≡◌, ◌+◌, min};

use std::marker::PhantomData;

/// How many atomic steps were counted under the label `L`. The count stands still at its type's end.
#[derive(Debug, Drop)]
pub struct Steps<L> {
    /// The steps so far.
    pub count: u64,
    label: PhantomData<L>,
}

impl<L> Steps<L> {
    /// No steps.
    pub fn new() -> Steps<L>
        ensures { result.count ≡ 0 }
    {
        Steps {
            count: 0,
            label: PhantomData,
        }
    }

    /// Counts one more step.
    pub fn tick(&mut self)
        ensures { self.new.count ≡ min (self.old.count + 1) u64.MAX }
    {
        self.count = self.count.saturating_add(1);
    }
}
