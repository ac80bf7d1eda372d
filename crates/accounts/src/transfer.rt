//! What is to be moved.
ghost use Rattle.std.specs.Prelude.{◌≡◌, ◌+◌, ◌<◌, ◌≤◌};
ghost use Rattle.accounts.specs.Moves.{lower_of, upper_of, moved, lower_after, upper_after};

/// An amount to be moved from one account to another.
#[derive(Clone, Copy, Debug, PartialEq, Eq)]
pub struct Transfer {
    /// The account that gives.
    pub from: u32,
    /// The account that takes.
    pub to: u32,
    /// How much at most.
    pub amount: u32,
}

/// As much of the amount as the one account has and the other has room for.
fn moved(amount: u32, source: u32, target: u32) -> u32
    ensures moved { result ≡ moved amount source target }
    ensures source { result ≤ source }
    ensures target { target + result ≤ 4294967295 }
{
    amount.min(source).min(u32::MAX - target)
}

impl Transfer {
    /// The lower one of the two accounts.
    pub fn lower(&self) -> u32
        ensures { result ≡ lower_of self.now }
    {
        if self.from < self.to {
            self.from
        } else {
            self.to
        }
    }

    /// The upper one of the two accounts.
    pub fn upper(&self) -> u32
        ensures { result ≡ upper_of self.now }
    {
        if self.from < self.to {
            self.to
        } else {
            self.from
        }
    }

    /// The balances of the lower and of the upper account after the transfer, by those before. They have together what
    /// they had.
    pub fn after(&self, lower: u32, upper: u32) -> (u32, u32)
        ensures lower { result.0 ≡ lower_after self.now lower upper }
        ensures upper { result.1 ≡ upper_after self.now lower upper }
        ensures sum { result.0 + result.1 ≡ lower + upper }
    {
        if self.from < self.to {
            let moved = moved(self.amount, lower, upper);
            (lower - moved, upper + moved)
        } else {
            let moved = moved(self.amount, upper, lower);
            (lower + moved, upper - moved)
        }
    }
}
