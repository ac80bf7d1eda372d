// What the check of a report answers.

/// What is wrong with a line of a report. The four tests are made in this order.
#[derive(Clone, Copy, Debug, PartialEq, Eq)]
pub enum BadReport {
    /// It isn't a line that can stand in its place.
    Form,
    /// Its rank is too high, stands on an earlier line, isn't above those before it in its trace, or an unserved
    /// request of its trace stands before it.
    Rank,
    /// Its reply isn't that of a plain map that serves the requests in the order of their ranks.
    Reply,
    /// The final number isn't the number of pairs in that map at the end.
    Final,
}

/// What a report is.
#[derive(Clone, Copy, Debug, PartialEq, Eq)]
pub enum Verdict {
    Legal,
    /// The first line, counted from 1, that fails the first test that fails.
    Fails { line: u32, kind: BadReport },
}
