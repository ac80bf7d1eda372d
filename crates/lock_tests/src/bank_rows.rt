//! Tests of transfers.
use crate::bank::{move_all, stop_first};
use std::alloc::AllocError;

/// All balances together.
fn sum(balances: &[u32]) -> u64 {
    let mut sum: u64 = 0;
    for &balance in balances {
        sum = sum.saturating_add(u64::from(balance));
    }
    sum
}

#[test]
fn money_that_goes_back_and_forth_keeps_its_sum(rt: HostRuntime) -> Result<(), AllocError> {
    let moved = move_all(&rt, rt.alloc(), 2, 2, 200)?;
    assert!(&rt; moved.made.as_slice() == [200, 200].as_slice());
    assert!(&rt; sum(moved.balances.as_slice()) == 200);
    Ok(())
}

#[test]
fn ten_thousand_transfers_of_four_workers_keep_the_sum(rt: HostRuntime) -> Result<(), AllocError> {
    let moved = move_all(&rt, rt.alloc(), 8, 4, 2_500)?;
    assert!(&rt; moved.made.as_slice() == [2_500, 2_500, 2_500, 2_500].as_slice());
    assert!(&rt; sum(moved.balances.as_slice()) == 800);
    Ok(())
}

/// The ask before the one behind the publication of the first worker's transfer, and its last ask.
const BEFORE: u64 = 5;

const LAST: u64 = 37;

#[test]
fn a_transfer_that_is_stopped_happens_once_or_not_at_all(
    rt: HostRuntime,
) -> Result<(), AllocError> {
    for ask in 1..=LAST {
        let moved = stop_first(rt.alloc(), ask)?;
        let left = if ask <= BEFORE { [101, 99] } else { [100, 100] };
        assert!(&rt; moved.made.as_slice() == [0, 1].as_slice(), "at {ask}");
        assert!(&rt; moved.balances.as_slice() == left.as_slice(), "at {ask}");
    }
    let moved = stop_first(rt.alloc(), LAST + 1)?;
    assert!(&rt; moved.made.as_slice() == [1, 1].as_slice());
    assert!(&rt; moved.balances.as_slice() == [100, 100].as_slice());
    Ok(())
}
