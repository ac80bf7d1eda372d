//! The laws of this crate, on contracts.
ghost use Rattle.std.specs.Prelude.{◌≡◌, ℕ, ◌≤◌, List};
ghost use Rattle.std.specs.FinMap.{len};
ghost use Rattle.history_orders.specs.map_history.specs.declared.op.Op.{Op};
ghost use Rattle.history_orders.specs.map_history.specs.declared.op.Request.{Request};
ghost use Rattle.history_orders.specs.Stamped.{Stamped, map_of, IsHistoryOf};
ghost use Rattle.map_sizes.specs.Sizes.{HaveFirstStamps, HaveOps, map_behind, peak, size_behind};

/// No map that requests leave on their way is larger than the largest one.
pub fn sizes_are_below_the_peak()
    ensures { (requests : List Request) (count : ℕ) → size_behind requests count ≤ peak requests }
{}

/// Where the first requests of a list, so many, have stamps that rise along it, or stay at an odd one, and no other has
/// one, their history leaves the map that these requests leave in their order.
pub fn histories_in_order_are_replays()
    ensures { (op : ℕ → Op) (stamp : ℕ → ℕ) (requests : List Request) (count : ℕ) (history : List Stamped)
        → HaveOps op requests
        → HaveFirstStamps stamp requests count → IsHistoryOf op stamp history
        → map_of history ≡ map_behind requests count }
{}
