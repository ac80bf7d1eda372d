//! The laws of histories, each on a contract.
ghost use Rattle.std.specs.Prelude.{◌≡◌, ◌≢◌, ◌⊎◌, ◌↔◌, ◌<◌, ℕ, suc, true, false, List, Some, length, slice_get, All, Contains};
ghost use Rattle.std.specs.FinMap.{empty};
ghost use Rattle.map_history.specs.declared.op.Op.{Op};
ghost use Rattle.map_history.specs.History.{IsLegalFrom};
ghost use Rattle.map_history.specs.Keys.{HaveNoCommonKey};
ghost use Rattle.map_history.specs.Replay.{reply_of, map_after, map_after_all};
ghost use Rattle.history_orders.specs.Stamped.{Stamped, is_earlier, oldest_first, ops_of, map_of, map_before, IsReplayed, HasReply, IsStill, IsInOrder, put_in, IsLastOnItsKeys, AreApartOrStill, IsHistoryOf};
ghost use Rattle.history_orders.specs.Turns.{Turn, comes_before, Follows};

/// A history is legal from the empty map, oldest first, exactly where each reply is that of the map
/// before it; and the map that it leaves is the same, read from either end.
pub fn replays_are_legal()
    ensures legal { (history : List Stamped) → IsReplayed history ↔ IsLegalFrom empty (oldest_first history) }
    ensures map { (history : List Stamped) → map_after_all empty (ops_of history) ≡ map_of history }
{}

/// An entry is put into a history in its turn. Where no later entry has a key in common with it and its
/// reply is that of the whole history's map, the replies stay those of the replay, and the final map
/// becomes the map after its operation, although the entry isn't the last one.
pub fn entries_are_put_in()
    ensures entries { (e x : Stamped) (history : List Stamped)
        → Contains (put_in e history) x ↔ ((x ≡ e) ⊎ Contains history x) }
    ensures count { (e : Stamped) (history : List Stamped) → length (put_in e history) ≡ suc (length history) }
    ensures order { (e : Stamped) (history : List Stamped) → All (λ x. x.number ≢ e.number) history → IsInOrder history
        → IsInOrder (put_in e history) }
    ensures map { (e : Stamped) (history : List Stamped) → IsLastOnItsKeys e history
        → map_of (put_in e history) ≡ map_after (map_of history) e.op }
    ensures replay { (e : Stamped) (history : List Stamped) → IsLastOnItsKeys e history
        → e.reply ≡ reply_of (map_of history) e.op → IsReplayed history → IsReplayed (put_in e history) }
{}

/// An entry whose operation changes nothing at its turn, and whose reply is that of the map there, goes in
/// anywhere, whatever keys later entries have: the final map stays, and the history stays replayed.
pub fn still_entries_are_put_in()
    ensures map { (e : Stamped) (history : List Stamped) → IsStill e history
        → map_of (put_in e history) ≡ map_of history }
    ensures replay { (e : Stamped) (history : List Stamped) → IsStill e history → HasReply e history
        → IsReplayed history → IsReplayed (put_in e history) }
{}

/// What an entry that is put in leaves of the map at another one's turn: all of it where it comes later, or changes
/// nothing at its own turn; and where it comes earlier without a key in common, and no later entry has one
/// with it, the other one's reply, and that the other one changes nothing.
pub fn turns_stand()
    ensures later { (e x : Stamped) (history : List Stamped) → is_earlier x e ≡ false
        → map_before e (put_in x history) ≡ map_before e history }
    ensures still { (e x : Stamped) (history : List Stamped) → is_earlier x e ≡ true → IsStill x history
        → map_before e (put_in x history) ≡ map_before e history }
    ensures reply { (e x : Stamped) (history : List Stamped) → is_earlier x e ≡ true → IsLastOnItsKeys x history
        → HaveNoCommonKey x.op e.op → HasReply e history → HasReply e (put_in x history) }
    ensures quiet { (e x : Stamped) (history : List Stamped) → is_earlier x e ≡ true → IsLastOnItsKeys x history
        → HaveNoCommonKey x.op e.op → IsStill e history → IsStill e (put_in x history) }
{}

/// An operation's reply by the whole map is that at a turn, and what changes nothing in the whole map changes
/// nothing there, where each entry that comes after the turn has no key in common with it or changes nothing. At
/// equal stamps the map is one where no entry with that stamp changes anything: their order plays no part.
pub fn turns_are_found()
    ensures reply { (e : Stamped) (history : List Stamped) → IsInOrder history → AreApartOrStill e history
        → reply_of (map_of history) e.op ≡ reply_of (map_before e history) e.op }
    ensures still { (e : Stamped) (history : List Stamped) → IsInOrder history → AreApartOrStill e history
        → map_after (map_of history) e.op ≡ map_of history → IsStill e history }
    ensures equal { (a b : Stamped) (history : List Stamped) → IsInOrder history → a.stamp ≡ b.stamp
        → ((x : Stamped) → Contains history x → x.stamp ≡ a.stamp → IsStill x history)
        → map_before a history ≡ map_before b history }
{}

/// Where stamps follow one another and the numbers rise, turns do.
pub fn turns_follow()
    ensures { (a b : Turn) → Follows a.0 b.0 → a.1 < b.1 → comes_before a b ≡ true }
{}

/// The stamp words and the requests determine the history: two histories of them, each with the replies
/// of its replay, are one. No request stands in it twice.
pub fn a_history_is_one()
    ensures once { (op : ℕ → Op) (stamp : ℕ → ℕ) (history : List Stamped) → IsHistoryOf op stamp history
        → (i j : ℕ) (a b : Stamped)
        → slice_get history i ≡ Some a → slice_get history j ≡ Some b → a.number ≡ b.number → i ≡ j }
    ensures one { (op : ℕ → Op) (stamp : ℕ → ℕ) (a b : List Stamped) → IsHistoryOf op stamp a → IsHistoryOf op stamp b
        → IsReplayed a → IsReplayed b → a ≡ b }
{}
