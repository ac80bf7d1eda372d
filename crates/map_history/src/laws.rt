// What holds of the map's definitions.
ghost use Rattle.std.specs.Prelude.{◌≡◌, ◌↔◌, ℕ, ◌==◌, true, List, if◌then◌else◌};
ghost use Rattle.std.specs.FinMap.{get};
ghost use Rattle.map_history.specs.declared.op.Op.{Op};
ghost use Rattle.map_history.specs.declared.reply.Reply.{Reply};
ghost use Rattle.map_history.specs.AtKey.{reply_at, left_at};
ghost use Rattle.map_history.specs.Keys.{key_of, GivesSmall, IsOneKeyed, HaveNoCommonKey, is_format_1, may_add};
ghost use Rattle.map_history.specs.Replay.{Pairs, HasSmallValues, reply_of, map_after};
ghost use Rattle.map_history.specs.History.{Answered, AreOneKeyed, IsLegalFrom, on_key};
ghost use Rattle.map_history.specs.Words.{word_of, IsReply, adds_by};

/// Operations without a common key commute: neither sees the other, and the map doesn't tell which came first.
#[tactic(auto, using(crate::proofs::Commuting::commuting))]
pub fn requests_commute()
    ensures map { (a b : Op) (pairs : Pairs) → HaveNoCommonKey a b
        → map_after (map_after pairs a) b ≡ map_after (map_after pairs b) a }
    ensures reply { (a b : Op) (pairs : Pairs) → HaveNoCommonKey a b
        → reply_of (map_after pairs b) a ≡ reply_of pairs a }
{}

/// An operation with one key sees and changes only what that key has; each of format 1 is such a one.
#[tactic(auto, using(crate::proofs::Cells::by_own_key))]
pub fn decided_by_the_key()
    ensures one_key { (op : Op) → is_format_1 op ≡ true → IsOneKeyed op }
    ensures reply { (pairs : Pairs) (op : Op) → IsOneKeyed op
        → reply_of pairs op ≡ reply_at (get pairs (key_of op)) op }
    ensures map { (pairs : Pairs) (op : Op) (key : ℕ) → IsOneKeyed op → get (map_after pairs op) key
        ≡ (if key == key_of op then left_at (get pairs (key_of op)) op else get pairs key) }
{}

/// Replies with one word are one reply; and a reply whose word says that a pair was added, or put in the place of
/// another, is one to an operation that may do so.
#[tactic(auto, using(crate::proofs::Words::words_tell))]
pub fn words_tell_replies()
    ensures same { (a b : Reply) → IsReply a → IsReply b → word_of a ≡ word_of b → a ≡ b }
    ensures adds { (pairs : Pairs) (op : Op) → IsReply (reply_of pairs op)
        → adds_by (word_of (reply_of pairs op)) ≡ true → may_add op ≡ true }
{}

/// Where the values of a map have 32 bits, and so has the one that an operation gives, its reply has a word and the map
/// afterwards has such values.
#[tactic(auto, using(crate::proofs::Values::values_small))]
pub fn values_stay_small()
    ensures map { (pairs : Pairs) (op : Op) → GivesSmall op → HasSmallValues pairs
        → HasSmallValues (map_after pairs op) }
    ensures reply { (pairs : Pairs) (op : Op) → HasSmallValues pairs → IsReply (reply_of pairs op) }
{}

/// A history of operations with one key each is legal exactly where, for each key, the part on that key is.
#[tactic(auto, using(crate::proofs::ByKey::by_key))]
pub fn legal_for_each_key()
    ensures { (pairs : Pairs) (history : List Answered) → AreOneKeyed history
        → IsLegalFrom pairs history ↔ ((key : ℕ) → IsLegalFrom pairs (on_key key history)) }
{}
