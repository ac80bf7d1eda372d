//! What an operation does to its own key.
ghost use Rattle.std.specs.Prelude.{◌≡◌, false};
ghost use Rattle.std.specs.FinMap.{get};
ghost use Rattle.structure_laws.specs.map_history.specs.AtKey.{reply_at, left_at, changes_at};
ghost use Rattle.structure_laws.specs.map_history.specs.Keys.{key_of, IsOneKeyed};
ghost use Rattle.structure_laws.specs.map_history.specs.Replay.{Pairs, reply_of, map_after};

use structure_laws::map_history::{Op, Reply};

/// The reply to an operation whose key had this value, or none: where the operation has no second key, the map's.
pub fn reply_at(had: Option<u32>, op: Op) -> Reply
    ensures reply { result ≡ reply_at had op }
    ensures map { (pairs : Pairs) → IsOneKeyed op → get pairs (key_of op) ≡ had → result ≡ reply_of pairs op }
{
    match (op, had) {
        (Op::Get(_), Some(value)) => Reply::Val(value),
        (Op::Ins(_, _) | Op::Mov(_, _), Some(_)) => Reply::Dup,
        (Op::Ins(_, _) | Op::Put(_, _), None) => Reply::New,
        (Op::Put(_, _), Some(value)) => Reply::Was(value),
        (Op::Del(_), Some(_)) => Reply::Gone,
        (Op::Get(_) | Op::Del(_) | Op::Mov(_, _), None) => Reply::Absent,
    }
}

/// What the key has afterwards, in the map, where the operation has no second key.
pub fn left_at(had: Option<u32>, op: Op) -> Option<u32>
    ensures left { result ≡ left_at had op }
    ensures map { (pairs : Pairs) → IsOneKeyed op → get pairs (key_of op) ≡ had
        → result ≡ get (map_after pairs op) (key_of op) }
{
    match (op, had) {
        (Op::Ins(_, value), None) => Some(value),
        (Op::Put(_, value), _) => Some(value),
        (Op::Get(_) | Op::Ins(_, _) | Op::Mov(_, _), _) => had,
        (Op::Del(_), _) => None,
    }
}

/// Whether the key's value is then set or taken; if not, the key has what it had before.
pub fn changes_at(had: Option<u32>, op: Op) -> bool
    ensures changes { result ≡ changes_at had op }
    ensures same { result ≡ false → left_at had op ≡ had }
{
    matches!(
        (op, had),
        (Op::Ins(_, _), None) | (Op::Put(_, _), _) | (Op::Del(_), Some(_))
    )
}
