// Each call of `map_history` once, with ample memory.
use map_history::{Book, Op, Reply};
use std::test::Fail;

// Operations on one map, with their replies: a repeated key keeps its value; a key is set whatever stood there; a value
// moves to an absent key alone.
const ASKED: [(Op, Reply); 20] = [
    (Op::Ins(5, 70), Reply::New),
    (Op::Ins(5, 80), Reply::Dup),
    (Op::Get(5), Reply::Val(70)),
    (Op::Del(5), Reply::Gone),
    (Op::Del(5), Reply::Absent),
    (Op::Get(5), Reply::Absent),
    (Op::Put(5, 70), Reply::New),
    (Op::Put(5, 80), Reply::Was(70)),
    (Op::Get(5), Reply::Val(80)),
    (Op::Del(5), Reply::Gone),
    (Op::Put(5, 90), Reply::New),
    (Op::Mov(1, 2), Reply::Absent),
    (Op::Ins(1, 10), Reply::New),
    (Op::Mov(1, 1), Reply::Dup),
    (Op::Mov(1, 2), Reply::Moved),
    (Op::Get(1), Reply::Absent),
    (Op::Get(2), Reply::Val(10)),
    (Op::Ins(1, 20), Reply::New),
    (Op::Mov(1, 2), Reply::Dup),
    (Op::Get(2), Reply::Val(10)),
];

#[test]
fn operations_have_their_replies(rt: HostRuntime) -> Result<(), Fail> {
    let mut book = Book::new(rt.alloc());
    assert!(rt; book.is_empty());
    for (op, reply) in ASKED {
        let found = book.apply(op)?;
        assert!(rt; found == reply, "{op:?}");
    }
    assert!(rt; book.len() == 3);
    Ok(())
}

/// Whether the reply has this word, and comes back from it.
fn has_word(reply: Reply, word: u64) -> bool {
    reply.word() == word && Reply::from_word(word) == Some(reply)
}

#[test]
fn replies_come_back_from_their_words(rt: HostRuntime) {
    let words = [
        (Reply::New, 1 << 32),
        (Reply::Dup, 2 << 32),
        (Reply::Val(70), (3 << 32) + 70),
        (Reply::Gone, 4 << 32),
        (Reply::Absent, 21_474_836_480),
        (Reply::Was(70), 25_769_803_846),
        (Reply::Moved, 30_064_771_072),
    ];
    for (reply, word) in words {
        assert!(rt; has_word(reply, word), "{word}");
    }
    for word in [0, (4 << 32) + 1, (7 << 32) + 1, 8 << 32] {
        assert!(rt; Reply::from_word(word).is_none(), "{word}");
    }
}

#[test]
fn an_operation_depends_on_its_keys(rt: HostRuntime) {
    let rows = [
        (Op::Get(9), None),
        (Op::Ins(9, 1), None),
        (Op::Del(9), None),
        (Op::Put(9, 1), None),
        (Op::Mov(9, 7), Some(7)),
    ];
    for (op, other) in rows {
        assert!(rt; op.key() == 9 && op.other_key() == other, "{op:?}");
    }
}
