// Worked rows of sections' bodies, and each call once.
use crate::rows::{Shown, check, number_of};
use bucket_bodies::move_body;
use section_body::{
    Body, Init, Misshape, Step, Steps, Thunk, Trail, Value, Word, bucket_body, bucket_body_in,
    bucket_of, cost, micro_at,
};
use std::alloc::{AllocError, Global};
use std::test::Fail;

#[test]
fn words_have_a_value_and_a_version(rt: HostRuntime) {
    let word = Word::pack(7, 3);
    assert!(rt; word.bits() == 12_884_901_895 && Word::pack(0, 1).bits() == 4_294_967_296);
    assert!(rt; word.value() == 7 && word.version() == 3);
    assert!(rt; Word::from_bits(12_884_901_895) == word && word.next(7) == Word::pack(7, 4));
}

#[test]
fn keys_have_their_buckets(rt: HostRuntime) {
    for (key, b, bucket) in [
        (1, 6, 39),
        (2, 6, 15),
        (5, 6, 5),
        (7, 6, 20),
        (56, 6, 39),
        (7, 0, 0),
    ] {
        assert!(rt; bucket_of(key, b) == bucket, "{key}");
    }
}

/// A thunk of the hash table's bucket 0, whose edition is as at first.
fn thunk_of(form: u64) -> Thunk {
    Thunk {
        form,
        request: 0,
        lock: 0,
        word: Word::pack(0, 1),
        operands: [1 << 32, 5, 70, 0, 0, 0, 0, 0],
    }
}

/// How many steps the thunk's body has, what its check says, and how many atomic steps it costs; the same of a body
/// that held another one before.
fn body_of(alloc: Global, thunk: &Thunk) -> Result<String, AllocError> {
    let body = bucket_body(thunk);
    let mut kept = bucket_body(&thunk_of(2));
    bucket_body_in(thunk, &mut kept);
    let (steps, again) = (body.steps.len(), kept.steps.len());
    let (checked, costs) = (body.check(), cost(&body));
    format!(in alloc; "{steps} {again} {checked:?} {costs}")
}

// The forms of the hash table's sections, and two forms that are none of them.
const BODIES: &str = "\
1 => 4 4 Ok(()) 21
2 => 10 10 Ok(()) 36
3 => 10 10 Ok(()) 27
0 => 0 0 Err(NoStamp { at: 0 }) 15
11 => 0 0 Err(NoStamp { at: 0 }) 15
";

struct Bodies;

impl Shown for Bodies {
    fn shown(alloc: Global, text: &str) -> Result<String, AllocError> {
        body_of(alloc, &thunk_of(u64::from(number_of(text))))
    }
}

#[test]
fn the_hash_tables_bodies_have_their_costs(rt: HostRuntime) -> Result<(), Fail> {
    check::<Bodies>(&rt, rt.alloc(), BODIES)?;
    Ok(())
}

/// Thunks over two keys: in the buckets 0 and 1, and of form 23 in bucket 0 alone. `half` is what form 22 has in the
/// high half of its fourth operand: 1 where the first key lies in the lower bucket, so that the head that is loaded,
/// which is that of the second key's bucket, is the higher one. Any other number says that it is the lower one.
fn thunk_over_two(form: u64, half: u64) -> Thunk {
    let mut thunk = thunk_of(form);
    thunk.operands = match form {
        21 => [1 << 32, 1 << 32, 1 << 32, 3, 0, 0, 0, 5 << 32],
        22 => [
            1 << 32,
            1 << 32,
            1 << 32,
            (half << 32) + 3,
            8,
            0,
            (70 << 32) + 9,
            0,
        ],
        _ => [1 << 32, 2, 0, 0, 9, 70, 0, 0],
    };
    thunk
}

/// The same of the body over two keys, and its tenth step. The text is the form and the half.
fn move_of(alloc: Global, text: &str) -> Result<String, AllocError> {
    let (form, half) = text.split_once(" ").unwrap_or((text, "0"));
    let thunk = thunk_over_two(u64::from(number_of(form)), u64::from(number_of(half)));
    let body = move_body(&thunk);
    let (steps, checked, costs, tenth) = (
        body.steps.len(),
        body.check(),
        cost(&body),
        body.steps.get(9),
    );
    format!(in alloc; "{steps} {checked:?} {costs} {tenth:?}")
}

// The forms over two keys; of form 22 the first key's bucket may be the lower one, as 1 says alone.
const MOVES: &str = "\
21 => 7 Ok(()) 29 None
22 => 19 Ok(()) 59 Some(Load { place: 2, into: 3 })
22 1 => 19 Ok(()) 59 Some(Load { place: 5, into: 3 })
22 2 => 19 Ok(()) 59 Some(Load { place: 2, into: 3 })
23 => 11 Ok(()) 38 Some(Retire { slot: 0 })
";

struct Moves;

impl Shown for Moves {
    fn shown(alloc: Global, text: &str) -> Result<String, AllocError> {
        move_of(alloc, text)
    }
}

#[test]
fn the_bodies_over_two_keys_have_their_costs(rt: HostRuntime) -> Result<(), Fail> {
    check::<Moves>(&rt, rt.alloc(), MOVES)?;
    Ok(())
}

#[test]
fn other_thunks_have_no_body(rt: HostRuntime) {
    let mut wide = thunk_of(2);
    wide.operands = [1 << 32, 1 << 32, 70, 0, 0, 0, 0, 0];
    assert!(rt; bucket_body(&wide).steps.len() == 0);
    let mut last = thunk_of(1);
    last.lock = u32::MAX;
    assert!(rt; bucket_body(&last).steps.len() == 0);
}

const LOAD: Step = Step::Load { place: 1, into: 0 };

const ANSWER: Step = Step::Answer { reply: 1 };

fn stored(reg: u8) -> Step {
    Step::Store {
        reg,
        value: Value::Const(0),
    }
}

fn made(into: u8) -> Step {
    Step::Make {
        init: Init {
            cells: [Value::Const(0); 5],
        },
        into,
    }
}

/// Whether the check of these steps gives this fault.
fn has_fault(steps: &[Step], fault: Misshape) -> bool {
    steps.len() <= 40 && Body::from_slice(steps).check() == Err(fault)
}

#[test]
fn a_body_is_refused_for_its_first_fault(rt: HostRuntime) {
    let want = Step::Want {
        reg: 0,
        word: Word::pack(0, 1),
    };
    let twice = [
        LOAD,
        Step::Load { place: 1, into: 1 },
        Step::Fresh { reg: 0 },
        Step::Fresh { reg: 1 },
        Step::Stamp,
        stored(0),
        stored(1),
    ];
    assert!(rt; has_fault(&[LOAD; 33], Misshape::TooLong { at: 32 }));
    assert!(rt; has_fault(&[], Misshape::NoStamp { at: 0 }));
    assert!(rt; has_fault(&[Step::Stamp, LOAD], Misshape::ExitAfterEffect { at: 1 }));
    assert!(rt; has_fault(&[Step::Stamp, made(0)], Misshape::OutOfOrder { at: 1 }));
    assert!(rt; has_fault(&[Step::Stamp, Step::Stamp], Misshape::OutOfOrder { at: 1 }));
    assert!(rt; has_fault(&[ANSWER], Misshape::NoStamp { at: 0 }));
    assert!(rt; has_fault(&[Step::Stamp], Misshape::NoAnswer { at: 1 }));
    assert!(rt;
        has_fault(
            &[made(0), made(1), made(2)],
            Misshape::TooManyMakes { at: 2 }
        )
    );
    assert!(rt; has_fault(&[want], Misshape::RegisterUnset { at: 0 }));
    assert!(rt; has_fault(&[LOAD, LOAD], Misshape::RegisterUnset { at: 1 }));
    assert!(rt;
        has_fault(
            &[LOAD, Step::Stamp, stored(0)],
            Misshape::NotFresh { at: 2 }
        )
    );
    assert!(rt; has_fault(&twice, Misshape::StoredTwice { at: 6 }));
}

// What stands at these places of the line of an insertion's body.
const LINE: &str = "\
0 => LoadCell { place: 1, log: 0 }
1 => Commit { place: 1, log: 0 }
3 => CheckFresh { place: 1, log: 0 }
5 => Commit { place: 2, log: 1 }
10 => PrivateStore { cell: 1, log: 2, value: Fixed(5) }
17 => MakeCommit { log: 2 }
21 => ExchangeCell { place: 2, log: 1, value: Agreed(2) }
23 => ReplyExchange { reply: 4294967296 }
24 => End
";

struct Line;

impl Shown for Line {
    fn shown(alloc: Global, text: &str) -> Result<String, AllocError> {
        let micro = micro_at(&bucket_body(&thunk_of(2)), number_of(text));
        format!(in alloc; "{micro:?}")
    }
}

#[test]
fn a_body_has_its_line(rt: HostRuntime) -> Result<(), Fail> {
    check::<Line>(&rt, rt.alloc(), LINE)?;
    Ok(())
}

#[test]
fn a_trail_keeps_what_was_agreed_and_steps_are_counted(rt: HostRuntime) {
    let mut trail = Trail::new();
    trail.agree(12_884_901_895);
    assert!(rt; trail.word(0) == Word::pack(7, 3) && !trail.late);
    let mut steps = Steps::<u8>::new();
    steps.tick();
    steps.tick();
    assert!(rt; steps.count == 2);
}
