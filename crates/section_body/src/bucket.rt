//! The hash table's hash and bodies.
ghost use Rattle.std.specs.Prelude.{◌≡◌, ◌≤◌, is_some, OnSome};
ghost use Rattle.section_body.specs.Bucket.{bucket_index, bucket_steps, read_steps, insert_steps, remove_steps, fits_read, fits_insert, fits_remove};

use body_terms::{Body, Init, Step, Thunk, Value, Word};

/// The reply word of an insertion of an absent key.
const NEW: u64 = 1 << 32;

/// The reply word of a removal of a present key.
const GONE: u64 = 4 << 32;

/// The bucket of a key among `2 ^ b` buckets, by Fibonacci hashing (Knuth, The Art of Computer
/// Programming, volume 3, section 6.4, 1973).
pub fn bucket_of(key: u32, b: u32) -> u32
    requires { b ≤ 12 }
    ensures { result ≡ bucket_index key b }
{
    if b == 0 {
        return 0;
    }
    key.wrapping_mul(2_654_435_769) >> (32 - b)
}

/// The body of a hash table's thunk. It is empty where the form is none of the hash table's three, and
/// where a place, slot, key, value or link of the form isn't a `u32`.
pub fn bucket_body(thunk: &Thunk) -> Body
    ensures { result ≡ bucket_steps thunk.now }
{
    let mut body = Body::empty();
    bucket_body_in(thunk, &mut body);
    body
}

/// Puts the body of a hash table's thunk, as `bucket_body` gives it, in place of what a kept body has.
pub fn bucket_body_in(thunk: &Thunk, body: &mut Body)
    ensures { body.new ≡ bucket_steps thunk.now }
{
    let filled = match thunk.form {
        1 => fill_read(thunk, body),
        2 => fill_insert(thunk, body),
        3 => fill_remove(thunk, body),
        _ => None,
    };
    if filled.is_none() {
        body.refill(&[]);
    }
}

/// Form 1: a request that changes nothing. The operands are the edition word and the reply word.
fn fill_read(thunk: &Thunk, body: &mut Body) -> Option<()>
    ensures fits { is_some result ≡ fits_read thunk.now }
    ensures steps { OnSome result (body.new ≡ read_steps thunk.now) }
{
    let edition = thunk.lock.checked_add(1)?;
    body.refill(&[
        Step::Load {
            place: edition,
            into: 0,
        },
        Step::Want {
            reg: 0,
            word: Word::from_bits(thunk.operands[0]),
        },
        Step::Stamp,
        Step::Answer {
            reply: thunk.operands[1],
        },
    ]);
    Some(())
}

/// Form 2: a new node before the bucket's first one. The operands are the edition word, the key, the
/// value and the link in the head.
fn fill_insert(thunk: &Thunk, body: &mut Body) -> Option<()>
    ensures fits { is_some result ≡ fits_insert thunk.now }
    ensures steps { OnSome result (body.new ≡ insert_steps thunk.now) }
{
    let head = thunk.lock.checked_add(2)?;
    let key = u32::try_from(thunk.operands[1]).ok()?;
    let value = u32::try_from(thunk.operands[2]).ok()?;
    let next = u32::try_from(thunk.operands[3]).ok()?;
    let init = Init {
        cells: [
            Value::Const(0),
            Value::Const(key),
            Value::Const(value),
            Value::Const(next),
            Value::Const(0),
        ],
    };
    body.refill(&[
        Step::Load {
            place: head - 1,
            into: 0,
        },
        Step::Want {
            reg: 0,
            word: Word::from_bits(thunk.operands[0]),
        },
        Step::Fresh { reg: 0 },
        Step::Load {
            place: head,
            into: 1,
        },
        Step::Fresh { reg: 1 },
        Step::Make { init, into: 2 },
        Step::Stamp,
        Step::Store {
            reg: 1,
            value: Value::Made(2),
        },
        Step::Store {
            reg: 0,
            value: Value::Const(0),
        },
        Step::Answer { reply: NEW },
    ]);
    Some(())
}

/// Form 3: a node is taken out of its chain. The operands are the edition word, the place of the link to
/// the node, the node's slot and its next link.
fn fill_remove(thunk: &Thunk, body: &mut Body) -> Option<()>
    ensures fits { is_some result ≡ fits_remove thunk.now }
    ensures steps { OnSome result (body.new ≡ remove_steps thunk.now) }
{
    let edition = thunk.lock.checked_add(1)?;
    let link = u32::try_from(thunk.operands[1]).ok()?;
    let slot = u32::try_from(thunk.operands[2]).ok()?;
    let next = u32::try_from(thunk.operands[3]).ok()?;
    body.refill(&[
        Step::Load {
            place: edition,
            into: 0,
        },
        Step::Want {
            reg: 0,
            word: Word::from_bits(thunk.operands[0]),
        },
        Step::Fresh { reg: 0 },
        Step::Load {
            place: link,
            into: 1,
        },
        Step::Fresh { reg: 1 },
        Step::Stamp,
        Step::Store {
            reg: 1,
            value: Value::Const(next),
        },
        Step::Store {
            reg: 0,
            value: Value::Const(0),
        },
        Step::Retire { slot },
        Step::Answer { reply: GONE },
    ]);
    Some(())
}
