//! The bodies of a table that moves keys, too.
ghost use Rattle.std.specs.Prelude.{◌≡◌, ◌+◌, ◌<◌, is_some, OnSome};
ghost use Rattle.bucket_bodies.specs.Two.{two_steps, look_two_steps, move_steps, rename_steps};
ghost use Rattle.bucket_bodies.specs.Two.{fits_look_two, fits_move, fits_rename, moved_node};
ghost use Rattle.bucket_bodies.specs.Two.{low_half, high_half};

use crate::bodies::table_body_in;
use body_steps::{answer, load, make, retire, store, take, want};
use body_terms::{Body, Init, Step, Thunk, Value, Word};

/// The reply word of a `mov` that moves the value.
const MOVED: u64 = 7 << 32;

/// The body of a thunk on a table that moves keys, too: that of `table_body`, or one over two keys. It is empty where
/// the form is none of the table's seven, and where a place, slot, key, value or link of the form isn't a `u32`.
pub fn move_body(thunk: &Thunk) -> Body
    ensures { result ≡ two_steps thunk.now }
{
    let mut body = Body::empty();
    move_body_in(thunk, &mut body);
    body
}

/// Puts the body of a thunk, as `move_body` gives it, in place of what a kept body has.
pub fn move_body_in(thunk: &Thunk, body: &mut Body)
    ensures { body.new ≡ two_steps thunk.now }
{
    let filled = match thunk.form {
        21 => fill_look_two(thunk, body),
        22 => fill_move(thunk, body),
        23 => fill_rename(thunk, body),
        _ => {
            table_body_in(thunk, body);
            return;
        }
    };
    if filled.is_none() {
        body.refill(&[]);
    }
}

/// A node with this key, value and link to the next node.
fn node(key: u32, value: u32, next: u32) -> Init
    ensures { result ≡ moved_node key value next }
{
    Init {
        cells: [
            Value::Const(0),
            Value::Const(key),
            Value::Const(value),
            Value::Const(next),
            Value::Const(0),
        ],
    }
}

/// Form 21: a request that changes nothing, with its keys in two buckets. The operands are the lower edition's word,
/// the higher lock's word, the higher edition's word and the higher lock's place, and last the reply word.
fn fill_look_two(thunk: &Thunk, body: &mut Body) -> Option<()>
    ensures fits { is_some result ≡ fits_look_two thunk.now }
    ensures steps { OnSome result (body.new ≡ look_two_steps thunk.now) }
{
    let _lower = thunk.lock.checked_add(2)?;
    let higher = u32::try_from(thunk.operands[3]).ok()?;
    let _head = higher.checked_add(2)?;
    body.refill(&[
        load(thunk.lock + 1, 0),
        want(0, thunk.operands[0]),
        take(higher, thunk.operands[1]),
        load(higher + 1, 1),
        want(1, thunk.operands[2]),
        Step::Stamp,
        answer(thunk.operands[7]),
    ]);
    Some(())
}

/// The number in the low half of an operand.
fn low(thunk: &Thunk, at: usize) -> u32
    requires { at < 8 }
    ensures { result ≡ low_half thunk.now at }
{
    Word::from_bits(thunk.operands[at]).value()
}

/// The number in the high half of an operand.
fn high(thunk: &Thunk, at: usize) -> u32
    requires { at < 8 }
    ensures { result ≡ high_half thunk.now at }
{
    Word::from_bits(thunk.operands[at]).version()
}

/// Form 22: a node of one bucket is taken out, and a new one put in at the head of another bucket. The first operands
/// are those of form 21, and in operand 3 also whether the first bucket is the lower one; then, two numbers in each:
/// the place of the link to the node and the node's slot, its next link and the link in the other head, the new key
/// and the value.
fn fill_move(thunk: &Thunk, body: &mut Body) -> Option<()>
    ensures fits { is_some result ≡ fits_move thunk.now }
    ensures steps { OnSome result (body.new ≡ move_steps thunk.now) }
{
    let lower_head = thunk.lock.checked_add(2)?;
    let higher = low(thunk, 3);
    let higher_head = higher.checked_add(2)?;
    let head = if high(thunk, 3) == 1 {
        higher_head
    } else {
        lower_head
    };
    body.refill(&[
        load(thunk.lock + 1, 0),
        want(0, thunk.operands[0]),
        Step::Fresh { reg: 0 },
        take(higher, thunk.operands[1]),
        load(higher + 1, 1),
        want(1, thunk.operands[2]),
        Step::Fresh { reg: 1 },
        load(low(thunk, 4), 2),
        Step::Fresh { reg: 2 },
        load(head, 3),
        Step::Fresh { reg: 3 },
        make(node(low(thunk, 6), high(thunk, 6), high(thunk, 5)), 4),
        Step::Stamp,
        store(2, Value::Const(low(thunk, 5))),
        store(3, Value::Made(4)),
        store(0, Value::Const(0)),
        store(1, Value::Const(0)),
        retire(high(thunk, 4)),
        answer(MOVED),
    ]);
    Some(())
}

/// Form 23: a new node takes the place of another one in its chain. The operands are the edition word, the place of the
/// link to the old node, its slot and its next link, the new key and the value.
fn fill_rename(thunk: &Thunk, body: &mut Body) -> Option<()>
    ensures fits { is_some result ≡ fits_rename thunk.now }
    ensures steps { OnSome result (body.new ≡ rename_steps thunk.now) }
{
    let _head = thunk.lock.checked_add(2)?;
    let link = u32::try_from(thunk.operands[1]).ok()?;
    let slot = u32::try_from(thunk.operands[2]).ok()?;
    let next = u32::try_from(thunk.operands[3]).ok()?;
    let key = u32::try_from(thunk.operands[4]).ok()?;
    let value = u32::try_from(thunk.operands[5]).ok()?;
    body.refill(&[
        load(thunk.lock + 1, 0),
        want(0, thunk.operands[0]),
        Step::Fresh { reg: 0 },
        load(link, 1),
        Step::Fresh { reg: 1 },
        make(node(key, value, next), 2),
        Step::Stamp,
        store(1, Value::Made(2)),
        store(0, Value::Const(0)),
        retire(slot),
        answer(MOVED),
    ]);
    Some(())
}
