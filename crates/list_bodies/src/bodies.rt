//! The bodies of the sorted list's thunks.
ghost use Rattle.std.specs.Prelude.{◌≡◌, ◌+◌, ◌*◌, ◌<◌, ◌^◌, is_some, IfSome, OnSome};
ghost use Rattle.list_bodies.specs.List.{list_steps, look_steps, insert_steps, remove_steps, replace_steps};
ghost use Rattle.list_bodies.specs.List.{fits_look, fits_insert, fits_remove, fits_replace, names_node};
ghost use Rattle.list_bodies.specs.List.{node_with, node_in, mark_of};

use body_steps::{answer, load, make, retire, store, take, want};
use body_terms::{Body, Init, Step, Thunk, Value, Word};

/// The reply word of an insertion of an absent key.
const NEW: u64 = 1 << 32;

/// The reply word of a removal of a present key.
const GONE: u64 = 4 << 32;

/// The body of a sorted list's thunk: the sections of a singly linked list with a lock and a mark in each node, on
/// which a search takes no lock (Heller et al., *A lazy concurrent list-based set algorithm*, 2005). It is empty where
/// the form is none of the list's four, where a place, key or value of the form isn't a `u32`, and for a removal or a
/// new value where the link leads to no slot.
pub fn list_body(thunk: &Thunk) -> Body
    ensures { result ≡ list_steps thunk.now }
{
    let mut body = Body::empty();
    list_body_in(thunk, &mut body);
    body
}

/// Puts the body of a sorted list's thunk, as `list_body` gives it, in place of what a kept body has.
pub fn list_body_in(thunk: &Thunk, body: &mut Body)
    ensures { body.new ≡ list_steps thunk.now }
{
    let filled = match thunk.form {
        31 => fill_look(thunk, body),
        32 => fill_insert(thunk, body),
        33 => fill_remove(thunk, body),
        34 => fill_replace(thunk, body),
        _ => None,
    };
    if filled.is_none() {
        body.refill(&[]);
    }
}

/// Form 31: a request that changes nothing. The operands behind the first are the word of the predecessor's link, the
/// word of its mark and the reply word.
fn fill_look(thunk: &Thunk, body: &mut Body) -> Option<()>
    ensures fits { is_some result ≡ fits_look thunk.now }
    ensures steps { OnSome result (body.new ≡ look_steps thunk.now) }
{
    let mark = thunk.lock.checked_add(4)?;
    body.refill(&[
        load(thunk.lock + 2, 0),
        want(0, thunk.operands[1]),
        load(mark, 1),
        want(1, thunk.operands[2]),
        Step::Stamp,
        answer(thunk.operands[3]),
    ]);
    Some(())
}

/// A node with this key, link to the next node and value.
fn node(key: u32, next: Value, value: u32) -> Init
    ensures { result ≡ node_with key next value }
{
    Init {
        cells: [
            Value::Const(0),
            Value::Const(key),
            next,
            Value::Const(value),
            Value::Const(0),
        ],
    }
}

/// Form 32: a new node between the predecessor and the node to which its link leads. The operands are those of form
/// 31 without the reply word, then the key and the value.
fn fill_insert(thunk: &Thunk, body: &mut Body) -> Option<()>
    ensures fits { is_some result ≡ fits_insert thunk.now }
    ensures steps { OnSome result (body.new ≡ insert_steps thunk.now) }
{
    let mark = thunk.lock.checked_add(4)?;
    let key = u32::try_from(thunk.operands[3]).ok()?;
    let value = u32::try_from(thunk.operands[4]).ok()?;
    let next = Value::Const(Word::from_bits(thunk.operands[1]).value());
    body.refill(&[
        load(thunk.lock + 2, 0),
        want(0, thunk.operands[1]),
        Step::Fresh { reg: 0 },
        load(mark, 1),
        want(1, thunk.operands[2]),
        make(node(key, next, value), 2),
        Step::Stamp,
        store(0, Value::Made(2)),
        answer(NEW),
    ]);
    Some(())
}

/// The slot of the node that forms 33 and 34 take out. There is no answer where the link leads to no slot.
fn find_node(thunk: &Thunk) -> Option<u32>
    ensures fits { is_some result ≡ names_node thunk.now }
    ensures node { IfSome result (λ slot. slot ≡ node_in thunk.now) }
    ensures small { IfSome result (λ slot. mark_of slot < 2 ^ 32) }
{
    let slot = Word::from_bits(thunk.operands[1]).value().checked_sub(1)?;
    let lock = slot.checked_mul(5)?;
    let _mark = lock.checked_add(4)?;
    Some(slot)
}

/// Form 33: the node behind the predecessor is marked, and the predecessor links the node behind it. The operands are
/// those of form 31 without the reply word, then the node's lock word and its mark word.
fn fill_remove(thunk: &Thunk, body: &mut Body) -> Option<()>
    ensures fits { is_some result ≡ fits_remove thunk.now }
    ensures steps { OnSome result (body.new ≡ remove_steps thunk.now) }
{
    let mark = thunk.lock.checked_add(4)?;
    let old = find_node(thunk)?;
    body.refill(&[
        load(thunk.lock + 2, 0),
        want(0, thunk.operands[1]),
        Step::Fresh { reg: 0 },
        load(mark, 1),
        want(1, thunk.operands[2]),
        take(5 * old, thunk.operands[3]),
        load(5 * old + 2, 2),
        load(5 * old + 4, 3),
        want(3, thunk.operands[4]),
        Step::Fresh { reg: 3 },
        Step::Stamp,
        store(3, Value::Const(1)),
        store(0, Value::Of(2)),
        retire(old),
        answer(GONE),
    ]);
    Some(())
}

/// Form 34: a new node with another value in the place of the old one, which is marked and retired. The operands are
/// those of form 33, then the key, the value and the reply word. The old node links the new one before the predecessor
/// does: so a walk that stands on the old node gets on, and the old node links no slot that is retired before it.
fn fill_replace(thunk: &Thunk, body: &mut Body) -> Option<()>
    ensures fits { is_some result ≡ fits_replace thunk.now }
    ensures steps { OnSome result (body.new ≡ replace_steps thunk.now) }
{
    let mark = thunk.lock.checked_add(4)?;
    let old = find_node(thunk)?;
    let key = u32::try_from(thunk.operands[5]).ok()?;
    let value = u32::try_from(thunk.operands[6]).ok()?;
    body.refill(&[
        load(thunk.lock + 2, 0),
        want(0, thunk.operands[1]),
        Step::Fresh { reg: 0 },
        load(mark, 1),
        want(1, thunk.operands[2]),
        take(5 * old, thunk.operands[3]),
        load(5 * old + 2, 2),
        load(5 * old + 4, 3),
        want(3, thunk.operands[4]),
        Step::Fresh { reg: 3 },
        Step::Fresh { reg: 2 },
        make(node(key, Value::Of(2), value), 4),
        Step::Stamp,
        store(3, Value::Const(1)),
        store(2, Value::Made(4)),
        store(0, Value::Made(4)),
        retire(old),
        answer(thunk.operands[7]),
    ]);
    Some(())
}
