//! The bodies of the search tree's thunks.
ghost use Rattle.std.specs.Prelude.{◌≡◌, ◌+◌, ◌<◌, ◌^◌, ◌==◌, cond, nat_lt, None, Some, is_some, IfSome, OnSome};
ghost use Rattle.tree_bodies.specs.Tree.{tree_steps, look_steps, insert_steps, delete_steps, replace_steps};
ghost use Rattle.tree_bodies.specs.Tree.{fits_look, fits_insert, fits_delete, fits_replace, names_removed};
ghost use Rattle.tree_bodies.specs.Tree.{leaf_with, inner_with, slot_in as link_slot, parent_in, leaf_in, sibling_of};
ghost use Rattle.tree_bodies.specs.Tree.{mark_of};
ghost use Rattle.body_terms.specs.Word.{value_of};
ghost use Rattle.section_body.specs.Bucket.{operand};

use body_steps::{answer, load, make, retire, store, take, want};
use body_terms::{Body, Init, Place, Step, Thunk, Value, Word};

/// The reply word of an insertion of an absent key.
const NEW: u64 = 1 << 32;

/// The reply word of a removal of a present key.
const GONE: u64 = 4 << 32;

/// The body of a search tree's thunk: the sections of an external search tree with try-locks (Ben-David,
/// Blelloch and Wei, 2022). It is empty where the form is none of the tree's four, where a place, key or
/// value of the form isn't a `u32`, for a removal or a new value also where a link leads to no slot, and for a
/// removal where the link to the leaf isn't one of the parent's.
pub fn tree_body(thunk: &Thunk) -> Body
    ensures { result ≡ tree_steps thunk.now }
{
    let mut body = Body::empty();
    tree_body_in(thunk, &mut body);
    body
}

/// Puts the body of a search tree's thunk, as `tree_body` gives it, in place of what a kept body has.
pub fn tree_body_in(thunk: &Thunk, body: &mut Body)
    ensures { body.new ≡ tree_steps thunk.now }
{
    let filled = match thunk.form {
        11 => fill_look(thunk, body),
        12 => fill_insert(thunk, body),
        13 => fill_delete(thunk, body),
        14 => fill_replace(thunk, body),
        _ => None,
    };
    if filled.is_none() {
        body.refill(&[]);
    }
}

/// Form 11: a request that changes nothing. The operands are the place and the word of the link from the
/// parent to the leaf, the parent's mark word and the reply word.
fn fill_look(thunk: &Thunk, body: &mut Body) -> Option<()>
    ensures fits { is_some result ≡ fits_look thunk.now }
    ensures steps { OnSome result (body.new ≡ look_steps thunk.now) }
{
    let mark = thunk.lock.checked_add(4)?;
    let link = u32::try_from(thunk.operands[0]).ok()?;
    body.refill(&[
        load(link, 0),
        want(0, thunk.operands[1]),
        load(mark, 1),
        want(1, thunk.operands[2]),
        Step::Stamp,
        answer(thunk.operands[3]),
    ]);
    Some(())
}

/// A leaf with this key and value.
fn leaf(key: u32, value: u32) -> Init
    ensures { result ≡ leaf_with key value }
{
    Init {
        cells: [
            Value::Const(0),
            Value::Const(key),
            Value::Const(0),
            Value::Const(value),
            Value::Const(0),
        ],
    }
}

/// An inner node with this key over these two links.
fn inner(key: u32, left: Value, right: Value) -> Init
    ensures { result ≡ inner_with key left right }
{
    Init {
        cells: [
            Value::Const(0),
            Value::Const(key),
            left,
            right,
            Value::Const(0),
        ],
    }
}

/// Form 12: a new leaf beside the old one, under a new inner node. The operands are those of form 11
/// without the reply word, then the key, the value and the old leaf's key.
fn fill_insert(thunk: &Thunk, body: &mut Body) -> Option<()>
    ensures fits { is_some result ≡ fits_insert thunk.now }
    ensures steps { OnSome result (body.new ≡ insert_steps thunk.now) }
{
    let mark = thunk.lock.checked_add(4)?;
    let link = u32::try_from(thunk.operands[0]).ok()?;
    let key = u32::try_from(thunk.operands[3]).ok()?;
    let value = u32::try_from(thunk.operands[4]).ok()?;
    let other = u32::try_from(thunk.operands[5]).ok()?;
    let stays = Value::Const(Word::from_bits(thunk.operands[1]).value());
    let parent = if key < other {
        inner(other, Value::Made(2), stays)
    } else {
        inner(key, stays, Value::Made(2))
    };
    body.refill(&[
        load(link, 0),
        want(0, thunk.operands[1]),
        Step::Fresh { reg: 0 },
        load(mark, 1),
        want(1, thunk.operands[2]),
        make(leaf(key, value), 2),
        make(parent, 3),
        Step::Stamp,
        store(0, Value::Made(3)),
        answer(NEW),
    ]);
    Some(())
}

/// What a removal takes out: the parent and the leaf, and the parent's links to the leaf and to its sibling.
#[derive(Clone, Copy)]
struct Removed {
    parent: u32,
    leaf: u32,
    link: Place,
    sibling: Place,
}

/// The slot to which a link's word leads.
fn slot_in(link: Word) -> Option<u32>
    ensures { result ≡ cond (nat_lt 0 (value_of link)) (Some (link_slot link)) None }
{
    link.value().checked_sub(1)
}

/// The other link of the node whose lock is at `lock`, where `link` is one of its two.
fn sibling(lock: Place, link: Place) -> Option<Place>
    requires { lock + 4 < 2 ^ 32 }
    ensures { result ≡ cond (link == lock + 2) (Some (lock + 3)) (cond (link == lock + 3) (Some (lock + 2)) None) }
{
    if link == lock + 2 {
        Some(lock + 3)
    } else if link == lock + 3 {
        Some(lock + 2)
    } else {
        None
    }
}

/// What form 13 takes out. There is no answer where a link leads to no slot, or where the link to the
/// leaf isn't one of the parent's.
fn find_removed(thunk: &Thunk) -> Option<Removed>
    ensures fits { is_some result ≡ names_removed thunk.now }
    ensures parent { IfSome result (λ r. r.parent ≡ parent_in thunk.now) }
    ensures leaf { IfSome result (λ r. r.leaf ≡ leaf_in thunk.now) }
    ensures link { IfSome result (λ r. r.link ≡ operand thunk.now 4) }
    ensures sibling { IfSome result (λ r. r.sibling ≡ sibling_of thunk.now) }
    ensures small { IfSome result (λ r. mark_of r.parent < 2 ^ 32) }
{
    let parent = slot_in(Word::from_bits(thunk.operands[1]))?;
    let leaf = slot_in(Word::from_bits(thunk.operands[5]))?;
    let lock = parent.checked_mul(5)?;
    let _mark = lock.checked_add(4)?;
    let link = u32::try_from(thunk.operands[4]).ok()?;
    let sibling = sibling(lock, link)?;
    Some(Removed {
        parent,
        leaf,
        link,
        sibling,
    })
}

/// Form 13: the parent of a leaf is marked, and the leaf's sibling takes its place. The operands are the
/// place and the word of the link from the grandparent to the parent, the grandparent's mark word, the
/// parent's lock word, the place and the word of the link from the parent to the leaf, and the parent's
/// mark word. The parent is retired before the leaf that is reached from it.
fn fill_delete(thunk: &Thunk, body: &mut Body) -> Option<()>
    ensures fits { is_some result ≡ fits_delete thunk.now }
    ensures steps { OnSome result (body.new ≡ delete_steps thunk.now) }
{
    let mark = thunk.lock.checked_add(4)?;
    let link = u32::try_from(thunk.operands[0]).ok()?;
    let removed = find_removed(thunk)?;
    body.refill(&[
        load(link, 0),
        want(0, thunk.operands[1]),
        Step::Fresh { reg: 0 },
        load(mark, 1),
        want(1, thunk.operands[2]),
        take(5 * removed.parent, thunk.operands[3]),
        load(removed.link, 2),
        want(2, thunk.operands[5]),
        load(removed.sibling, 3),
        load(5 * removed.parent + 4, 4),
        want(4, thunk.operands[6]),
        Step::Fresh { reg: 4 },
        Step::Stamp,
        store(4, Value::Const(1)),
        store(0, Value::Of(3)),
        retire(removed.parent),
        retire(removed.leaf),
        answer(GONE),
    ]);
    Some(())
}

/// Form 14: a new leaf with another value in the place of the old one, which is retired. The operands are those
/// of form 12 without the old leaf's key, then the reply word.
fn fill_replace(thunk: &Thunk, body: &mut Body) -> Option<()>
    ensures fits { is_some result ≡ fits_replace thunk.now }
    ensures steps { OnSome result (body.new ≡ replace_steps thunk.now) }
{
    let mark = thunk.lock.checked_add(4)?;
    let link = u32::try_from(thunk.operands[0]).ok()?;
    let key = u32::try_from(thunk.operands[3]).ok()?;
    let value = u32::try_from(thunk.operands[4]).ok()?;
    let old = slot_in(Word::from_bits(thunk.operands[1]))?;
    body.refill(&[
        load(link, 0),
        want(0, thunk.operands[1]),
        Step::Fresh { reg: 0 },
        load(mark, 1),
        want(1, thunk.operands[2]),
        make(leaf(key, value), 2),
        Step::Stamp,
        store(0, Value::Made(2)),
        retire(old),
        answer(thunk.operands[5]),
    ]);
    Some(())
}
