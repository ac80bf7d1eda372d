//! The bodies of the hash table's thunks.
ghost use Rattle.std.specs.Prelude.{◌≡◌, is_some, OnSome};
ghost use Rattle.bucket_bodies.specs.Table.{table_steps, set_steps, fits_set};

use body_terms::{Body, Step, Thunk, Value, Word};
use section_body::bucket_body_in;

/// The body of a hash table's thunk. It is empty where the form is none of the table's four, and where a place, slot,
/// key, value or link of the form isn't a `u32`.
pub fn table_body(thunk: &Thunk) -> Body
    ensures { result ≡ table_steps thunk.now }
{
    let mut body = Body::empty();
    table_body_in(thunk, &mut body);
    body
}

/// Puts the body of a hash table's thunk, as `table_body` gives it, in place of what a kept body has.
pub fn table_body_in(thunk: &Thunk, body: &mut Body)
    ensures { body.new ≡ table_steps thunk.now }
{
    if thunk.form != 4 {
        bucket_body_in(thunk, body);
        return;
    }
    if fill_set(thunk, body).is_none() {
        body.refill(&[]);
    }
}

/// Form 4: a new value for a key that is there. The operands are the edition word, the place of the cell in which the
/// value stands, the new value and the reply word.
fn fill_set(thunk: &Thunk, body: &mut Body) -> Option<()>
    ensures fits { is_some result ≡ fits_set thunk.now }
    ensures steps { OnSome result (body.new ≡ set_steps thunk.now) }
{
    let edition = thunk.lock.checked_add(1)?;
    let cell = u32::try_from(thunk.operands[1]).ok()?;
    let value = u32::try_from(thunk.operands[2]).ok()?;
    body.refill(&[
        Step::Load {
            place: edition,
            into: 0,
        },
        Step::Want {
            reg: 0,
            word: Word::from_bits(thunk.operands[0]),
        },
        Step::Fresh { reg: 0 },
        Step::Load {
            place: cell,
            into: 1,
        },
        Step::Fresh { reg: 1 },
        Step::Stamp,
        Step::Store {
            reg: 1,
            value: Value::Const(value),
        },
        Step::Store {
            reg: 0,
            value: Value::Const(0),
        },
        Step::Answer {
            reply: thunk.operands[3],
        },
    ]);
    Some(())
}
