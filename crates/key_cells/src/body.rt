//! The bodies over a key's cells.
ghost use Rattle.std.specs.Prelude.{◌≡◌, ◌+◌, ◌<◌, ◌≤◌, ◌++◌, [], ◌==◌, length};
ghost use Rattle.key_cells.specs.Steps.{part, read_of, store_of};
ghost use Rattle.key_cells.specs.Keyed.{cell_place, wanted, new_of, key_in, key_body};

use crate::cells::KeyCells;
use runner_parts::structure_laws::body_terms::{Body, Step, Thunk};
use shared_laws::{answer, load, store, want};

/// Puts the body of a thunk in place of the steps that are there.
pub fn fill_body<C: KeyCells>(cells: &C, thunk: &Thunk, body: &mut Body)
    ensures { body.new ≡ key_body (C.keyed cells.now) thunk.now }
{
    let key = key_in(cells, thunk);
    body.refill(&[]);
    push_read(cells, key, thunk, 0, body);
    push_read(cells, key, thunk, 1, body);
    push_read(cells, key, thunk, 2, body);
    push(body, &[Step::Stamp]);
    push_store(cells, thunk, 0, body);
    push_store(cells, thunk, 1, body);
    push_store(cells, thunk, 2, body);
    push(body, &[answer(thunk.operands[6])]);
}

/// The thunk's key, where it is one.
fn key_in<C: KeyCells>(cells: &C, thunk: &Thunk) -> u32
    ensures key { result ≡ key_in (C.keyed cells.now) thunk.now }
    ensures low { result < (C.keyed cells.now).keys }
{
    if thunk.operands[7] < u64::from(cells.keys()) {
        thunk.operands[7] as u32
    } else {
        0
    }
}

/// Adds some steps.
fn push(body: &mut Body, steps: &[Step])
    requires { length body.old + length steps.now ≤ 40 }
    ensures steps { body.new ≡ body.old ++ steps.now }
    ensures length { length body.new ≡ length body.old + length steps.now }
{
    let _ = body.steps.try_extend_from_slice(steps);
}

/// Adds the steps that load and want the cell with this number, where the key has it.
fn push_read<C: KeyCells>(cells: &C, key: u32, thunk: &Thunk, number: u8, body: &mut Body)
    requires key { key < (C.keyed cells.now).keys }
    requires number { number < 3 }
    requires room { length body.old ≤ 37 }
    ensures steps { body.new ≡ body.old ++ part (C.keyed cells.now).count number (read_of
        (cell_place (C.keyed cells.now) key) (wanted thunk.now) (new_of thunk.now) (thunk.now.form == 2) number) }
    ensures length { length body.new ≤ length body.old + 3 }
{
    if u32::from(number) < cells.count() {
        let place = cells.cell(key, u32::from(number));
        let word = thunk.operands[usize::from(number)];
        if thunk.form == 2 {
            push(
                body,
                &[
                    load(place, number),
                    want(number, word),
                    Step::Fresh { reg: number },
                ],
            );
        } else {
            push(body, &[load(place, number), want(number, word)]);
        }
    }
}

/// Adds the step that stores the new value of the cell with this number, where the key has it and the body
/// writes.
fn push_store<C: KeyCells>(cells: &C, thunk: &Thunk, number: u8, body: &mut Body)
    requires number { number < 3 }
    requires room { length body.old ≤ 39 }
    ensures steps { body.new ≡ body.old ++ part (C.keyed cells.now).count number (store_of
        (cell_place (C.keyed cells.now) 0) (wanted thunk.now) (new_of thunk.now) (thunk.now.form == 2) number) }
    ensures length { length body.new ≤ length body.old + 1 }
{
    if u32::from(number) < cells.count() && thunk.form == 2 {
        push(
            body,
            &[store(number, thunk.operands[3 + usize::from(number)])],
        );
    }
}
