//! A structure for tests: a lock, a number and a link.
ghost use Rattle.std.specs.Prelude.{◌≡◌, ◌<◌, refl, false, length};
ghost use Rattle.machine_states.specs.structure_laws.specs.Tray.{tray, body_of, Number, Link, Unlink, Other};
ghost use Rattle.machine_states.specs.body_terms.specs.Word.{value_of};
ghost use Rattle.machine_states.specs.structure_laws.proofs.TrayLaws.{tray_laws};

use machine_states::body_terms::{Body, Init, Place, Step, Thunk, Value, Word};
use machine_states::map_history::Op;
use machine_states::structure_laws::{Structure, tray_links};
use machine_states::table_words::Layout;

/// A structure for tests: place 0 is a lock, place 1 a number and place 2 a link. It serves no map operation.
#[derive(Clone, Copy, Debug, PartialEq, Eq)]
pub struct Tray;

/// What a number's form does: it stores the number at place 1.
fn fill_number(operand: Word, body: &mut Body)
    ensures { body.new ≡ body_of Number operand }
{
    body.refill(&[
        Step::Load { place: 1, into: 0 },
        Step::Fresh { reg: 0 },
        Step::Stamp,
        Step::Store {
            reg: 0,
            value: Value::Const(operand.value()),
        },
        Step::Answer { reply: 4294967296 },
    ]);
}

/// It makes a node behind the empty link.
fn fill_link(operand: Word, body: &mut Body)
    ensures { body.new ≡ body_of Link operand }
{
    body.refill(&[
        Step::Load { place: 2, into: 0 },
        Step::Want {
            reg: 0,
            word: operand,
        },
        Step::Fresh { reg: 0 },
        Step::Make {
            init: Init {
                cells: [Value::Const(0); 5],
            },
            into: 1,
        },
        Step::Stamp,
        Step::Store {
            reg: 0,
            value: Value::Made(1),
        },
        Step::Answer { reply: 4294967296 },
    ]);
}

/// It takes the linked node out.
fn fill_unlink(operand: Word, body: &mut Body)
    requires { 0 < value_of operand }
    ensures { body.new ≡ body_of Unlink operand }
{
    body.refill(&[
        Step::Load { place: 2, into: 0 },
        Step::Want {
            reg: 0,
            word: operand,
        },
        Step::Fresh { reg: 0 },
        Step::Stamp,
        Step::Store {
            reg: 0,
            value: Value::Const(0),
        },
        Step::Retire {
            slot: operand.value() - 1,
        },
        Step::Answer { reply: 17179869184 },
    ]);
}

/// It does nothing.
fn fill_other(operand: Word, body: &mut Body)
    ensures { body.new ≡ body_of Other operand }
{
    let _ = operand;
    body.refill(&[Step::Stamp, Step::Answer { reply: 4294967296 }]);
}

impl Structure for Tray {
    ghost meaning = { λ _. tray };

    ghost MAP = { false };

    const MAP: bool = false;

    fn fixed_cells(&self) -> u32 {
        3
    }

    fn fixed_slots(&self) -> u32 {
        0
    }

    fn first_value(&self, _place: Place) -> u32 {
        0
    }

    fn is_lock(&self, place: Place) -> bool {
        place == 0
    }

    fn body(&self, thunk: &Thunk) -> Body {
        let mut body = Body::empty();
        self.body_in(thunk, &mut body);
        body
    }

    fn body_in(&self, thunk: &Thunk, body: &mut Body) {
        let operand = Word::from_bits(thunk.operands[0]);
        if thunk.lock == 0 && thunk.form == 101 {
            fill_number(operand, body);
        } else if thunk.lock == 0 && thunk.form == 102 && operand.value() == 0 {
            fill_link(operand, body);
        } else if thunk.lock == 0 && thunk.form == 103 && operand.value() != 0 {
            fill_unlink(operand, body);
        } else {
            fill_other(operand, body);
        }
    }

    fn reaches(&self, readings: &[(Place, Word)], slot: u32) -> bool {
        tray_links(readings, slot)
    }

    fn fits(&self, _layout: Layout, _op: Op, _readings: &[(Place, Word)], thunk: &Thunk) -> bool {
        thunk.lock == 0
    }

    ghost serves = { λ _. refl };

    ghost laws = { λ _. tray_laws };
}
