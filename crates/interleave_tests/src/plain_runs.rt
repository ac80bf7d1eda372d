//! The plain runs of the test structure's sections.
ghost use Rattle.std.specs.Prelude.{◌≡◌, ◌≢◌};
ghost use Rattle.machine_states.specs.body_terms.specs.Word.{value_of};
ghost use Rattle.machine_states.specs.structure_laws.specs.Tray.{body_of, Number, Link, Unlink};

use interleave_core::{Structure, Tray};
use machine_states::body_terms::{Body, Outcome, Thunk, Trail, Word};
use section_body::{Memory, plain};
use std::alloc::{AllocError, Global};

/// A run in one go: how it ended, its trail, and what it left at the places 1 and 2.
#[derive(Drop)]
pub struct PlainRun {
    pub outcome: Outcome,
    pub trail: Trail,
    pub number: Word,
    pub link: Word,
}

/// The body of this form, behind the lock at place 0.
fn tray_body(form: u64, operand: u64) -> Body
    ensures number { form ≡ 101 → result ≡ body_of Number operand }
    ensures link { form ≡ 102 → value_of operand ≡ 0 → result ≡ body_of Link operand }
    ensures unlink { form ≡ 103 → value_of operand ≢ 0 → result ≡ body_of Unlink operand }
{
    Tray.body(&Thunk {
        form,
        request: 0,
        lock: 0,
        word: Word::pack(0, 1),
        operands: [operand, 0, 0, 0, 0, 0, 0, 0],
    })
}

/// Runs the body in one go over these words at the places 1 and 2, with the node slot 0 free.
macro_rules! in_one_go {
    ($alloc:ident, $body:ident, $number:ident, $link:ident) => {{
        if $body.check().is_err() {
            return Err(AllocError);
        }
        let first = Word::pack(0, 1);
        let cells = [first, $number, $link, first, first, first, first, first];
        let mut memory = Memory {
            cells: Vec::from_slice($alloc, &cells)?,
            free: vec![in $alloc; 0; 1]?,
            retired: Vec::with_capacity($alloc, 1)?,
            clock: 0,
            stamps: vec![in $alloc; 0; 1]?,
            replies: vec![in $alloc; 0; 1]?,
            version_max: u32::MAX,
            fixed_cells: 3,
        };
        let (outcome, trail) = plain(&$body, 0, &mut memory, &[]);
        Ok(PlainRun {
            outcome,
            trail,
            number: memory.cells[1],
            link: memory.cells[2],
        })
    }};
}

/// The section that stores a number.
fn number_run(
    alloc: Global,
    operand: u64,
    number: Word,
    link: Word,
) -> Result<PlainRun, AllocError> {
    let body = tray_body(101, operand);
    in_one_go!(alloc, body, number, link)
}

/// The section that makes a node behind the empty link.
fn link_run(alloc: Global, operand: u64, number: Word, link: Word) -> Result<PlainRun, AllocError>
    requires { value_of operand ≡ 0 }
{
    let body = tray_body(102, operand);
    in_one_go!(alloc, body, number, link)
}

/// The section that takes the linked node out.
fn unlink_run(alloc: Global, operand: u64, number: Word, link: Word) -> Result<PlainRun, AllocError>
    requires { value_of operand ≢ 0 }
{
    let body = tray_body(103, operand);
    in_one_go!(alloc, body, number, link)
}

/// The section that stores a number (form 101), or else makes a node behind the empty link or takes
/// the linked one out.
pub fn plain_run(
    alloc: Global,
    form: u64,
    operand: u64,
    number: Word,
    link: Word,
) -> Result<PlainRun, AllocError> {
    if form == 101 {
        number_run(alloc, operand, number, link)
    } else if Word::from_bits(operand).value() == 0 {
        link_run(alloc, operand, number, link)
    } else {
        unlink_run(alloc, operand, number, link)
    }
}
