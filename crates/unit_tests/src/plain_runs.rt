// A run of an insertion in one go, over a memory with one bucket and one node slot.
use body_terms::{Outcome, Thunk, Word};
use section_body::{Memory, bucket_body, plain};
use std::alloc::{AllocError, Global};
use std::test::Fail;

/// What is left of the run of the body that adds the pair (5, 70).
fn inserted(alloc: Global) -> Result<(Outcome, usize, Memory), AllocError> {
    let thunk = Thunk {
        form: 2,
        request: 0,
        lock: 0,
        word: Word::pack(0, 1),
        operands: [1 << 32, 5, 70, 0, 0, 0, 0, 0],
    };
    let body = bucket_body(&thunk);
    if body.check().is_err() {
        return Err(AllocError);
    }
    let mut memory = Memory {
        cells: vec![in alloc; Word::pack(0, 1); 8]?,
        free: vec![in alloc; 0; 1]?,
        retired: Vec::new(alloc),
        clock: 4,
        stamps: vec![in alloc; 0; 1]?,
        replies: vec![in alloc; 0; 1]?,
        version_max: 9,
        fixed_cells: 3,
    };
    let (outcome, trail) = plain(&body, 0, &mut memory, &[]);
    Ok((outcome, trail.words.len(), memory))
}

#[test]
fn an_insertion_links_its_node(rt: HostRuntime) -> Result<(), Fail> {
    let (outcome, agreed, memory) = inserted(rt.alloc())?;
    assert!(rt; outcome == Outcome::Answered(1 << 32) && agreed == 3);
    assert!(rt; memory.free.len() == 0 && memory.clock == 5);
    let cells = [
        Word::pack(0, 1),
        Word::pack(0, 2),
        Word::pack(1, 2),
        Word::pack(0, 2),
        Word::pack(5, 2),
        Word::pack(70, 2),
        Word::pack(0, 2),
        Word::pack(0, 2),
    ];
    assert!(rt; memory.cells.as_slice() == cells.as_slice());
    Ok(())
}
