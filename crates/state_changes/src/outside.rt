//! What an event outside a run makes of the part.
ghost use Rattle.std.specs.Prelude.{◌≡◌, ◌≤◌, ◌<◌, ◌^◌, OnOk};
ghost use Rattle.runner_steps.specs.table_words.specs.Limits.{IsWithinLimits};
ghost use Rattle.runner_steps.specs.AfterOutside.{with_stage, entered, collected, scanned, scan_one_after, advance_after, split_after, read_after, entry_after, private_load_after, private_store_after, published_by, hold_after, open_after};
ghost use Rattle.runner_steps.specs.runner_parts.specs.Lists.{no_reads};
ghost use Rattle.runner_steps.specs.Reads.{read_plan_after, read_clock_after, read_reply_after, read_stamped_after};
ghost use Rattle.runner_steps.specs.Board.{board_take_after, board_give_after};
ghost use Rattle.runner_steps.specs.Guards.{guard_after, load_guard_after};
ghost use Rattle.runner_steps.specs.After.{joins, outside_after};

use runner_asks::{LAST_CLOCK, reply_in};
use runner_steps::body_terms::{Place, Thunk, Word};
use runner_steps::runner_parts::epoch_core::{LAST_EPOCH, Stage};
use runner_steps::runner_parts::structure_laws::Structure;
use runner_steps::runner_parts::{EventKind, Look, LookStage, Part, Published, Reads, Run};
use runner_steps::table_words::Layout;
use runner_steps::{agreed_on, blocks_from, slot_count};
use std::alloc::{AllocError, Global};

/// Nothing has been read yet.
fn no_reads(alloc: Global) -> Reads
    ensures { result ≡ no_reads }
{
    Reads {
        walk: Vec::new(alloc),
        cells: Vec::new(alloc),
        look: None,
    }
}

/// A scan is over, and this epoch was reached.
fn collect(part: &mut Part, alloc: Global, epoch: u64) -> Result<(), AllocError>
    ensures { OnOk result (part.new ≡ collected part.old epoch) }
{
    part.nodes.collect(alloc, epoch)?;
    part.stage = Stage::Idle;
    Ok(())
}

/// After the last announcement the scan is over, unless an advance may be tried.
fn scanned(
    part: &mut Part,
    alloc: Global,
    layout: Layout,
    epoch: u64,
    next: u32,
    clear: bool,
) -> Result<(), AllocError>
    requires limits { layout.runners < 2 ^ 31 }
    requires next { next ≤ layout.runners }
    ensures { OnOk result (part.new ≡ scanned layout part.old epoch next clear) }
{
    if next == layout.runners && !(clear && epoch < LAST_EPOCH) {
        collect(part, alloc, epoch)
    } else {
        part.stage = Stage::Scanning {
            epoch,
            next: next + 1,
            clear,
        };
        Ok(())
    }
}

fn scan_one(part: &mut Part, alloc: Global, layout: Layout, found: u64) -> Result<(), AllocError>
    requires { layout.runners < 2 ^ 31 }
    ensures { OnOk result (part.new ≡ scan_one_after layout part.old part.old.stage found) }
{
    match part.stage {
        Stage::Scanning { epoch, next, clear } => {
            if next <= layout.runners {
                let still = clear && (found == 0 || found == epoch);
                scanned(part, alloc, layout, epoch, next, still)
            } else {
                Ok(())
            }
        }
        _ => Ok(()),
    }
}

fn advanced(part: &mut Part, alloc: Global) -> Result<(), AllocError>
    ensures { OnOk result (part.new ≡ advance_after part.old part.old.stage) }
{
    match part.stage {
        Stage::Scanning {
            epoch,
            next: _,
            clear: _,
        } => {
            if epoch < LAST_EPOCH {
                collect(part, alloc, epoch + 1)
            } else {
                Ok(())
            }
        }
        _ => Ok(()),
    }
}

fn split(part: &mut Part, layout: Layout)
    ensures { part.new ≡ split_after layout part.old }
{
    if part.records.splits < layout.runners {
        part.records.splits += 1;
    }
}

fn joined(part: &mut Part, worker: u32) -> Result<(), AllocError>
    ensures { OnOk result (part.new ≡ joins part.old worker) }
{
    part.records.joined.push(worker)?;
    Ok(())
}

fn read<S: Structure>(
    part: &mut Part,
    structure: &S,
    place: Place,
    found: u64,
) -> Result<(), AllocError>
    ensures { OnOk result (part.new ≡ read_after (S.meaning structure.now) place part.old found) }
{
    let lock = structure.is_lock(place);
    part.guards.see_named(lock, found);
    part.reads.walk_to(place, found)
}

/// A cell of a node slot was looked at, or a word of an own free descriptor is known, since nobody else stores there.
fn looked<S: Structure>(
    part: &mut Part,
    alloc: Global,
    structure: &S,
    layout: Layout,
    slot: u32,
    word: u32,
    found: u64,
) -> Result<(), AllocError>
    requires { IsWithinLimits layout }
    ensures { OnOk result (part.new ≡ private_load_after (S.meaning structure.now) layout slot word part.old found) }
{
    let slots = slot_count(structure, layout);
    if slot < slots {
        part.nodes.looked(alloc, layout, slot, word, found)
    } else {
        stored(part, structure, layout, slot, word, found)
    }
}

/// This number was stored into this word of an own free descriptor, or found there; of an own free block nothing is
/// kept.

fn stored<S: Structure>(
    part: &mut Part,
    structure: &S,
    layout: Layout,
    slot: u32,
    word: u32,
    number: u64,
) -> Result<(), AllocError>
    requires { IsWithinLimits layout }
    ensures { OnOk result (part.new ≡ private_store_after (S.meaning structure.now) layout slot word number part.old) }
{
    if slot < blocks_from(structure, layout) {
        let descriptor = slot.saturating_sub(slot_count(structure, layout));
        part.descriptors.store(descriptor, word, number)
    } else {
        Ok(())
    }
}

/// Where the lock was free, the section is published; otherwise the descriptor stays free.
fn held(
    part: &mut Part,
    alloc: Global,
    thunk: &Thunk,
    descriptor: u32,
    found: u64,
) -> Result<(), AllocError>
    ensures { OnOk result (part.new ≡ hold_after thunk.now descriptor part.old found) }
{
    part.reads.cell_read(thunk.lock, found)?;
    if found == thunk.word.bits() {
        part.descriptors.take(alloc, descriptor)?;
        part.guards.see_published(descriptor);
        part.published = Some(Published {
            descriptor,
            thunk: *thunk,
            walked: part.reads.walk.len(),
            known: part.records.known.len(),
        });
    }
    Ok(())
}

fn opened(part: &mut Part, alloc: Global, descriptor: u32, found: u64) -> Result<(), AllocError>
    ensures { OnOk result (part.new ≡ open_after descriptor part.old found) }
{
    let mut words = Vec::new(alloc);
    words.push(found)?;
    part.run = Some(Run {
        descriptor,
        opened: words,
        at: 0,
        word: 0,
        trail: Vec::new(alloc),
        made: None,
        worn: false,
        ended: 0,
        links: Vec::new(alloc),
        block: None,
        emptied: 0,
        won: Vec::new(alloc),
    });
    Ok(())
}

/// A read without a lock is announced.
fn planned(part: &mut Part, thunk: &Thunk)
    ensures { part.new ≡ read_plan_after thunk.now part.old }
{
    part.reads.look = Some(Look {
        thunk: *thunk,
        clock: 0,
        walked: 0,
        known: 0,
        stage: LookStage::Planned,
    });
}

/// The clock was loaded for it.
fn timed(part: &mut Part, found: u64)
    ensures { part.new ≡ read_clock_after part.old found }
{
    if let Some(look) = part.reads.look {
        part.reads.look = Some(Look {
            thunk: look.thunk,
            clock: found,
            walked: part.reads.walk.len(),
            known: part.records.known.len(),
            stage: LookStage::Looked,
        });
    }
}

/// The read's reply word was written, or stood there: what it holds afterwards is known.
#[tactic(auto, using(crate::proofs::Learning::learned_is))]
fn replied<S: Structure>(part: &mut Part, structure: &S, found: u64) -> Result<(), AllocError>
    ensures { OnOk result (part.new ≡ read_reply_after (S.meaning structure.now) part.old found) }
{
    let Some(look) = part.reads.look else {
        return Ok(());
    };
    part.reads.look = Some(Look {
        stage: LookStage::Replied,
        ..look
    });
    let body = structure.body(&look.thunk);
    let reply = agreed_on(found, reply_in(&body));
    part.records.learn(look.thunk.request, true, reply)
}

/// The read's stamp word was written, or stood there: what it holds afterwards is known.
#[tactic(auto, using(crate::proofs::Learning::learned_is))]
fn stamped(part: &mut Part, found: u64) -> Result<(), AllocError>
    ensures { OnOk result (part.new ≡ read_stamped_after part.old found) }
{
    let Some(look) = part.reads.look else {
        return Ok(());
    };
    part.reads.look = Some(Look {
        stage: LookStage::Stamped,
        ..look
    });
    if look.clock >= LAST_CLOCK {
        return Ok(());
    }
    let stamp = agreed_on(found, 2 * look.clock + 1);
    part.records.learn(look.thunk.request, false, stamp)
}

/// The guard word names this from now on, and nothing has been seen of it.
fn guarded(part: &mut Part, descriptor: Option<u32>)
    ensures { part.new ≡ guard_after descriptor part.old }
{
    part.guards.named = descriptor;
    part.guards.sure = false;
}

/// One more guard word was read. After the last one the sweep is over, and the descriptors that none of them names go
/// to the free list.
fn guard_looked(
    part: &mut Part,
    alloc: Global,
    layout: Layout,
    found: u64,
) -> Result<(), AllocError>
    ensures { OnOk result (part.new ≡ load_guard_after layout part.old found) }
{
    let is_last = part.guards.looked.len() == layout.runners as usize;
    part.guards.looked.push(found)?;
    if is_last {
        part.descriptors.sweep(alloc, &part.guards.looked)?;
        part.guards.looked = Vec::new(alloc);
    }
    Ok(())
}

/// Where the exchange won, the slot that the link names is in the own free list.
fn drawn(part: &mut Part, link: u64, found: u64) -> Result<(), AllocError>
    ensures { OnOk result (part.new ≡ board_take_after link part.old found) }
{
    if found == link {
        part.nodes
            .draw(Word::from_bits(link.saturating_sub(1)).value())
    } else {
        Ok(())
    }
}

/// Where the exchange won, the slot has left the own free list.
fn given(
    part: &mut Part,
    alloc: Global,
    layout: Layout,
    slot: u32,
    found: u64,
) -> Result<(), AllocError>
    ensures { OnOk result (part.new ≡ board_give_after layout slot part.old found) }
{
    if found == 0 {
        part.nodes.give(alloc, slot)?;
        let above = layout.nodes as usize <= part.nodes.free.len();
        part.records.gave_above = part.records.gave_above && above;
    }
    Ok(())
}

/// The part after an event outside a run, which found this word.
pub fn outside_after<S: Structure>(
    part: &mut Part,
    alloc: Global,
    structure: &S,
    layout: Layout,
    kind: &EventKind,
    found: u64,
) -> Result<(), AllocError>
    requires { IsWithinLimits layout }
    ensures { OnOk result (part.new ≡ outside_after (S.meaning structure.now) layout kind.now part.old found) }
{
    match kind {
        EventKind::EnterLoad => part.stage = Stage::Loaded(found),
        EventKind::Announce => part.stage = Stage::Announced,
        EventKind::EnterAgain => {
            part.stage = Stage::Entered(found);
            part.guards.looked = Vec::new(alloc);
            part.reads = no_reads(alloc);
        }
        EventKind::Idle => part.stage = Stage::Idle,
        EventKind::ScanEpoch => {
            part.stage = Stage::Scanning {
                epoch: found,
                next: 0,
                clear: true,
            }
        }
        EventKind::ScanOne(_) => return scan_one(part, alloc, layout, found),
        EventKind::Advance => return advanced(part, alloc),
        EventKind::Split => split(part, layout),
        EventKind::Join(worker) => return joined(part, *worker),
        EventKind::LoadCell(Some(place)) => return read(part, structure, *place, found),
        EventKind::LoadEntry { request, reply } => return part
            .records
            .learn(*request, *reply, found),
        EventKind::PrivateLoad { slot, word } => {
            return looked(part, alloc, structure, layout, *slot, *word, found);
        }
        EventKind::PrivateStore { slot, word, number } => {
            return stored(part, structure, layout, *slot, *word, *number);
        }
        EventKind::Hold { thunk, descriptor } => return held(
            part,
            alloc,
            thunk,
            *descriptor,
            found,
        ),
        EventKind::LoadThunk(Some(descriptor)) => return opened(part, alloc, *descriptor, found),
        EventKind::ReadPlan(thunk) => planned(part, thunk),
        EventKind::ReadClock => timed(part, found),
        EventKind::ReadReply => return replied(part, structure, found),
        EventKind::ReadStamp => return stamped(part, found),
        EventKind::Guard(descriptor) => guarded(part, *descriptor),
        EventKind::LoadGuard(_) => return guard_looked(part, alloc, layout, found),
        EventKind::BoardTake(_, link) => return drawn(part, *link, found),
        EventKind::BoardGive(_, slot) => return given(part, alloc, layout, *slot, found),
        _ => {}
    }
    Ok(())
}
