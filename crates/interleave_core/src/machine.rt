//! The pure machine.
ghost use Rattle.std.specs.Prelude.{◌≡◌, ◌≤◌, ◌<◌, ◌+◌, ◌↔◌, ℕ, Some, None, Err, OnOk, OnErr, IfOk, length, vec_len, slice_get, slice_set, ◌++◌, ◌==◌};
ghost use Rattle.machine_states.specs.map_history.specs.Requests.{AreInOrder};
ghost use Rattle.machine_states.specs.table_words.specs.Limits.{IsWithinLimits};
ghost use Rattle.machine_states.specs.table_words.specs.Places.{size, address, board_words, Fits};
ghost use Rattle.machine_states.specs.runner_steps.specs.After.{after, knows_also};
ghost use Rattle.machine_states.specs.World.{happens, left_by, seat_of, settled_part, put_part};
ghost use Rattle.std.specs.List.{list_any};
ghost use Rattle.machine_states.specs.runner_parts.specs.State.{PartState};
ghost use Rattle.machine_states.specs.runner_parts.specs.Tests.{has};
ghost use Rattle.interleave_core.specs.Parts.{is_listed, is_on_board, owns};
ghost use Rattle.machine_states.specs.First.{IsFirst};
ghost use Rattle.machine_states.specs.Reached.{Reached};
ghost use Rattle.interleave_core.specs.Enabled.{NamesEnabled};
ghost use Rattle.interleave_core.specs.Machine.{IsSameTable, HasWord, is_live, word_of};
ghost use Rattle.machine_states.specs.table_words.specs.declared.spot.Spot.TheVariants.{Epoch, Announcement, Cell};
ghost use Rattle.machine_states.specs.body_terms.specs.block_words.specs.Blocks.{log_in};
ghost use Rattle.interleave_core.specs.declared.machine.StepError.TheVariants.{NotEnabled};

use crate::first::first_parts;
use crate::log_words::log_word;
use enabled_kinds::enabled;
use enabled_kinds::runner_asks::asks;
use machine_states::body_terms::{Place, Word};
use machine_states::first_words;
use machine_states::map_history::Request;
use machine_states::runner_parts::{Event, EventKind, Nodes, Part, Records, Retired};
use machine_states::runner_steps::sizes_for;
use machine_states::structure_laws::Structure;
use machine_states::table_words::{Access, BOARD_WORDS, Layout, Sizes, Spot, word_at};
use state_changes::{after, part_copy};
use std::alloc::{AllocError, Global};
use std::marker::Model;

/// Why a step wasn't made; the state is then as it was.
#[derive(Clone, Copy, Debug, PartialEq, Eq)]
pub enum StepError {
    /// The runner may not make this event next. Bit `j` of `enabled` is set where it may make a step of the
    /// kind with number `j`.
    NotEnabled { enabled: u64 },
    /// There is no memory for the runner's lists.
    Memory,
}

/// The words of the table and what each runner is at and keeps, between two steps.
#[derive(Drop)]
pub struct Machine<S: Structure> {
    alloc: Global,
    structure: S,
    layout: Layout,
    requests: Vec<Request>,
    words: Vec<u64>,
    parts: Vec<Part>,
}

impl<S: Structure> Model for Machine<S> {
    ghost use Rattle.interleave_core.specs.Machine.{MachineState, HasShape};

    ghost Value = { MachineState S };

    ghost view = { λ a. record {
      structure = a.structure;
      layout = a.layout;
      requests = a.requests.items;
      world = record { words = a.words.items; parts = a.parts.items };
    } };

    ghost invariant = { λ a. HasShape (S.meaning a.structure) a.layout a.requests.items
        (record { words = a.words.items; parts = a.parts.items }) };
}

/// Where a runner's part stands: the keeper's first, then the workers' in order.
fn seat_of(layout: Layout, runner: u32) -> usize
    ensures { result ≡ seat_of layout runner }
{
    if runner == layout.runners {
        0
    } else {
        runner as usize + 1
    }
}

/// The stepping runner's part after the event.
fn part_after<S: Structure>(
    part: &Part,
    alloc: Global,
    structure: &S,
    layout: Layout,
    event: &Event,
    spot: Spot,
    access: Access,
    found: u64,
) -> Result<Part, AllocError>
    requires { IsWithinLimits layout }
    ensures { IfOk result (λ x.
        x ≡ after (S.meaning structure.now) layout event.now.runner event.now.kind spot access part.now found) }
{
    let mut next = part_copy(alloc, part)?;
    after(
        &mut next,
        alloc,
        structure,
        layout,
        event.runner,
        &event.kind,
        spot,
        access,
        found,
    )?;
    Ok(next)
}

/// What is known is also what the other knew.
fn learn_all(records: &mut Records, more: &Records) -> Result<(), AllocError>
    ensures { OnOk result (records.new ≡ record records.old { known = records.old.known ++ more.now.known }) }
{
    records.known.extend_from_slice(&more.known)?;
    Ok(())
}

/// The keeper's part after it joined this worker: it knows also what the worker knew.
fn knowing(keeper: Part, worker: &Part) -> Result<Part, AllocError>
    ensures { IfOk result (λ x. x ≡ knows_also keeper worker.now) }
{
    let mut known = keeper;
    learn_all(&mut known.records, &worker.records)?;
    Ok(known)
}

/// The stepping runner's part as it stands at the end of the event: after a join the keeper knows also what
/// the worker knew.
fn settled_part(kind: &EventKind, next: Part, parts: &[Part]) -> Result<Part, AllocError>
    ensures { IfOk result (λ x. x ≡ settled_part kind.now next parts.now) }
{
    match kind {
        EventKind::Join(worker) => {
            let seat = *worker as usize + 1;
            if seat < parts.len() {
                knowing(next, &parts[seat])
            } else {
                Ok(next)
            }
        }
        _ => Ok(next),
    }
}

/// The stepping runner's part in its place.
fn set_part(parts: &mut Vec<Part>, seat: usize, next: Part)
    requires { seat < vec_len parts.old }
    ensures { parts.new.items ≡ slice_set parts.old.items seat next }
{
    parts[seat] = next;
}

/// The worker in this place, if there is one, makes no further step.
fn leave_at(parts: &mut Vec<Part>, place: usize)
    ensures { parts.new.items ≡ left_by parts.old.items place (slice_get parts.old.items place) }
{
    if place < parts.len() {
        parts[place].gone = true;
    }
}

/// The parts after an event, with the stepping runner's part in its place; a worker that was joined makes
/// no further step.
fn put_part(parts: &mut Vec<Part>, kind: &EventKind, seat: usize, next: Part)
    requires { seat < vec_len parts.old }
    ensures { parts.new.items ≡ put_part parts.old.items kind.now seat next }
{
    set_part(parts, seat, next);
    if let EventKind::Join(worker) = kind {
        leave_at(parts, *worker as usize + 1);
    }
}

/// Puts a number at this spot, and changes the word at no other.
#[tactic(auto, using(machine_states::proofs::Steps::within))]
fn put_word(words: &mut Vec<u64>, sizes: Sizes, spot: Spot, number: u64)
    requires room { size sizes ≤ vec_len words.old }
    requires spot { Fits sizes spot }
    ensures { words.new.items ≡ slice_set words.old.items (address sizes spot) number }
{
    words[spot.address(sizes)] = number;
}

impl<S: Structure> Machine<S> {
    /// One event. At an error the state is as it was.
    ///
    /// `NotEnabled` comes exactly where the runner may not make this event next, by its kind or by its
    /// argument, and names the kinds of step that it may make. `Memory` is want of memory for the runner's
    /// lists.
    pub fn step(&mut self, event: Event) -> Result<(), StepError>
        ensures event { OnOk result (
            happens (S.meaning self.old.structure) self.old.layout self.old.requests self.old.world event
            ≡ Some self.new.world) }
        ensures refused { (enabled : ℕ) → result ≡ Err (NotEnabled enabled)
            → happens (S.meaning self.old.structure) self.old.layout self.old.requests self.old.world event ≡ None }
        ensures refuses { happens (S.meaning self.old.structure) self.old.layout self.old.requests self.old.world event
            ≡ None
            → (enabled : ℕ) × (result ≡ Err (NotEnabled enabled)) }
        ensures kinds { (enabled : ℕ) → result ≡ Err (NotEnabled enabled)
            → NamesEnabled (S.meaning self.old.structure) self.old.layout self.old.requests self.old.world
            event.runner enabled }
        ensures reached { OnOk result (
            Reached (S.meaning self.old.structure) self.old.layout self.old.requests self.old.world
            → Reached (S.meaning self.old.structure) self.old.layout self.old.requests self.new.world) }
        ensures err { OnErr result (self.new ≡ self.old) }
        ensures fixed { IsSameTable self.old self.new }
    {
        let seat = seat_of(self.layout, event.runner);
        if seat >= self.parts.len() {
            return Err(StepError::NotEnabled { enabled: 0 });
        }
        let sizes = sizes_for(&self.structure, self.layout, &self.requests);
        let part = &self.parts[seat];
        let Some((spot, access)) = asks(
            part,
            &self.structure,
            self.layout,
            &self.requests,
            event.runner,
            &event.kind,
        ) else {
            let kinds = enabled(
                part,
                &self.structure,
                self.layout,
                &self.requests,
                event.runner,
            );
            return Err(StepError::NotEnabled { enabled: kinds });
        };
        let found = word_at(&self.words, sizes, spot);
        let Ok(next) = part_after(
            part,
            self.alloc,
            &self.structure,
            self.layout,
            &event,
            spot,
            access,
            found,
        ) else {
            return Err(StepError::Memory);
        };
        let Ok(last) = settled_part(&event.kind, next, &self.parts) else {
            return Err(StepError::Memory);
        };
        put_part(&mut self.parts, &event.kind, seat, last);
        put_word(&mut self.words, sizes, spot, access.written(found));
        Ok(())
    }

    /// The first state of the machine, which keeps the list of requests. These are numbered from 0 in
    /// order, in traces that never fall along the list and are below 64, with keys up to 4,294,967,293.
    pub fn new(
        alloc: Global,
        structure: S,
        layout: Layout,
        requests: &[Request],
    ) -> Result<Machine<S>, AllocError>
        requires limits { IsWithinLimits layout }
        requires ordered { AreInOrder requests.now 64 }
        ensures first { IfOk result (λ x. IsFirst (S.meaning structure) layout requests.now x.world) }
        ensures reached { IfOk result (λ x. Reached (S.meaning structure) layout requests.now x.world) }
        ensures structure { IfOk result (λ x. x.structure ≡ structure) }
        ensures layout { IfOk result (λ x. x.layout ≡ layout) }
        ensures requests { IfOk result (λ x. x.requests ≡ requests.now) }
    {
        let sizes = sizes_for(&structure, layout, requests);
        let words = first_words(alloc, &structure, sizes)?;
        let parts = first_parts(alloc, &structure, layout)?;
        let requests = Vec::from_slice(alloc, requests)?;
        Ok(Machine {
            alloc,
            structure,
            layout,
            requests,
            words,
            parts,
        })
    }

    /// The epoch.
    pub fn epoch(&self) -> u64
        ensures { result ≡ word_of (S.meaning self.now.structure) self.now Epoch }
    {
        self.word(Spot::Epoch)
    }

    /// The announcement of the runner with this number.
    pub fn announcement(&self, runner: u32) -> u64
        requires { runner ≤ self.now.layout.runners }
        ensures { result ≡ word_of (S.meaning self.now.structure) self.now (Announcement runner) }
    {
        self.word(Spot::Announcement(runner))
    }

    /// The word of this cell.
    pub fn cell(&self, place: Place) -> Word
        requires { HasWord (S.meaning self.now.structure) self.now (Cell place) }
        ensures { result ≡ word_of (S.meaning self.now.structure) self.now (Cell place) }
    {
        Word::from_bits(self.word(Spot::Cell(place)))
    }

    /// This word of a descriptor's log: in the part that the descriptor has, or in the block to which its links lead; 0
    /// where no part that has it is linked.
    pub fn log_word(&self, descriptor: u32, index: u32) -> u64
        ensures { result ≡ log_in (word_of (S.meaning self.now.structure) self.now) descriptor index }
    {
        let sizes = sizes_for(&self.structure, self.layout, &self.requests);
        log_word(&self.words, sizes, descriptor, index)
    }

    /// The word at this spot.
    pub fn word(&self, spot: Spot) -> u64
        requires { HasWord (S.meaning self.now.structure) self.now spot }
        ensures { result ≡ word_of (S.meaning self.now.structure) self.now spot }
    {
        let sizes = sizes_for(&self.structure, self.layout, &self.requests);
        word_at(&self.words, sizes, spot)
    }

    /// What the runner with this number is at and keeps.
    pub fn part(&self, runner: u32) -> &Part
        requires { runner ≤ self.now.layout.runners }
        ensures { slice_get self.now.world.parts (seat_of self.now.layout runner) ≡ Some result.now }
    {
        &self.parts[seat_of(self.layout, runner)]
    }

    /// Whether this node slot is in that runner's free list.
    pub fn is_free(&self, runner: u32, slot: u32) -> bool
        requires { runner ≤ self.now.layout.runners }
        ensures { (p : PartState) → slice_get self.now.world.parts (seat_of self.now.layout runner) ≡ Some p
            → result ≡ has p.nodes.free slot }
    {
        has_free(self.part(runner), slot)
    }

    /// Whether this node slot is live: in no runner's lists, and on no word of the board.
    pub fn is_live(&self, slot: u32) -> bool
        ensures { result ≡ is_live (S.meaning self.now.structure) self.now slot }
    {
        let sizes = sizes_for(&self.structure, self.layout, &self.requests);
        !some_owns(&self.parts, slot) && !is_on_board(&self.words, sizes, slot)
    }
}

/// Whether the list has this number.
fn has(numbers: &[u32], number: u32) -> bool
    ensures { result ≡ has numbers.now number }
{
    numbers.iter().any(|x| *x == number)
}

/// Whether the slot is in limbo.
fn is_retired(limbo: &[Retired], slot: u32) -> bool
    ensures { result ≡ list_any (λ x. x.slot == slot) limbo.now }
{
    limbo.iter().any(|x| x.slot == slot)
}

/// Whether the slot is in the runner's free list.
fn has_free(part: &Part, slot: u32) -> bool
    ensures { result ≡ has part.now.nodes.free slot }
{
    has(&part.nodes.free, slot)
}

/// Whether the slot is in one of these lists.
fn is_listed(nodes: &Nodes, slot: u32) -> bool
    ensures { result ≡ is_listed nodes.now slot }
{
    has(&nodes.free, slot)
        || has(&nodes.hand, slot)
        || has(&nodes.worn, slot)
        || is_retired(&nodes.limbo, slot)
}

/// Whether the slot is in one of the runner's lists.
fn owns(part: &Part, slot: u32) -> bool
    ensures { result ≡ owns part.now slot }
{
    is_listed(&part.nodes, slot)
}

/// Whether the slot is in one of these runners' lists.
fn some_owns(parts: &[Part], slot: u32) -> bool
    ensures { result ≡ list_any (λ p. owns p slot) parts.now }
{
    for part in parts {
        if owns(part, slot) {
            return true;
        }
    }
    false
}

/// Whether a word of the board names this slot.
fn is_on_board(words: &[u64], sizes: Sizes, slot: u32) -> bool
    requires room { size sizes ≤ length words.now }
    ensures { result ≡ is_on_board sizes words.now slot board_words }
{
    let mut on = false;
    for word in 0..BOARD_WORDS as u32 {
        on = on || word_at(words, sizes, Spot::Board(word)) == slot as u64 + 1;
    }
    on
}
