//! A run's section, and what comes next in it.
ghost use Rattle.std.specs.Prelude.{◌&&◌, ◌++◌, ◌∷◌, [], take, slice_index_or, is_none, ◌≡◌, ◌<◌, ◌≤◌, ◌%◌, ◌^◌, ◌==◌, length, slice_index};
ghost use Rattle.runner_steps.specs.body_terms.specs.Word.{held_word};
ghost use Rattle.runner_steps.specs.body_terms.specs.Line.{line, micro_at, is_check, is_end, is_event, ending, releases, next_micro};
ghost use Rattle.runner_steps.specs.body_terms.specs.Run.{leaves, settled, refusal, is_takable, source_value, written_once};
ghost use Rattle.runner_steps.specs.body_terms.specs.declared.micro.Micro.TheVariants.{End, Release};
ghost use Rattle.runner_steps.specs.Sections.{thunk_of, setting_of, lock_of, reply_in, outcome_or};

use runner_steps::body_terms::{Body, Micro, Outcome, Place, Source, Step, Thunk, Word, micro_at};
use runner_steps::table_words::Layout;

/// The thunk that these words hold.
pub fn thunk_of(words: &[u64]) -> Thunk
    requires { 12 ≤ length words.now }
    ensures { result ≡ thunk_of words.now }
{
    Thunk {
        form: words[0],
        request: low_half(words[1]),
        lock: low_half(words[2]),
        word: Word::from_bits(words[3]),
        operands: [
            words[4], words[5], words[6], words[7], words[8], words[9], words[10], words[11],
        ],
    }
}

/// The low 32 bits of a number.
fn low_half(number: u64) -> u32
    ensures { result ≡ number % 2 ^ 32 }
{
    (number % (1 << 32)) as u32
}

/// The agreed word at this place of the log, and 0 past the trail.
pub fn agreed(trail: &[u64], log: u32) -> u64
    ensures { result ≡ slice_index trail.now log }
{
    trail.get(log as usize).copied().unwrap_or(0)
}

/// How a Take ends that read this word and can't go on with it.
fn refusal(layout: Layout, descriptor: u32, place: Place, expected: Word, read: u64) -> Outcome
    requires { layout.version_max < 2 ^ 32 }
    ensures { result ≡ refusal (setting_of layout descriptor) place expected read }
{
    let read = Word::from_bits(read);
    if read.value() != 0 {
        Outcome::Busy(place, read)
    } else if read.version() as u64 + 2 > layout.version_max as u64 {
        Outcome::Spent(place, read)
    } else {
        Outcome::Stale {
            place,
            expected,
            read,
        }
    }
}

/// Whether a Take may be made with this word.
fn is_takable(layout: Layout, descriptor: u32, expected: Word, read: u64) -> bool
    requires { layout.version_max < 2 ^ 32 }
    ensures { result ≡ is_takable (setting_of layout descriptor) expected read }
{
    let word = Word::from_bits(read);
    let left = word.version() as u64 + 2 <= layout.version_max as u64;
    read == expected.bits() && word.value() == 0 && left
}

/// Whether this is the held word of a lock that was free with the word `free`.
fn is_held(descriptor: u32, free: Word, word: u64) -> bool
    ensures { result ≡ (word == held_word descriptor free) }
{
    let read = Word::from_bits(word);
    let value = descriptor as u64 + 1;
    let version = free.version() as u64 + 1 + (value >> 32);
    read.version() as u64 == version && read.value() as u64 == value % (1 << 32)
}

/// How a run leaves at this check, by the words agreed so far; None where it goes on, and at a step that is no check.
pub fn leaves(layout: Layout, descriptor: u32, trail: &[u64], micro: Micro) -> Option<Outcome>
    requires { layout.version_max < 2 ^ 32 }
    ensures { result ≡ leaves (setting_of layout descriptor) trail.now micro }
{
    match micro {
        Micro::CheckWord { place, log, word } => {
            let read = agreed(trail, log);
            if read == word.bits() {
                None
            } else {
                Some(Outcome::Stale {
                    place,
                    expected: word,
                    read: Word::from_bits(read),
                })
            }
        }
        Micro::CheckFresh { place, log } => {
            let read = Word::from_bits(agreed(trail, log));
            if read.version() == layout.version_max {
                Some(Outcome::Spent(place, read))
            } else {
                None
            }
        }
        Micro::CheckFree { place, log, word } => {
            let read = agreed(trail, log);
            if is_takable(layout, descriptor, word, read) {
                None
            } else {
                Some(refusal(layout, descriptor, place, word, read))
            }
        }
        Micro::CheckHeld { place, log, word } => {
            let read = agreed(trail, log);
            if is_held(descriptor, word, read) {
                None
            } else {
                Some(refusal(layout, descriptor, place, word, read))
            }
        }
        _ => None,
    }
}

/// Whether this is a check.
fn is_check(micro: &Micro) -> bool
    ensures { result ≡ is_check micro.now }
{
    matches!(
        micro,
        Micro::CheckWord { .. }
            | Micro::CheckFresh { .. }
            | Micro::CheckFree { .. }
            | Micro::CheckHeld { .. }
    )
}

/// Whether the line is over here.
pub fn is_end(micro: &Micro) -> bool
    ensures { result ≡ is_end micro.now }
{
    matches!(micro, Micro::End)
}

/// Whether this is a step on the shared words.
fn is_event(micro: &Micro) -> bool
    ensures { result ≡ is_event micro.now }
{
    !is_check(micro) && !is_end(micro)
}

/// The most atomic steps that a line has; no run comes to this place of its line.
pub const LINE_LIMIT: u32 = 440;

/// Whether the run goes on behind the step at this place without a step on the shared words.
fn passes(layout: Layout, descriptor: u32, trail: &[u64], micro: &Micro) -> bool
    requires { layout.version_max < 2 ^ 32 }
    ensures { result ≡ (is_check micro.now && is_none (leaves (setting_of layout descriptor) trail.now micro.now)) }
{
    is_check(micro) && leaves(layout, descriptor, trail, *micro).is_none()
}

/// Where a run rests that came to this place of the line: behind the checks that pass.
pub fn settled(body: &Body, layout: Layout, descriptor: u32, trail: &[u64], from: u32) -> u32
    requires { layout.version_max < 2 ^ 32 }
    ensures { result ≡ settled (setting_of layout descriptor) trail.now (line body.now) from }
{
    let _steps = body.steps.as_slice();
    let mut at = from;
    while at < LINE_LIMIT {
        if !passes(layout, descriptor, trail, &micro_at(body, at)) {
            return at;
        }
        at += 1;
    }
    at
}

/// The nested lock that this step found to be held, with the free word that it had before.
fn lock_of(micro: Micro) -> Option<(Place, Word)>
    ensures { result ≡ lock_of micro }
{
    match micro {
        Micro::CheckHeld {
            place,
            log: _,
            word,
        } => Some((place, word)),
        _ => None,
    }
}

/// The release with this number of a run that came to this place of the line: of the nested locks in the
/// order in which they were taken, and then of the outer one.
fn release_at(body: &Body, at: u32, number: u32, lock: Place, word: Word) -> Micro
    ensures { result ≡ slice_index_or (releases (take at (line body.now)) ++ Release lock word ∷ []) number End }
{
    let mut left = number;
    for i in 0..at {
        match lock_of(micro_at(body, i)) {
            None => {}
            Some(held) => {
                if left == 0 {
                    return Micro::Release {
                        place: held.0,
                        word: held.1,
                    };
                }
                left -= 1;
            }
        }
    }
    if left == 0 {
        Micro::Release { place: lock, word }
    } else {
        Micro::End
    }
}

/// What a run does next on the shared words that stands at this place of the line and has made these many
/// exchanges of its end.
pub fn next_micro(body: &Body, at: u32, ended: u32, lock: Place, word: Word) -> Micro
    ensures { result ≡ next_micro (line body.now) at ended lock word }
{
    let micro = micro_at(body, at);
    if is_event(&micro) {
        return micro;
    }
    if ended == 0 {
        return Micro::SetDone;
    }
    release_at(body, at, ended - 1, lock, word)
}

/// The value that a store writes.
pub fn source_value(trail: &[u64], source: Source) -> u32
    ensures { result ≡ source_value trail.now source }
{
    match source {
        Source::Fixed(number) => number,
        Source::Agreed(log) => Word::from_bits(agreed(trail, log)).value(),
    }
}

/// The reply of a body's Answer.
pub fn reply_in(body: &Body) -> u64
    ensures { result ≡ reply_in body.now }
{
    for step in body.steps.as_slice() {
        if let Step::Answer { reply } = step {
            return *reply;
        }
    }
    0
}
