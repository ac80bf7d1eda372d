// How a run ends, by what its runners answered.
ghost use Rattle.std.specs.Prelude.{◌≡◌, ◌+◌, ◌≤◌, length};
ghost use Rattle.flock_tool.specs.declared.finish.Finish.TheVariants.{Halted, Versions};
ghost use Rattle.flock_tool.specs.Finish.{versions_of, slots_of, first_from, is_halted, any_halted, finish_by, finish_status, finish_line, is_whole, kind_name, counts_line, TellsFinish};
ghost use Rattle.flock_tool.specs.Streams.{stream};

use arrayvec::ArrayString;
use hash_table::lock_walks::epoch_slots::{Kind, Short};
use itoa::Buffer;
use machine_states::body_terms::{Place, Word};
use printed_traces::report_text::{Sink, write_all};
use threaded_runs::serving::Served;

/// How a run ended whose report was printed.
#[derive(Clone, Copy, Debug, PartialEq, Eq)]
pub enum Finish {
    /// Nothing kept a request from its answer.
    Whole,
    /// A gate halted its runner, and so many requests are unserved.
    Halted { unserved: u32 },
    /// This runner had too few free slots.
    Slots { runner: u32, short: Short },
    /// This runner had too few free slots, and some of its slots are worn.
    WornSlots { runner: u32, short: Short },
    /// The word of this place has too few versions left.
    Versions { place: Place, word: Word },
}

/// How a run ended: by the first runner that lacked versions, else by the first that lacked slots, else by a halt that
/// left requests unserved.
pub fn finish_of(answers: &[Served], unserved: u32) -> Finish
    requires { length answers.now ≤ 16 }
    ensures { result ≡ finish_by answers.now unserved }
{
    if let Some(finish) = versions_from(0, answers) {
        return finish;
    }
    if let Some(finish) = slots_from(0, answers) {
        return finish;
    }
    if unserved > 0 && any_halted(answers) {
        Finish::Halted { unserved }
    } else {
        Finish::Whole
    }
}

// The first runner that lacked versions, of those from this one on.
fn versions_from(runner: u32, answers: &[Served]) -> Option<Finish>
    requires { runner + length answers.now ≤ 16 }
    ensures { result ≡ first_from versions_of runner answers.now }
{
    match answers {
        [] => None,
        [answer, more @ ..] => match versions_of(runner, *answer) {
            Some(finish) => Some(finish),
            None => versions_from(runner + 1, more),
        },
    }
}

fn versions_of(runner: u32, answer: Served) -> Option<Finish>
    ensures { result ≡ versions_of runner answer }
{
    match answer {
        Served::Spent { place, word } => Some(Finish::Versions { place, word }),
        Served::Short(short) => {
            if short.worn > 0 {
                Some(Finish::WornSlots { runner, short })
            } else {
                None
            }
        }
        _ => None,
    }
}

// The first runner that lacked slots, of those from this one on.
fn slots_from(runner: u32, answers: &[Served]) -> Option<Finish>
    requires { runner + length answers.now ≤ 16 }
    ensures { result ≡ first_from slots_of runner answers.now }
{
    match answers {
        [] => None,
        [answer, more @ ..] => match slots_of(runner, *answer) {
            Some(finish) => Some(finish),
            None => slots_from(runner + 1, more),
        },
    }
}

fn slots_of(runner: u32, answer: Served) -> Option<Finish>
    ensures { result ≡ slots_of runner answer }
{
    match answer {
        Served::Short(short) => Some(Finish::Slots { runner, short }),
        _ => None,
    }
}

fn any_halted(answers: &[Served]) -> bool
    ensures { result ≡ any_halted answers.now }
{
    match answers {
        [] => false,
        [answer, more @ ..] => is_halted(*answer) || any_halted(more),
    }
}

fn is_halted(answer: Served) -> bool
    ensures { result ≡ is_halted answer }
{
    match answer {
        Served::Halted => true,
        _ => false,
    }
}

/// Whether nothing kept a request from its answer.
pub fn is_whole(finish: &Finish) -> bool
    ensures { result ≡ is_whole finish.now }
{
    match finish {
        Finish::Whole => true,
        _ => false,
    }
}

/// The number of the status.
pub fn status_of_finish(finish: &Finish) -> u8
    ensures { result ≡ finish_status finish.now }
{
    match finish {
        Finish::Whole => 0,
        Finish::Halted { .. } => 1,
        Finish::Slots { .. } => 5,
        Finish::WornSlots { .. } | Finish::Versions { .. } => 6,
    }
}

/// Writes the line that says how the run ended, where there is one. A failure of the sink changes nothing but its
/// count.
pub fn tell_finish<F: Sink>(finish: &Finish, faults: &mut F)
    ensures { TellsFinish finish.now
        (stream (F.held faults.old) (F.held faults.new) (F.faults faults.old) (F.faults faults.new)) }
{
    if let Finish::Whole = finish {
        return;
    }
    let line = line_of_finish(finish);
    let _ = write_all(faults, line.as_bytes());
}

// The longest is `flock: versions: runner 15 descriptor free 4294967295 limbo 4294967295 worn 4294967295`.
type Line = ArrayString<128>;

fn line_of_finish(finish: &Finish) -> Line
    ensures { result.bytes ≡ finish_line finish.now }
{
    match finish {
        Finish::Whole => Line::new(),
        Finish::Halted { unserved } => line_of_halt(*unserved),
        Finish::Slots { runner, short } => line_of_counts("slots", *runner, *short),
        Finish::WornSlots { runner, short } => line_of_counts("versions", *runner, *short),
        Finish::Versions { place, word } => line_of_word(*place, *word),
    }
}

fn line_of_halt(unserved: u32) -> Line
    ensures { result.bytes ≡ finish_line (Halted unserved) }
{
    let mut line = Line::new();
    line.push_str("flock: halted, ");
    line.push_str(Buffer::new().format(unserved));
    line.push_str(" unserved\n");
    line
}

fn line_of_counts(what: &str, runner: u32, short: Short) -> Line
    requires { length what.now ≤ 8 }
    ensures { result.bytes ≡ counts_line what.now runner short }
{
    let mut line = Line::new();
    line.push_str("flock: ");
    line.push_str(what);
    line.push_str(": runner ");
    line.push_str(Buffer::new().format(runner));
    line.push_str(" ");
    line.push_str(kind_name(short.kind));
    line.push_str(" free ");
    line.push_str(Buffer::new().format(short.free));
    line.push_str(" limbo ");
    line.push_str(Buffer::new().format(short.limbo));
    line.push_str(" worn ");
    line.push_str(Buffer::new().format(short.worn));
    line.push_str("\n");
    line
}

fn line_of_word(place: Place, word: Word) -> Line
    ensures { result.bytes ≡ finish_line (Versions place word) }
{
    let mut line = Line::new();
    line.push_str("flock: versions: place ");
    line.push_str(Buffer::new().format(place));
    line.push_str(" value ");
    line.push_str(Buffer::new().format(word.value()));
    line.push_str(" version ");
    line.push_str(Buffer::new().format(word.version()));
    line.push_str("\n");
    line
}

fn kind_name(kind: Kind) -> &'static str
    ensures text { result.now ≡ kind_name kind }
    ensures short { length result.now ≤ 10 }
{
    match kind {
        Kind::Node => "node",
        Kind::Descriptor => "descriptor",
        Kind::Block => "block",
    }
}
