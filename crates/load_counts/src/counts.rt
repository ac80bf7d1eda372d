// How often each kind of reply stands among entries.
ghost use Rattle.std.specs.Prelude.{◌≡◌, ◌≤◌, count_by, length};
ghost use Rattle.structure_laws.specs.map_history.specs.Requests.{most_requests};
ghost use Rattle.load_counts.specs.Apart.{unserved_in};
ghost use Rattle.load_counts.specs.Counts.{counts_in, has, is_of};

use structure_laws::map_history::{Entry, Reply};

/// How often each kind of reply came.
#[derive(Clone, Copy, Debug, PartialEq, Eq)]
pub struct Counts {
    /// Of a new pair.
    pub new: u32,
    /// Of a key that was there.
    pub dup: u32,
    /// With a value.
    pub val: u32,
    /// Of a pair that was taken out.
    pub gone: u32,
    /// Of a key that wasn't there.
    pub absent: u32,
}

// What a reply says, whatever its value.
#[derive(Clone, Copy, Debug)]
enum Kind {
    New,
    Dup,
    Val,
    Gone,
    Absent,
}

/// Counts the replies of at most 131,072 entries.
pub fn count_replies(entries: &[Option<Entry>]) -> Counts
    requires { length entries.now ≤ most_requests }
    ensures { result ≡ counts_in entries.now }
{
    Counts {
        new: count(entries, Kind::New),
        dup: count(entries, Kind::Dup),
        val: count(entries, Kind::Val),
        gone: count(entries, Kind::Gone),
        absent: count(entries, Kind::Absent),
    }
}

/// How many of at most 131,072 requests have no entry.
pub fn count_unserved(entries: &[Option<Entry>]) -> u32
    requires { length entries.now ≤ most_requests }
    ensures { result ≡ unserved_in entries.now }
{
    entries.iter().filter(|entry| entry.is_none()).count() as u32
}

// How many entries have a reply of this kind.
fn count(entries: &[Option<Entry>], kind: Kind) -> u32
    requires { length entries.now ≤ most_requests }
    ensures { result ≡ count_by (has kind) entries.now }
{
    entries.iter().filter(|entry| has(kind, **entry)).count() as u32
}

fn has(kind: Kind, entry: Option<Entry>) -> bool
    ensures { result ≡ has kind entry }
{
    match entry {
        Some(entry) => is_of(kind, entry.reply),
        None => false,
    }
}

fn is_of(kind: Kind, reply: Reply) -> bool
    ensures { result ≡ is_of kind reply }
{
    match (kind, reply) {
        (Kind::New, Reply::New)
        | (Kind::Dup, Reply::Dup)
        | (Kind::Val, Reply::Val(_))
        | (Kind::Gone, Reply::Gone)
        | (Kind::Absent, Reply::Absent) => true,
        _ => false,
    }
}
