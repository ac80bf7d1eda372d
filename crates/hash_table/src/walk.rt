//! The walk of a key through its bucket.
ghost use Rattle.std.specs.Prelude.{◌≡◌, ◌+◌, ◌*◌, ◌<◌, ◌≤◌, ◌^◌, ◌==◌, nat_le, cond, [], ◌∷◌};
ghost use Rattle.machine_states.specs.map_history.specs.Keys.{key_of};
ghost use Rattle.machine_states.specs.map_history.specs.Words.{word_of};
ghost use Rattle.bucket_walks.specs.section_body.specs.Bucket.{bucket_index};
ghost use Rattle.bucket_walks.specs.bucket_laws.specs.Walk.{start, AtLink, AtKey, AtNext, AtLock, Refused, operands_for, form_for, is_del, same_numbers, fits_walk};
ghost use Rattle.bucket_walks.specs.bucket_laws.specs.TwoWalk.{is_takable};
ghost use Rattle.hash_table.specs.Walking.{stage_of, is_refused_of, is_walked_of, behind_edition, begun, fed_by, wanted_by, thunk_by};

use bucket_walks::section_body::bucket_of;
use machine_states::body_terms::{Thunk, Word};
use machine_states::map_history::{Op, Reply};
use std::marker::Model;

/// What the walk loads next; it is at its end, or was refused.
#[derive(Clone, Copy, Debug, PartialEq, Eq)]
pub enum Stage {
    /// The edition of the bucket.
    Edition,
    /// A link: the head of the chain, or the next link of a node.
    Link,
    /// The key of the node to which the last link leads.
    Key,
    /// The value of the key's node.
    Value,
    /// The next link of the key's node.
    Next,
    /// The bucket's lock.
    Lock,
    /// Nothing: it is whole.
    End,
    /// Nothing: it was refused.
    Refused,
}

/// How far the walk of an operation's key has come.
#[derive(Drop)]
pub struct BucketWalk {
    bits: u32,
    limit: u128,
    near: u64,
    version_max: u32,
    op: Op,
    stage: Stage,
    links: u64,
    beyond: u128,
    edition: Word,
    head: u32,
    place: u64,
    slot: u32,
    value: u32,
    next: u32,
    found: bool,
    word: Word,
}

impl Model for BucketWalk {
    ghost use Rattle.std.specs.Prelude.{◌≡◌, ◌+◌, ◌-◌, ◌<◌, ◌≤◌};
    ghost use Rattle.hash_table.specs.Walking.{Walking, HasRoom, stage_of};

    ghost Value = { Walking };

    ghost view = { λ a. record {
      bits = a.bits;
      bounds = record { links = a.limit; version_max = a.version_max };
      op = a.op;
      walk = record {
        stage = stage_of a.stage;
        links = a.links + a.beyond;
        edition = a.edition;
        head = a.head;
        place = a.place;
        slot = a.slot;
        value = a.value;
        next = a.next;
        found = a.found;
        word = a.word;
      };
    } };

    ghost invariant = { λ a. (a.bits ≤ 12) × (a.limit ≤ 73786976294838206464) × (a.near ≤ a.limit - 1)
        × (a.links < a.near → a.beyond ≡ 0)
        × (a.beyond ≤ 73786976294838206464) × HasRoom (stage_of a.stage) (a.links + a.beyond) a.limit };
}

impl BucketWalk {
    /// A walk that has loaded nothing, among `2^bits` buckets. It is refused at a link that isn't 0 once it has loaded
    /// `limit` links, and at a free lock from which `version_max` is less than two versions away.
    pub fn new(bits: u32, op: Op, limit: u128, version_max: u32) -> BucketWalk
        requires buckets { bits ≤ 12 }
        requires some { 0 < limit }
        requires few { limit ≤ 73786976294838206464 }
        ensures { result ≡ begun bits op limit version_max }
    {
        BucketWalk {
            bits,
            limit,
            near: u64::try_from(limit.saturating_sub(1)).unwrap_or(0),
            version_max,
            op,
            stage: Stage::Edition,
            links: 0,
            beyond: 0,
            edition: Word::from_bits(0),
            head: 0,
            place: 0,
            slot: 0,
            value: 0,
            next: 0,
            found: false,
            word: Word::from_bits(0),
        }
    }

    /// The place of the bucket's lock.
    pub fn lock(&self) -> u32
        ensures here { result ≡ 3 * bucket_index (key_of self.now.op) self.now.bits }
        ensures low { result < 12288 }
    {
        3 * bucket_of(self.op.key(), self.bits)
    }

    /// The place of this cell of the slot to which the last link leads.
    fn cell(&self, cell: u64) -> u64
        requires { cell < 5 }
        ensures { result ≡ 3 * 2 ^ self.now.bits + 5 * self.now.walk.slot + cell }
    {
        let slot: u32 = self.slot;
        3 * (1u64 << self.bits) + 5 * u64::from(slot) + cell
    }

    /// The place that the walk loads next; None where it is at its end or was refused.
    #[inline(always)]
    pub fn wanted(&self) -> Option<u64>
        ensures { result ≡ wanted_by self.now }
    {
        match self.stage {
            Stage::Edition => Some(u64::from(self.lock()) + 1),
            Stage::Link => Some(self.place),
            Stage::Key => Some(self.cell(1)),
            Stage::Value => Some(self.cell(2)),
            Stage::Next => Some(self.cell(3)),
            Stage::Lock => Some(u64::from(self.lock())),
            Stage::End | Stage::Refused => None,
        }
    }

    /// Goes on by the word that stood at the place that the walk wanted.
    #[inline(always)]
    pub fn feed(&mut self, word: Word)
        ensures { self.new ≡ fed_by self.old word }
    {
        match self.stage {
            Stage::Edition => {
                self.edition = word;
                self.place = u64::from(self.lock()) + 2;
                self.stage = Stage::Link;
            }
            Stage::Link => self.feed_link(word.value()),
            Stage::Key => self.feed_key(word.value()),
            Stage::Value => {
                self.value = word.value();
                self.found = true;
                self.stage = self.after_value();
            }
            Stage::Next => {
                self.next = word.value();
                self.found = true;
                self.stage = Stage::Lock;
            }
            Stage::Lock => self.feed_lock(word),
            Stage::End | Stage::Refused => {}
        }
    }

    /// Goes on by a link.
    #[inline(always)]
    fn feed_link(&mut self, link: u32)
        requires { self.old.walk.stage ≡ AtLink }
        ensures { self.new ≡ fed_by self.old link }
    {
        if self.place == u64::from(self.lock()) + 2 {
            self.head = link;
        }
        self.slot = link.saturating_sub(1);
        self.found = false;
        if self.links < self.near {
            self.stage = past_near_link(link);
            self.links += 1;
        } else {
            self.stage = past_link(self.limit, u128::from(self.links) + self.beyond + 1, link);
            self.beyond += 1;
        }
    }

    /// Goes on by the key of the node.
    #[inline(always)]
    fn feed_key(&mut self, key: u32)
        requires { self.old.walk.stage ≡ AtKey }
        ensures { self.new ≡ fed_by self.old key }
    {
        if key == self.op.key() {
            self.stage = Stage::Value;
        } else {
            self.place = self.cell(3);
            self.stage = Stage::Link;
        }
    }

    /// What comes after the value of the key's node.
    #[inline(always)]
    fn after_value(&self) -> Stage
        ensures { stage_of result ≡ cond (is_del self.now.op) AtNext AtLock }
    {
        match self.op {
            Op::Get(_) | Op::Ins(_, _) | Op::Put(_, _) | Op::Mov(_, _) => Stage::Lock,
            Op::Del(_) => Stage::Next,
        }
    }

    /// Goes on by the lock's word.
    #[inline(always)]
    fn feed_lock(&mut self, word: Word)
        requires { self.old.walk.stage ≡ AtLock }
        ensures { self.new ≡ fed_by self.old word }
    {
        self.word = word;
        self.stage = if self.can_take(word) {
            Stage::End
        } else {
            Stage::Refused
        };
    }

    /// Whether a lock with this word is free and not spent.
    #[inline(always)]
    pub fn can_take(&self, word: Word) -> bool
        ensures { result ≡ is_takable self.now.bounds word }
    {
        let spent = u64::from(word.version()) + 2 > u64::from(self.version_max);
        word.value() == 0 && !spent
    }

    /// Whether it loads a link next, and the key of its node then.
    #[inline(always)]
    pub fn is_on_links(&self) -> bool {
        self.stage == Stage::Link
    }

    /// Goes on behind the edition of its bucket, which was read as this word: of a walk that has loaded nothing.
    pub fn skip_edition(&mut self, edition: Word)
        requires { self.old.walk ≡ start }
        ensures { self.new ≡ behind_edition self.old edition }
    {
        self.edition = edition;
        self.place = u64::from(self.lock()) + 2;
        self.stage = Stage::Link;
    }

    /// Whether it has loaded all but its lock.
    pub fn is_walked(&self) -> bool
        ensures { result ≡ is_walked_of self.now }
    {
        self.stage == Stage::Lock
    }

    /// The word of the edition that it has read.
    pub fn edition(&self) -> Word
        ensures { result ≡ self.now.walk.edition }
    {
        self.edition
    }

    /// The link in the head of its bucket, as it has read it.
    pub fn head(&self) -> u32
        ensures { result ≡ self.now.walk.head }
    {
        self.head
    }

    /// The place of the last link that it has loaded.
    pub fn place(&self) -> u64
        ensures { result ≡ self.now.walk.place }
    {
        self.place
    }

    /// The slot to which the last link leads.
    pub fn slot(&self) -> u32
        ensures { result ≡ self.now.walk.slot }
    {
        self.slot
    }

    /// The value of the key's node.
    pub fn value(&self) -> u32
        ensures { result ≡ self.now.walk.value }
    {
        self.value
    }

    /// The next link of the key's node.
    pub fn next(&self) -> u32
        ensures { result ≡ self.now.walk.next }
    {
        self.next
    }

    /// Whether it has found the key.
    pub fn has_found(&self) -> bool
        ensures { result ≡ self.now.walk.found }
    {
        self.found
    }

    /// Whether the walk was refused.
    #[inline(always)]
    pub fn is_refused(&self) -> bool
        ensures { result ≡ is_refused_of self.now }
    {
        self.stage == Stage::Refused
    }

    /// Whether the operation has one key, the walk is whole, and this is the thunk for it.
    pub fn fits(&self, thunk: &Thunk) -> bool
        ensures { result ≡ fits_walk (2 ^ self.now.bits) (λ key. bucket_index key self.now.bits)
            self.now.op self.now.walk thunk.now }
    {
        self.op.other_key().is_none()
            && self.stage == Stage::End
            && thunk.form == self.form()
            && thunk.lock == self.lock()
            && thunk.word == self.word
            && are_same(&thunk.operands, &self.operands())
    }

    /// The thunk for the request with this number, once the walk is whole.
    #[inline(always)]
    pub fn thunk(&self, number: u32) -> Thunk
        ensures { result ≡ thunk_by self.now number }
    {
        Thunk {
            form: self.form(),
            request: number,
            lock: self.lock(),
            word: self.word,
            operands: self.operands(),
        }
    }

    /// The form of the section's body: one that reads alone, that puts a node in, that takes one out, or that sets the
    /// value of one. An operation with a second key has none.
    #[inline(always)]
    fn form(&self) -> u64
        ensures { result ≡ form_for self.now.op self.now.walk.found }
    {
        match (self.op, self.found) {
            (Op::Ins(_, _) | Op::Put(_, _), false) => 2,
            (Op::Del(_), true) => 3,
            (Op::Put(_, _), true) => 4,
            (Op::Mov(_, _), _) => 0,
            _ => 1,
        }
    }

    /// The operands of the section's body.
    #[inline(always)]
    fn operands(&self) -> [u64; 8]
        ensures { result ≡ operands_for (2 ^ self.now.bits) self.now.op self.now.walk self.now.walk.found }
    {
        let edition = self.edition.bits();
        match (self.op, self.found) {
            (Op::Get(_), true) => read(edition, Reply::Val(self.value)),
            (Op::Ins(_, _), true) => read(edition, Reply::Dup),
            (Op::Ins(key, value) | Op::Put(key, value), false) => [
                edition,
                u64::from(key),
                u64::from(value),
                u64::from(self.head),
                0,
                0,
                0,
                0,
            ],
            (Op::Del(_), true) => [
                edition,
                self.place,
                u64::from(self.slot),
                u64::from(self.next),
                0,
                0,
                0,
                0,
            ],
            (Op::Get(_) | Op::Del(_), false) => read(edition, Reply::Absent),
            (Op::Put(_, value), true) => [
                edition,
                self.cell(2),
                u64::from(value),
                Reply::Was(self.value).word(),
                0,
                0,
                0,
                0,
            ],
            (Op::Mov(_, _), _) => [edition, 0, 0, 0, 0, 0, 0, 0],
        }
    }
}

/// What comes after a link, where so many have been loaded.
fn past_link(limit: u128, links: u128, link: u32) -> Stage
    ensures { stage_of result ≡ cond (link == 0) AtLock (cond (nat_le limit links) Refused AtKey) }
{
    if link == 0 {
        Stage::Lock
    } else if limit <= links {
        Stage::Refused
    } else {
        Stage::Key
    }
}

/// What comes after a link where fewer have been loaded than the limit.
#[inline(always)]
fn past_near_link(link: u32) -> Stage
    ensures { stage_of result ≡ cond (link == 0) AtLock AtKey }
{
    if link == 0 { Stage::Lock } else { Stage::Key }
}

/// The operands of a body that reads alone.
#[inline(always)]
fn read(edition: u64, reply: Reply) -> [u64; 8]
    ensures { result ≡ edition ∷ word_of reply ∷ 0 ∷ 0 ∷ 0 ∷ 0 ∷ 0 ∷ 0 ∷ [] }
{
    [edition, reply.word(), 0, 0, 0, 0, 0, 0]
}

/// Whether these are the same operands.
fn are_same(operands: &[u64; 8], others: &[u64; 8]) -> bool
    ensures { result ≡ same_numbers operands.now others.now }
{
    operands == others
}
