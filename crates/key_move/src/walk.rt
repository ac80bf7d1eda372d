//! The walk of an operation over one key, or over two.
ghost use Rattle.std.specs.Prelude.{◌≡◌, ◌+◌, ◌*◌, ◌<◌, ◌≤◌, ◌^◌, ◌==◌, nat_lt, cond, [], ◌∷◌};
ghost use Rattle.bucket_walks.specs.section_body.specs.Bucket.{bucket_index, is_small};
ghost use Rattle.bucket_walks.specs.bucket_laws.specs.TwoWalk.{side_op};
ghost use Rattle.bucket_walks.specs.bucket_laws.specs.Halves.{Own, Other};
ghost use Rattle.bucket_walks.specs.bucket_laws.specs.TwoWalk.{OnFirst, OnSecond, AtHigher, AtBoth, Stopped, two_wanted};
ghost use Rattle.machine_states.specs.map_history.specs.declared.op.Op.TheVariants.{Mov};
ghost use Rattle.key_move.specs.Moving.{begun, hash_of, side_bucket, low_of, high_of, two_on, from_of, to_of};
ghost use Rattle.bucket_walks.specs.bucket_laws.specs.TwoWalk.{fits_two, fits_halves, moves as is_moving, two_form, two_operands};
ghost use Rattle.bucket_walks.specs.bucket_laws.specs.TwoWalk.{one_operands, both_operands};
ghost use Rattle.bucket_walks.specs.bucket_laws.specs.Walk.{same_numbers};
ghost use Rattle.machine_states.specs.body_terms.specs.Word.{value_of};
ghost use Rattle.key_move.specs.Moving.{fits_of, thunk_by};
ghost use Rattle.key_move.specs.Moving.{wanted_by, fed_by, is_refused_of, part_of};

use hash_table::BucketWalk;
use machine_states::body_terms::{Thunk, Word};
use machine_states::map_history::{Op, Reply};
use std::marker::Model;

/// Where a walk over two keys is.
#[derive(Clone, Copy, Debug, PartialEq, Eq)]
pub enum Part {
    /// On the walk of the first key.
    First,
    /// On the walk of the second key.
    Second,
    /// Before the lower bucket's lock, which is the only one where both keys lie in one bucket.
    Lower,
    /// Before the higher bucket's lock.
    Higher,
    /// At its end.
    End,
    /// It was refused.
    Refused,
}

/// How far the walk of an operation has come. Of an operation over one key the first walk is the only one.
#[derive(Drop)]
pub struct MoveWalk {
    op: Op,
    part: Part,
    first: BucketWalk,
    second: BucketWalk,
    low: Word,
    high: Word,
}

impl Model for MoveWalk {
    ghost use Rattle.std.specs.Prelude.{◌≡◌, ◌≤◌};
    ghost use Rattle.bucket_walks.specs.bucket_laws.specs.Walk.{start};
    ghost use Rattle.bucket_walks.specs.bucket_laws.specs.TwoWalk.{side_op, OnFirst};
    ghost use Rattle.bucket_walks.specs.bucket_laws.specs.Halves.{Own, Other};
    ghost use Rattle.key_move.specs.Moving.{Moving, part_of};

    ghost Value = { Moving };

    ghost view = { λ a. record {
      bits = a.first.bits;
      bounds = a.first.bounds;
      op = a.op;
      walk = record {
        part = part_of a.part;
        first = a.first.walk;
        second = a.second.walk;
        low = a.low;
        high = a.high;
      };
    } };

    ghost invariant = { λ a. (a.second.bits ≡ a.first.bits) × (a.second.bounds ≡ a.first.bounds)
        × (a.first.op ≡ side_op a.op Own) × (a.second.op ≡ side_op a.op Other) × (a.first.bits ≤ 12)
        × (part_of a.part ≡ OnFirst → a.second.walk ≡ start) };
}

/// The operation of one key as whose the walk of the first key goes.
fn first_of(op: Op) -> Op
    ensures { result ≡ side_op op Own }
{
    match op {
        Op::Mov(from, _) => Op::Del(from),
        _ => op,
    }
}

/// And of the second key, where there is one.
fn second_of(op: Op) -> Op
    ensures { result ≡ side_op op Other }
{
    match op {
        Op::Mov(_, to) => Op::Get(to),
        _ => op,
    }
}

impl MoveWalk {
    /// A walk that has loaded nothing, among `2^bits` buckets. It is refused at a link that isn't 0 once it has loaded
    /// `limit` links of one key, and at a free lock from which `version_max` is less than two versions away.
    pub fn new(bits: u32, op: Op, limit: u128, version_max: u32) -> MoveWalk
        requires buckets { bits ≤ 12 }
        requires some { 0 < limit }
        requires few { limit ≤ 73786976294838206464 }
        ensures { result ≡ begun bits op limit version_max }
    {
        MoveWalk {
            op,
            part: Part::First,
            first: BucketWalk::new(bits, first_of(op), limit, version_max),
            second: BucketWalk::new(bits, second_of(op), limit, version_max),
            low: Word::from_bits(0),
            high: Word::from_bits(0),
        }
    }

    /// The place of the lower bucket's lock.
    fn lower(&self) -> u32
        ensures { result ≡ low_of self.now }
    {
        let first = self.first.lock();
        let second = self.second.lock();
        if first < second { first } else { second }
    }

    /// The place of the higher bucket's lock.
    fn higher(&self) -> u32
        ensures { result ≡ high_of self.now }
    {
        let first = self.first.lock();
        let second = self.second.lock();
        if first < second { second } else { first }
    }

    /// Whether both keys lie in one bucket.
    fn is_one(&self) -> bool
        ensures { result ≡ (side_bucket self.now Own == side_bucket self.now Other) }
    {
        self.first.lock() == self.second.lock()
    }

    /// The place that the walk loads next; None where it is at its end or was refused.
    #[inline(always)]
    pub fn wanted(&self) -> Option<u64>
        ensures { result ≡ wanted_by self.now }
    {
        match self.op {
            Op::Mov(_, _) => self.wanted_of_two(),
            Op::Get(_) | Op::Ins(_, _) | Op::Del(_) | Op::Put(_, _) => self.first.wanted(),
        }
    }

    /// The place that a walk over two keys loads next.
    #[inline(never)]
    fn wanted_of_two(&self) -> Option<u64>
        requires { self.now.op ≡ Mov (from_of self.now.op) (to_of self.now.op) }
        ensures { result ≡ two_wanted (2 ^ self.now.bits) (hash_of self.now) (from_of self.now.op) (to_of self.now.op)
            self.now.walk self.now.walk.part }
    {
        match self.part {
            Part::First => self.first.wanted(),
            Part::Second => self.second.wanted(),
            Part::Lower => Some(u64::from(self.lower())),
            Part::Higher => Some(u64::from(self.higher())),
            Part::End | Part::Refused => None,
        }
    }

    /// Goes on by the word that stood at the place that the walk wanted.
    #[inline(always)]
    pub fn feed(&mut self, word: Word)
        ensures { self.new ≡ fed_by self.old word }
    {
        match self.op {
            Op::Mov(from, to) => self.feed_two(from, to, word),
            Op::Get(_) | Op::Ins(_, _) | Op::Del(_) | Op::Put(_, _) => self.first.feed(word),
        }
    }

    /// Goes on over two keys.
    #[inline(never)]
    fn feed_two(&mut self, from: u32, to: u32, word: Word)
        requires { self.old.op ≡ Mov from to }
        ensures { self.new ≡ two_on self.old from to self.old.walk.part word }
    {
        match self.part {
            Part::First => self.feed_first(from, to, word),
            Part::Second => self.feed_second(from, to, word),
            Part::Lower => {
                self.low = word;
                self.part = past_lower(self.first.can_take(word), self.is_one());
            }
            Part::Higher => {
                self.high = word;
                self.part = past_higher(self.first.can_take(word));
            }
            Part::End | Part::Refused => {}
        }
    }

    /// Goes on along the walk of the first key, and begins that of the second one behind it: in the same bucket behind
    /// the edition, which was read.
    fn feed_first(&mut self, from: u32, to: u32, word: Word)
        requires op { self.old.op ≡ Mov from to }
        requires part { self.old.walk.part ≡ OnFirst }
        ensures { self.new ≡ two_on self.old from to OnFirst word }
    {
        self.first.feed(word);
        if self.first.is_refused() {
            self.part = Part::Refused;
        } else if self.first.is_walked() {
            if from == to {
                self.part = Part::Lower;
            } else {
                self.part = Part::Second;
                if self.is_one() {
                    self.second.skip_edition(self.first.edition());
                }
            }
        }
    }

    /// Goes on along the walk of the second key.
    fn feed_second(&mut self, from: u32, to: u32, word: Word)
        requires op { self.old.op ≡ Mov from to }
        requires part { self.old.walk.part ≡ OnSecond }
        ensures { self.new ≡ two_on self.old from to OnSecond word }
    {
        self.second.feed(word);
        if self.second.is_refused() {
            self.part = Part::Refused;
        } else if self.second.is_walked() {
            self.part = Part::Lower;
        }
    }

    /// Whether the walk was refused.
    #[inline(always)]
    pub fn is_refused(&self) -> bool
        ensures { result ≡ is_refused_of self.now }
    {
        match self.op {
            Op::Mov(_, _) => self.part == Part::Refused,
            Op::Get(_) | Op::Ins(_, _) | Op::Del(_) | Op::Put(_, _) => self.first.is_refused(),
        }
    }

    /// Whether the walk is whole, and this is the thunk for it.
    pub fn fits(&self, thunk: &Thunk) -> bool
        ensures { result ≡ fits_of self.now thunk.now }
    {
        match self.op {
            Op::Mov(from, to) => self.fits_two(from, to, thunk),
            Op::Get(_) | Op::Ins(_, _) | Op::Del(_) | Op::Put(_, _) => self.first.fits(thunk),
        }
    }

    /// Whether this is the thunk for a whole walk over two keys. What stands in the low half of an operand has 32 bits.
    fn fits_two(&self, from: u32, to: u32, thunk: &Thunk) -> bool
        requires { self.now.op ≡ Mov from to }
        ensures { result ≡ fits_two (2 ^ self.now.bits) (hash_of self.now) from to self.now.walk thunk.now }
    {
        self.part == Part::End
            && self.has_small_halves(from, to)
            && thunk.form == self.form_of_two(from, to)
            && thunk.lock == self.lower()
            && thunk.word == self.low
            && are_same(&thunk.operands, &self.operands_of_two(from, to))
    }

    /// Whether what stands in the low half of an operand has 32 bits.
    fn has_small_halves(&self, from: u32, to: u32) -> bool
        requires { self.now.op ≡ Mov from to }
        ensures { result ≡ fits_halves (2 ^ self.now.bits) (hash_of self.now) from to self.now.walk }
    {
        has_32_bits(u64::from(self.higher()))
            && has_32_bits(u64::from(self.first.next()))
            && has_32_bits(u64::from(to))
    }

    /// The thunk for the request with this number, once the walk is whole.
    #[inline(always)]
    pub fn thunk(&self, number: u32) -> Thunk
        ensures { result ≡ thunk_by self.now number }
    {
        match self.op {
            Op::Mov(from, to) => Thunk {
                form: self.form_of_two(from, to),
                request: number,
                lock: self.lower(),
                word: self.low,
                operands: self.operands_of_two(from, to),
            },
            Op::Get(_) | Op::Ins(_, _) | Op::Del(_) | Op::Put(_, _) => self.first.thunk(number),
        }
    }

    /// Whether the value moves: the first key was found, and the second one, which is another, was not.
    fn moves(&self, from: u32, to: u32) -> bool
        requires { self.now.op ≡ Mov from to }
        ensures { result ≡ is_moving (2 ^ self.now.bits) (hash_of self.now) from to self.now.walk }
    {
        self.first.has_found() && !self.second.has_found() && from != to
    }

    /// The form of the body of a section over two keys.
    #[inline(never)]
    fn form_of_two(&self, from: u32, to: u32) -> u64
        requires { self.now.op ≡ Mov from to }
        ensures { result ≡ two_form (2 ^ self.now.bits) (hash_of self.now) from to self.now.walk }
    {
        match (self.is_one(), self.moves(from, to)) {
            (true, true) => 23,
            (true, false) => 1,
            (false, true) => 22,
            (false, false) => 21,
        }
    }

    /// The reply word where nothing moves.
    fn still_reply(&self) -> u64
        ensures { result ≡ cond self.now.walk.first.found (2 * 2 ^ 32) (5 * 2 ^ 32) }
    {
        if self.first.has_found() {
            Reply::Dup.word()
        } else {
            Reply::Absent.word()
        }
    }

    /// The operands of the body of a section over two keys.
    #[inline(never)]
    fn operands_of_two(&self, from: u32, to: u32) -> [u64; 8]
        requires { self.now.op ≡ Mov from to }
        ensures { result ≡ two_operands (2 ^ self.now.bits) (hash_of self.now) from to self.now.walk }
    {
        let moves = self.moves(from, to);
        if self.is_one() {
            self.operands_in_one(to, moves)
        } else {
            self.operands_in_two(to, moves)
        }
    }

    /// Those of a section in one bucket.
    fn operands_in_one(&self, to: u32, moves: bool) -> [u64; 8]
        ensures { result ≡ one_operands (2 ^ self.now.bits) (hash_of self.now) to to self.now.walk moves }
    {
        let edition = self.first.edition().bits();
        if !moves {
            return [edition, self.still_reply(), 0, 0, 0, 0, 0, 0];
        }
        [
            edition,
            self.first.place(),
            u64::from(self.first.slot()),
            u64::from(self.first.next()),
            u64::from(to),
            u64::from(self.first.value()),
            0,
            0,
        ]
    }

    /// And of one in two buckets.
    fn operands_in_two(&self, to: u32, moves: bool) -> [u64; 8]
        requires { self.now.op ≡ Mov (from_of self.now.op) to }
        ensures { result ≡ both_operands (2 ^ self.now.bits) (hash_of self.now) (from_of self.now.op) to self.now.walk
            moves }
    {
        let is_lower = self.first.lock() < self.second.lock();
        let (low, high) = if is_lower {
            (self.first.edition(), self.second.edition())
        } else {
            (self.second.edition(), self.first.edition())
        };
        let lock = self.higher();
        if !moves {
            return [
                low.bits(),
                self.high.bits(),
                high.bits(),
                u64::from(lock),
                0,
                0,
                0,
                self.still_reply(),
            ];
        }
        [
            low.bits(),
            self.high.bits(),
            high.bits(),
            Word::pack(lock, u32::from(is_lower)).bits(),
            Word::pack(cut(self.first.place()), self.first.slot()).bits(),
            Word::pack(self.first.next(), self.second.head()).bits(),
            Word::pack(to, self.first.value()).bits(),
            0,
        ]
    }

    /// Whether it loads a link next, and the key of its node then.
    #[inline(always)]
    pub fn is_on_links(&self) -> bool {
        match self.part {
            Part::Second => self.second.is_on_links(),
            _ => self.first.is_on_links(),
        }
    }
}

/// Whether a number has 32 bits.
fn has_32_bits(number: u64) -> bool
    ensures { result ≡ is_small number }
{
    number < 1 << 32
}

/// The low 32 bits of a place.
fn cut(place: u64) -> u32
    ensures { result ≡ value_of place }
{
    Word::from_bits(place).value()
}

/// Whether these are the same operands.
fn are_same(operands: &[u64; 8], others: &[u64; 8]) -> bool
    ensures { result ≡ same_numbers operands.now others.now }
{
    operands == others
}

/// Where a walk goes on behind the lower lock.
fn past_lower(takable: bool, one: bool) -> Part
    ensures { part_of result ≡ cond takable (cond one AtBoth AtHigher) Stopped }
{
    if !takable {
        Part::Refused
    } else if one {
        Part::End
    } else {
        Part::Higher
    }
}

/// And behind the higher one.
fn past_higher(takable: bool) -> Part
    ensures { part_of result ≡ cond takable AtBoth Stopped }
{
    if takable { Part::End } else { Part::Refused }
}
