//! The walk of a key from the root to a leaf.
ghost use Rattle.std.specs.Prelude.{◌≡◌, ◌<◌, ◌≤◌, ◌==◌, cond};
ghost use Rattle.runner_parts.specs.structure_laws.specs.body_terms.specs.Word.{value_of};
ghost use Rattle.tree_laws.specs.Walk.{AtRoot, AtLeft, AtKey, Refused, after_link, after_leaf, followed, is_ready};
ghost use Rattle.tree_walks.specs.Walking.{stage_of, is_refused_of, begun, fed_by, wanted_by};

use crate::stage::{Link, Stage, cell};
use runner_parts::structure_laws::body_terms::Word;
use runner_parts::structure_laws::map_history::Op;
use std::marker::Model;

/// How far the walk of an operation's key has come.
#[derive(Drop)]
pub struct TreeWalk {
    pub(crate) limit: u128,
    pub(crate) near: u64,
    pub(crate) links: u64,
    pub(crate) beyond: u128,
    pub(crate) version_max: u32,
    pub(crate) op: Op,
    pub(crate) stage: Stage,
    pub(crate) deep: bool,
    pub(crate) found: bool,
    pub(crate) grand: Link,
    pub(crate) last: Link,
    pub(crate) left: Word,
    pub(crate) key: u32,
    pub(crate) value: u32,
    pub(crate) grand_lock: Word,
    pub(crate) grand_mark: Word,
    pub(crate) lock: Word,
    pub(crate) mark: Word,
}

impl Model for TreeWalk {
    ghost use Rattle.std.specs.Prelude.{◌≡◌, ◌+◌, ◌-◌, ◌<◌, ◌≤◌};
    ghost use Rattle.tree_walks.specs.Walking.{Walking, HasRoom, stage_of, step_of};

    ghost Value = { Walking };

    ghost view = { λ a. record {
      bounds = record { links = a.limit; version_max = a.version_max };
      op = a.op;
      walk = record {
        stage = stage_of a.stage;
        links = a.links + a.beyond;
        deep = a.deep;
        grand = step_of a.grand;
        last = step_of a.last;
        left = a.left;
        key = a.key;
        value = a.value;
        found = a.found;
        grand_lock = a.grand_lock;
        grand_mark = a.grand_mark;
        lock = a.lock;
        mark = a.mark;
      };
    } };

    ghost invariant = { λ a. (a.limit ≤ 73786976294838206464) × (a.near ≤ a.limit - 1)
        × (a.links < a.near → a.beyond ≡ 0)
        × (a.beyond ≤ 73786976294838206464) × HasRoom (stage_of a.stage) (a.links + a.beyond) a.limit };
}

impl TreeWalk {
    /// A walk that has loaded nothing. It is refused at a link once it has loaded `limit` links, and at a free lock
    /// from which `version_max` is less than two versions away.
    pub fn new(op: Op, limit: u128, version_max: u32) -> TreeWalk
        requires few { limit ≤ 73786976294838206464 }
        ensures { result ≡ begun op limit version_max }
    {
        TreeWalk {
            limit,
            near: u64::try_from(limit.saturating_sub(1)).unwrap_or(0),
            links: 0,
            beyond: 0,
            version_max,
            op,
            stage: Stage::Root,
            deep: false,
            found: false,
            grand: Link::first(Word::from_bits(0)),
            last: Link::first(Word::from_bits(0)),
            left: Word::from_bits(0),
            key: 0,
            value: 0,
            grand_lock: Word::from_bits(0),
            grand_mark: Word::from_bits(0),
            lock: Word::from_bits(0),
            mark: Word::from_bits(0),
        }
    }

    /// The place that the walk loads next; None where it is at its end or was refused.
    #[inline(always)]
    pub fn wanted(&self) -> Option<u64>
        ensures { result ≡ wanted_by self.now }
    {
        match self.stage {
            Stage::Root => Some(2),
            Stage::Left => Some(cell(self.last.to(), 2)),
            Stage::Key => Some(cell(self.last.to(), 1)),
            Stage::Right | Stage::Value => Some(cell(self.last.to(), 3)),
            Stage::GrandLock => Some(cell(self.grand.from, 0)),
            Stage::GrandMark => Some(cell(self.grand.from, 4)),
            Stage::Lock => Some(cell(self.last.from, 0)),
            Stage::Mark => Some(cell(self.last.from, 4)),
            Stage::End | Stage::Refused => None,
        }
    }

    /// Goes on by the word that stood at the place that the walk wanted.
    #[inline(always)]
    pub fn feed(&mut self, word: Word)
        ensures { self.new ≡ fed_by self.old word }
    {
        match self.stage {
            Stage::Root => self.feed_root(word),
            Stage::Left => {
                self.left = word;
                self.stage = Stage::Key;
            }
            Stage::Key => self.feed_key(word.value()),
            Stage::Right => self.step_down(false, word),
            Stage::Value => {
                self.value = word.value();
                self.stage = Stage::Lock;
            }
            Stage::GrandLock => {
                self.grand_lock = word;
                self.stage = self.past_lock(word, Stage::GrandMark);
            }
            Stage::GrandMark => {
                self.grand_mark = word;
                self.stage = past_mark(word, Stage::Lock);
            }
            Stage::Lock => {
                self.lock = word;
                self.stage = self.past_lock(word, Stage::Mark);
            }
            Stage::Mark => {
                self.mark = word;
                self.stage = past_mark(word, Stage::End);
            }
            Stage::End | Stage::Refused => {}
        }
    }

    /// Goes on by the root's left link.
    #[inline(always)]
    fn feed_root(&mut self, word: Word)
        requires { self.old.walk.stage ≡ AtRoot }
        ensures { self.new ≡ fed_by self.old word }
    {
        self.stage = self.past_link(1, word);
        self.links = 1;
        self.beyond = 0;
        self.last = Link::first(word);
    }

    /// Goes on by the last node's key: at a leaf the walk along links ends, of an inner node the link on the key's side
    /// is followed.
    #[inline(always)]
    fn feed_key(&mut self, key: u32)
        requires { self.old.walk.stage ≡ AtKey }
        ensures { self.new ≡ fed_by self.old key }
    {
        if self.left.value() == 0 {
            self.key = key;
            self.found = key == self.op.key();
            self.stage = self.past_leaf();
        } else if self.op.key() < key {
            self.step_down(true, self.left);
        } else {
            self.key = key;
            self.stage = Stage::Right;
        }
    }

    /// Follows this link of the last node.
    #[inline(always)]
    fn step_down(&mut self, left: bool, word: Word)
        requires { self.old.walk.links < self.old.bounds.links }
        ensures { self.new ≡ record self.old { walk = followed self.old.bounds self.old.walk left word } }
    {
        if self.links < self.near {
            self.stage = past_near_link(word);
            self.links += 1;
        } else {
            self.stage = self.past_link(u128::from(self.links) + self.beyond + 1, word);
            self.beyond += 1;
        }
        self.deep = true;
        self.grand = Link {
            from: self.last.from,
            left: self.last.left,
            word: self.last.word,
        };
        self.last = Link {
            from: self.last.to(),
            left,
            word,
        };
    }

    /// What comes after a link, where so many have been loaded.
    #[inline(always)]
    fn past_link(&self, links: u128, word: Word) -> Stage
        ensures { stage_of result ≡ after_link self.now.bounds links word }
    {
        if word.value() == 0 || self.limit <= links {
            Stage::Refused
        } else {
            Stage::Left
        }
    }

    /// What comes after a leaf's key: its value, where it is the operation's key and the leaf stays; or the locks. A
    /// removal needs a parent of the parent.
    #[inline(always)]
    fn past_leaf(&self) -> Stage
        ensures { stage_of result ≡ after_leaf self.now.op self.now.walk.deep self.now.walk.found }
    {
        match (self.op, self.found) {
            (_, false) => Stage::Lock,
            (Op::Get(_) | Op::Ins(_, _) | Op::Put(_, _) | Op::Mov(_, _), true) => Stage::Value,
            (Op::Del(_), true) if self.deep => Stage::GrandLock,
            (Op::Del(_), true) => Stage::Refused,
        }
    }

    /// What comes after a lock: the walk goes on where it is free and not spent.
    #[inline(always)]
    fn past_lock(&self, word: Word, next: Stage) -> Stage
        ensures { stage_of result ≡ cond (is_ready self.now.bounds word) (stage_of next) Refused }
    {
        let spent = u64::from(word.version()) + 2 > u64::from(self.version_max);
        if word.value() == 0 && !spent {
            next
        } else {
            Stage::Refused
        }
    }

    /// Whether it loads a node's left link next, and the node's key then.
    #[inline(always)]
    pub fn is_on_links(&self) -> bool {
        self.stage == Stage::Left
    }

    /// Whether it loads the last node's right link next.
    #[inline(always)]
    pub fn turns_aside(&self) -> bool {
        self.stage == Stage::Right
    }

    /// Whether the walk was refused.
    #[inline(always)]
    pub fn is_refused(&self) -> bool
        ensures { result ≡ is_refused_of self.now }
    {
        match self.stage {
            Stage::Refused => true,
            Stage::End => u32::try_from(self.outer_lock()).is_err(),
            _ => false,
        }
    }
}

/// What comes after a mark: the walk goes on where it is 0.
fn past_mark(word: Word, next: Stage) -> Stage
    ensures { stage_of result ≡ cond (value_of word == 0) (stage_of next) Refused }
{
    if word.value() == 0 {
        next
    } else {
        Stage::Refused
    }
}

/// What comes after a link with fewer links behind than the limit.
#[inline(always)]
fn past_near_link(word: Word) -> Stage
    ensures { stage_of result ≡ cond (value_of word == 0) Refused AtLeft }
{
    if word.value() == 0 {
        Stage::Refused
    } else {
        Stage::Left
    }
}
