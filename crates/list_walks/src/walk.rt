//! The walk of a key from the head to its place.
ghost use Rattle.std.specs.Prelude.{◌≡◌, ◌≤◌, ◌==◌, ◌&&◌, cond};
ghost use Rattle.runner_parts.specs.structure_laws.specs.body_terms.specs.Word.{value_of};
ghost use Rattle.list_laws.specs.Walk.{AtKey, Refused, node_of, after_link, after_key, takes_out, is_ready};
ghost use Rattle.list_walks.specs.declared.stage.Stage.TheVariants.{NodeLock, End};
ghost use Rattle.list_walks.specs.Walking.{stage_of, is_refused_of, begun, fed_by, wanted_by, lock_by};

use crate::stage::{Stage, cell};
use runner_parts::structure_laws::body_terms::Word;
use runner_parts::structure_laws::map_history::Op;
use std::marker::Model;

/// How far the walk of an operation's key has come.
#[derive(Drop)]
pub struct ListWalk {
    pub(crate) limit: u128,
    pub(crate) links: u128,
    pub(crate) version_max: u32,
    pub(crate) op: Op,
    pub(crate) stage: Stage,
    pub(crate) from: u32,
    pub(crate) link: Word,
    pub(crate) key: u32,
    pub(crate) value: u32,
    pub(crate) found: bool,
    pub(crate) lock: Word,
    pub(crate) mark: Word,
    pub(crate) node_lock: Word,
    pub(crate) node_mark: Word,
}

impl Model for ListWalk {
    ghost use Rattle.std.specs.Prelude.{◌≡◌, ◌+◌, ◌≤◌};
    ghost use Rattle.list_walks.specs.Walking.{Walking, HasRoom, stage_of};

    ghost Value = { Walking };

    ghost view = { λ a. record {
      bounds = record { links = a.limit; version_max = a.version_max };
      op = a.op;
      walk = record {
        stage = stage_of a.stage;
        links = a.links;
        from = a.from;
        link = a.link;
        key = a.key;
        value = a.value;
        found = a.found;
        lock = a.lock;
        mark = a.mark;
        node_lock = a.node_lock;
        node_mark = a.node_mark;
      };
    } };

    ghost invariant = { λ a. (a.limit ≤ 73786976294838206464) × HasRoom (stage_of a.stage) a.links a.limit };
}

impl ListWalk {
    /// A walk that has loaded nothing. It is refused at a link once it has loaded `limit` links, and at a free lock
    /// from which `version_max` is less than two versions away.
    pub fn new(op: Op, limit: u128, version_max: u32) -> ListWalk
        requires few { limit ≤ 73786976294838206464 }
        ensures { result ≡ begun op limit version_max }
    {
        ListWalk {
            limit,
            links: 0,
            version_max,
            op,
            stage: Stage::Link,
            from: 0,
            link: Word::from_bits(0),
            key: 0,
            value: 0,
            found: false,
            lock: Word::from_bits(0),
            mark: Word::from_bits(0),
            node_lock: Word::from_bits(0),
            node_mark: Word::from_bits(0),
        }
    }

    /// The node to which the last link leads.
    fn node(&self) -> u32
        ensures { result ≡ node_of self.now.walk }
    {
        self.link.value().saturating_sub(1)
    }

    /// The place of the section's outer lock.
    pub(crate) fn outer_lock(&self) -> u64
        ensures { result ≡ lock_by self.now.walk }
    {
        cell(self.from, 0)
    }

    /// The place that the walk loads next; None where it is at its end or was refused.
    #[inline(always)]
    pub fn wanted(&self) -> Option<u64>
        ensures { result ≡ wanted_by self.now }
    {
        match self.stage {
            Stage::Link => Some(cell(self.from, 2)),
            Stage::Key => Some(cell(self.node(), 1)),
            Stage::Value => Some(cell(self.node(), 3)),
            Stage::Lock => Some(cell(self.from, 0)),
            Stage::Mark => Some(cell(self.from, 4)),
            Stage::NodeLock => Some(cell(self.node(), 0)),
            Stage::NodeMark => Some(cell(self.node(), 4)),
            Stage::End | Stage::Refused => None,
        }
    }

    /// Goes on by the word that stood at the place that the walk wanted.
    #[inline(always)]
    pub fn feed(&mut self, word: Word)
        ensures { self.new ≡ fed_by self.old word }
    {
        match self.stage {
            Stage::Link => {
                self.stage = self.past_link(self.links + 1, word);
                self.links += 1;
                self.link = word;
            }
            Stage::Key => self.feed_key(word.value()),
            Stage::Value => {
                self.value = word.value();
                self.stage = Stage::Lock;
            }
            Stage::Lock => {
                self.lock = word;
                self.stage = self.past_lock(word, Stage::Mark);
            }
            Stage::Mark => {
                self.mark = word;
                self.stage = past_mark(word, self.past_own_mark());
            }
            Stage::NodeLock => {
                self.node_lock = word;
                self.stage = self.past_lock(word, Stage::NodeMark);
            }
            Stage::NodeMark => {
                self.node_mark = word;
                self.stage = past_mark(word, Stage::End);
            }
            Stage::End | Stage::Refused => {}
        }
    }

    /// Goes on by the key of the node to which the last link leads: below the wanted key the node becomes the
    /// predecessor, else the walk along links ends.
    #[inline(always)]
    fn feed_key(&mut self, key: u32)
        requires { self.old.walk.stage ≡ AtKey }
        ensures { self.new ≡ fed_by self.old key }
    {
        if key < self.op.key() {
            self.from = self.node();
            self.key = key;
            self.stage = Stage::Link;
        } else {
            self.key = key;
            self.found = key == self.op.key();
            self.stage = self.past_key();
        }
    }

    /// What comes after a link, where so many have been loaded.
    #[inline(always)]
    fn past_link(&self, links: u128, word: Word) -> Stage
        ensures { stage_of result ≡ after_link self.now.bounds links word }
    {
        if word.value() == 0 || self.limit <= links {
            Stage::Refused
        } else {
            Stage::Key
        }
    }

    /// What comes after the last key: the value of the key's node, unless it is taken out for good; or the locks.
    #[inline(always)]
    fn past_key(&self) -> Stage
        ensures { stage_of result ≡ after_key self.now.op self.now.walk.found }
    {
        match (self.op, self.found) {
            (Op::Del(_), _) | (_, false) => Stage::Lock,
            (Op::Get(_) | Op::Ins(_, _) | Op::Put(_, _) | Op::Mov(_, _), true) => Stage::Value,
        }
    }

    /// What comes after the predecessor's mark: the lock of the key's node, where it is taken out.
    #[inline(always)]
    fn past_own_mark(&self) -> Stage
        ensures { stage_of result
            ≡ cond (takes_out self.now.op && self.now.walk.found) (stage_of NodeLock) (stage_of End) }
    {
        match (self.op, self.found) {
            (Op::Del(_) | Op::Put(_, _), true) => Stage::NodeLock,
            _ => Stage::End,
        }
    }

    /// What comes after a lock: the walk goes on where it is free and not spent.
    #[inline(always)]
    fn past_lock(&self, word: Word, next: Stage) -> Stage
        ensures { stage_of result ≡ cond (is_ready self.now.bounds word) (stage_of next) Refused }
    {
        let spent = u64::from(word.version()) + 2 > u64::from(self.version_max);
        if word.value() == 0 && !spent {
            next
        } else {
            Stage::Refused
        }
    }

    /// Whether it loads the predecessor's link next, and the next node's key then.
    #[inline(always)]
    pub fn is_on_links(&self) -> bool {
        self.stage == Stage::Link
    }

    /// Whether the walk was refused.
    pub fn is_refused(&self) -> bool
        ensures { result ≡ is_refused_of self.now }
    {
        match self.stage {
            Stage::Refused => true,
            Stage::End => u32::try_from(self.outer_lock()).is_err(),
            _ => false,
        }
    }
}

/// What comes after a mark: the walk goes on where it is 0.
fn past_mark(word: Word, next: Stage) -> Stage
    ensures { stage_of result ≡ cond (value_of word == 0) (stage_of next) Refused }
{
    if word.value() == 0 {
        next
    } else {
        Stage::Refused
    }
}
