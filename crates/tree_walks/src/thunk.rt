//! The thunk for a whole walk.
ghost use Rattle.std.specs.Prelude.{◌≡◌, ◌&&◌};
ghost use Rattle.runner_parts.specs.structure_laws.specs.map_history.specs.declared.reply.Reply.TheVariants.{Was};
ghost use Rattle.runner_parts.specs.structure_laws.specs.map_history.specs.Words.{word_of as reply_word};
ghost use Rattle.tree_laws.specs.bucket_laws.specs.Walk.{is_del, same_numbers};
ghost use Rattle.tree_laws.specs.Walk.{form_for, word_for, operands_for, fits_walk};
ghost use Rattle.tree_laws.specs.Walk.{look_operands, insert_operands, replace_operands, delete_operands};
ghost use Rattle.tree_walks.specs.Walking.{lock_by, thunk_by};

use crate::stage::{Stage, cell};
use crate::walk::TreeWalk;
use runner_parts::structure_laws::body_terms::{Thunk, Word};
use runner_parts::structure_laws::map_history::{Op, Reply};

impl TreeWalk {
    /// Whether the section takes a leaf out.
    #[inline(always)]
    fn removes(&self) -> bool
        ensures { result ≡ (is_del self.now.op && self.now.walk.found) }
    {
        match self.op {
            Op::Del(_) => self.found,
            Op::Get(_) | Op::Ins(_, _) | Op::Put(_, _) | Op::Mov(_, _) => false,
        }
    }

    /// The place of the section's outer lock: of the parent, and for a removal of the parent's parent.
    #[inline(always)]
    pub(crate) fn outer_lock(&self) -> u64
        ensures { result ≡ lock_by self.now.op self.now.walk }
    {
        if self.removes() {
            cell(self.grand.from, 0)
        } else {
            cell(self.last.from, 0)
        }
    }

    /// The word of that lock.
    #[inline(always)]
    fn outer_word(&self) -> Word
        ensures { result ≡ word_for self.now.op self.now.walk self.now.walk.found }
    {
        if self.removes() {
            self.grand_lock
        } else {
            self.lock
        }
    }

    /// Whether the operation has one key, the walk is whole, and this is the thunk for it.
    pub fn fits(&self, thunk: &Thunk) -> bool
        ensures { result ≡ fits_walk self.now.op self.now.walk thunk.now }
    {
        self.op.other_key().is_none()
            && self.stage == Stage::End
            && thunk.form == self.form()
            && u64::from(thunk.lock) == self.outer_lock()
            && thunk.word == self.outer_word()
            && are_same(&thunk.operands, &self.operands())
    }

    /// The thunk for the request with this number, once the walk is whole.
    #[inline(always)]
    pub fn thunk(&self, number: u32) -> Thunk
        ensures { result ≡ thunk_by self.now number }
    {
        Thunk {
            form: self.form(),
            request: number,
            lock: u32::try_from(self.outer_lock()).unwrap_or(0),
            word: self.outer_word(),
            operands: self.operands(),
        }
    }

    /// The form of the section's body: one that reads alone, that puts a leaf in, that takes one out, or that puts one
    /// in the place of another. An operation with a second key has none.
    #[inline(always)]
    fn form(&self) -> u64
        ensures { result ≡ form_for self.now.op self.now.walk.found }
    {
        match (self.op, self.found) {
            (Op::Ins(_, _) | Op::Put(_, _), false) => 12,
            (Op::Del(_), true) => 13,
            (Op::Put(_, _), true) => 14,
            (Op::Mov(_, _), _) => 0,
            _ => 11,
        }
    }

    /// The operands of the section's body.
    #[inline(always)]
    fn operands(&self) -> [u64; 8]
        ensures { result ≡ operands_for self.now.op self.now.walk self.now.walk.found }
    {
        match (self.op, self.found) {
            (Op::Get(_), true) => self.look(Reply::Val(self.value)),
            (Op::Ins(_, _), true) => self.look(Reply::Dup),
            (Op::Ins(key, value) | Op::Put(key, value), false) => self.insert(key, value),
            (Op::Put(key, value), true) => self.replace(key, value),
            (Op::Del(_), true) => self.remove(),
            (Op::Get(_) | Op::Del(_), false) => self.look(Reply::Absent),
            (Op::Mov(_, _), _) => self.look(Reply::Absent),
        }
    }

    /// The operands of a body that reads alone.
    #[inline(always)]
    fn look(&self, reply: Reply) -> [u64; 8]
        ensures { result ≡ look_operands self.now.walk (reply_word reply) }
    {
        [
            self.last.place(),
            self.last.word.bits(),
            self.mark.bits(),
            reply.word(),
            0,
            0,
            0,
            0,
        ]
    }

    /// The operands of a body that puts a leaf in.
    #[inline(always)]
    fn insert(&self, key: u32, value: u32) -> [u64; 8]
        ensures { result ≡ insert_operands self.now.walk key value }
    {
        [
            self.last.place(),
            self.last.word.bits(),
            self.mark.bits(),
            u64::from(key),
            u64::from(value),
            u64::from(self.key),
            0,
            0,
        ]
    }

    /// The operands of a body that puts a leaf in the place of another.
    #[inline(always)]
    fn replace(&self, key: u32, value: u32) -> [u64; 8]
        ensures { result ≡ replace_operands self.now.walk key value (reply_word (Was self.now.walk.value)) }
    {
        [
            self.last.place(),
            self.last.word.bits(),
            self.mark.bits(),
            u64::from(key),
            u64::from(value),
            Reply::Was(self.value).word(),
            0,
            0,
        ]
    }

    /// The operands of a body that takes a leaf out.
    #[inline(always)]
    fn remove(&self) -> [u64; 8]
        ensures { result ≡ delete_operands self.now.walk }
    {
        [
            self.grand.place(),
            self.grand.word.bits(),
            self.grand_mark.bits(),
            self.lock.bits(),
            self.last.place(),
            self.last.word.bits(),
            self.mark.bits(),
            0,
        ]
    }
}

/// Whether these are the same operands.
fn are_same(operands: &[u64; 8], others: &[u64; 8]) -> bool
    ensures { result ≡ same_numbers operands.now others.now }
{
    operands == others
}
