//! The thunk for a whole walk.
ghost use Rattle.std.specs.Prelude.{◌≡◌};
ghost use Rattle.runner_parts.specs.structure_laws.specs.map_history.specs.declared.reply.Reply.TheVariants.{Was};
ghost use Rattle.runner_parts.specs.structure_laws.specs.map_history.specs.Words.{word_of as reply_word};
ghost use Rattle.list_laws.specs.bucket_laws.specs.Walk.{same_numbers};
ghost use Rattle.list_laws.specs.Walk.{form_for, operands_for, fits_walk};
ghost use Rattle.list_laws.specs.Walk.{look_operands, insert_operands, remove_operands, replace_operands};
ghost use Rattle.list_walks.specs.Walking.{thunk_by};

use crate::stage::Stage;
use crate::walk::ListWalk;
use runner_parts::structure_laws::body_terms::Thunk;
use runner_parts::structure_laws::map_history::{Op, Reply};

impl ListWalk {
    /// Whether the operation has one key, the walk is whole, and this is the thunk for it.
    pub fn fits(&self, thunk: &Thunk) -> bool
        ensures { result ≡ fits_walk self.now.op self.now.walk thunk.now }
    {
        self.op.other_key().is_none()
            && self.stage == Stage::End
            && thunk.form == self.form()
            && u64::from(thunk.lock) == self.outer_lock()
            && thunk.word == self.lock
            && are_same(&thunk.operands, &self.operands())
    }

    /// The thunk for the request with this number, once the walk is whole.
    pub fn thunk(&self, number: u32) -> Thunk
        ensures { result ≡ thunk_by self.now number }
    {
        Thunk {
            form: self.form(),
            request: number,
            lock: u32::try_from(self.outer_lock()).unwrap_or(0),
            word: self.lock,
            operands: self.operands(),
        }
    }

    /// The form of the section's body: one that reads alone, that puts a node in, that takes one out, or that puts one
    /// in the place of another. An operation with a second key has none.
    fn form(&self) -> u64
        ensures { result ≡ form_for self.now.op self.now.walk.found }
    {
        match (self.op, self.found) {
            (Op::Ins(_, _) | Op::Put(_, _), false) => 32,
            (Op::Del(_), true) => 33,
            (Op::Put(_, _), true) => 34,
            (Op::Mov(_, _), _) => 0,
            _ => 31,
        }
    }

    /// The operands of the section's body.
    fn operands(&self) -> [u64; 8]
        ensures { result ≡ operands_for self.now.op self.now.walk self.now.walk.found }
    {
        match (self.op, self.found) {
            (Op::Get(_), true) => self.look(Reply::Val(self.value)),
            (Op::Ins(_, _), true) => self.look(Reply::Dup),
            (Op::Ins(key, value) | Op::Put(key, value), false) => self.insert(key, value),
            (Op::Put(key, value), true) => self.replace(key, value),
            (Op::Del(_), true) => self.remove(),
            (Op::Get(_) | Op::Del(_), false) => self.look(Reply::Absent),
            (Op::Mov(_, _), _) => self.look(Reply::Absent),
        }
    }

    /// The operands of a body that reads alone.
    fn look(&self, reply: Reply) -> [u64; 8]
        ensures { result ≡ look_operands self.now.walk (reply_word reply) }
    {
        [
            0,
            self.link.bits(),
            self.mark.bits(),
            reply.word(),
            0,
            0,
            0,
            0,
        ]
    }

    /// The operands of a body that puts a node in.
    fn insert(&self, key: u32, value: u32) -> [u64; 8]
        ensures { result ≡ insert_operands self.now.walk key value }
    {
        [
            0,
            self.link.bits(),
            self.mark.bits(),
            u64::from(key),
            u64::from(value),
            0,
            0,
            0,
        ]
    }

    /// The operands of a body that takes a node out.
    fn remove(&self) -> [u64; 8]
        ensures { result ≡ remove_operands self.now.walk }
    {
        [
            0,
            self.link.bits(),
            self.mark.bits(),
            self.node_lock.bits(),
            self.node_mark.bits(),
            0,
            0,
            0,
        ]
    }

    /// The operands of a body that puts a node in the place of another.
    fn replace(&self, key: u32, value: u32) -> [u64; 8]
        ensures { result ≡ replace_operands self.now.walk key value (reply_word (Was self.now.walk.value)) }
    {
        [
            0,
            self.link.bits(),
            self.mark.bits(),
            self.node_lock.bits(),
            self.node_mark.bits(),
            u64::from(key),
            u64::from(value),
            Reply::Was(self.value).word(),
        ]
    }
}

/// Whether these are the same operands.
fn are_same(operands: &[u64; 8], others: &[u64; 8]) -> bool
    ensures { result ≡ same_numbers operands.now others.now }
{
    operands == others
}
