// The map that answers one request after another.
ghost use Rattle.std.specs.Prelude.{◌≡◌, ◌↔◌, ◌+◌, ◌≤◌, false, IsTrue, IfOk, OnOk, OnErr, if◌then◌else◌};
ghost use Rattle.std.specs.FinMap as map;
ghost use Rattle.map_history.specs.Replay.{found, replaced, moved, after_move, reply_of, map_after, Grows};
ghost use Rattle.map_history.specs.declared.reply.Reply.TheVariants.{New, Dup, Gone, Absent, Moved};

use crate::{Op, Reply};
use std::alloc::{AllocError, Global};
use std::collections::BTreeMap;
use std::marker::Model;

/// A finite map from keys to values.
#[derive(Drop)]
pub struct Book {
    pairs: BTreeMap<u32, u32>,
}

impl Model for Book {
    ghost use Rattle.std.specs.Prelude.{◌≡◌, ℕ};
    ghost use Rattle.std.specs.Ordering.{nat_cmp};
    ghost use Rattle.std.specs.FinMap as map;
    ghost use Rattle.std.specs.Coded.{coded_ℕ};
    ghost use Rattle.std.specs.BTreeMap.{btree_map_len};

    ghost Value = { map.FinMap nat_cmp ℕ };

    ghost coded = { map.code coded_ℕ coded_ℕ };

    ghost view = { λ book. map.from_entries book.pairs.entries };

    ghost invariant = { λ book. map.len (map.from_entries {R = nat_cmp} book.pairs.entries)
        ≡ btree_map_len book.pairs };
}

impl Book {
    /// The empty map.
    pub fn new(alloc: Global) -> Self
        ensures { result ≡ map.empty }
    {
        Self {
            pairs: BTreeMap::new(alloc),
        }
    }

    /// Answers one operation and changes the map by it. The Err is want of memory for a new pair, and leaves
    /// the map as it was.
    pub fn apply(&mut self, op: Op) -> Result<Reply, AllocError>
        ensures reply { IfOk result (λ reply. reply ≡ reply_of self.old op) }
        ensures ok { OnOk result (self.new ≡ map_after self.old op) }
        ensures err { OnErr result (self.new ≡ self.old) }
        ensures cause { OnErr result (Grows self.old op) }
        ensures few { OnOk result (map.len self.new ≤ map.len self.old + 1) }
    {
        match op {
            Op::Get(key) => Ok(self.get(key)),
            Op::Ins(key, value) => self.insert(key, value),
            Op::Del(key) => Ok(self.remove(key)),
            Op::Put(key, value) => self.set(key, value),
            Op::Mov(from, to) => self.shift(from, to),
        }
    }

    fn get(&self, key: u32) -> Reply
        ensures { result ≡ found (map.get self.now key) }
    {
        match self.pairs.get(&key) {
            Some(value) => Reply::Val(*value),
            None => Reply::Absent,
        }
    }

    fn insert(&mut self, key: u32, value: u32) -> Result<Reply, AllocError>
        ensures reply { IfOk result (λ reply. reply ≡ (if map.contains_key self.old key then Dup else New)) }
        ensures ok { OnOk result (self.new
            ≡ (if map.contains_key self.old key then self.old else map.insert self.old key value)) }
        ensures err { OnErr result (self.new ≡ self.old) }
        ensures cause { OnErr result (map.contains_key self.old key ≡ false) }
    {
        if self.pairs.contains_key(&key) {
            return Ok(Reply::Dup);
        }
        self.pairs.insert(key, value)?;
        Ok(Reply::New)
    }

    fn set(&mut self, key: u32, value: u32) -> Result<Reply, AllocError>
        ensures reply { IfOk result (λ reply. reply ≡ replaced (map.get self.old key)) }
        ensures ok { OnOk result (self.new ≡ map.insert self.old key value) }
        ensures err { OnErr result (self.new ≡ self.old) }
        ensures cause { OnErr result (map.contains_key self.old key ≡ false) }
    {
        match self.pairs.insert(key, value)? {
            Some(old) => Ok(Reply::Was(old)),
            None => Ok(Reply::New),
        }
    }

    // The pair is added before the other is taken out, so that want of memory changes nothing.
    fn shift(&mut self, from: u32, to: u32) -> Result<Reply, AllocError>
        ensures reply { IfOk result (λ reply. reply ≡ moved (map.get self.old from) (map.get self.old to)) }
        ensures ok { OnOk result (self.new
            ≡ after_move self.old from to (map.get self.old from) (map.get self.old to)) }
        ensures err { OnErr result (self.new ≡ self.old) }
        ensures cause { OnErr result (moved (map.get self.old from) (map.get self.old to) ≡ Moved) }
    {
        let Reply::Val(value) = self.get(from) else {
            return Ok(Reply::Absent);
        };
        match self.insert(to, value)? {
            Reply::New => {
                self.remove(from);
                Ok(Reply::Moved)
            }
            _ => Ok(Reply::Dup),
        }
    }

    fn remove(&mut self, key: u32) -> Reply
        ensures reply { result ≡ (if map.contains_key self.old key then Gone else Absent) }
        ensures after { self.new ≡ map.remove self.old key }
    {
        if self.pairs.remove(&key).is_some() {
            Reply::Gone
        } else {
            Reply::Absent
        }
    }

    /// How many pairs the map has.
    pub fn len(&self) -> usize
        ensures { result ≡ map.len self.now }
    {
        self.pairs.len()
    }

    /// Whether the map has no pair.
    pub fn is_empty(&self) -> bool
        ensures { IsTrue result ↔ (map.len self.now ≡ 0) }
    {
        self.len() == 0
    }
}
