// What a trace asks.
ghost use Rattle.std.specs.Prelude.{◌≡◌};
ghost use Rattle.map_history.specs.Keys.{key_of, other_key_of, value_given, least_format, may_add};

use crate::Reply;

/// A request on the map. Keys and values are 32-bit numbers.
#[derive(Clone, Copy, Debug, PartialEq, Eq)]
pub enum Op {
    /// Looks up a key.
    Get(u32),
    /// Adds a key with its value, where the key is absent.
    Ins(u32, u32),
    /// Takes a key out, where it is present.
    Del(u32),
    /// Sets a key to a value, whatever stood there.
    Put(u32, u32),
    /// Moves the value of the first key to the second, where the first is present and the second absent.
    Mov(u32, u32),
}

impl Op {
    /// The key on which the operation depends.
    pub fn key(self) -> u32
        ensures { result ≡ key_of self }
    {
        match self {
            Op::Get(key) | Op::Ins(key, _) | Op::Del(key) | Op::Put(key, _) | Op::Mov(key, _) =>
                key,
        }
    }

    /// A second key on which it depends, if any.
    pub fn other_key(self) -> Option<u32>
        ensures { result ≡ other_key_of self }
    {
        match self {
            Op::Get(_) | Op::Ins(_, _) | Op::Del(_) | Op::Put(_, _) => None,
            Op::Mov(_, to) => Some(to),
        }
    }

    /// The value that it gives to a key, if any.
    pub fn value_given(self) -> Option<u32>
        ensures { result ≡ value_given self }
    {
        match self {
            Op::Ins(_, value) | Op::Put(_, value) => Some(value),
            Op::Get(_) | Op::Del(_) | Op::Mov(_, _) => None,
        }
    }

    /// The least format of a text in which it can be asked.
    pub fn least_format(self) -> u32
        ensures { result ≡ least_format self }
    {
        match self {
            Op::Get(_) | Op::Ins(_, _) | Op::Del(_) => 1,
            Op::Put(_, _) => 2,
            Op::Mov(_, _) => 3,
        }
    }

    /// Whether it may add a pair, or put a new one in the place of another.
    pub fn may_add(self) -> bool
        ensures { result ≡ may_add self }
    {
        matches!(self, Op::Ins(_, _) | Op::Put(_, _) | Op::Mov(_, _))
    }
}

/// One operation of a text.
#[derive(Clone, Copy, Debug, PartialEq, Eq)]
pub struct Request {
    /// The trace that asks, from 0.
    pub trace: u32,
    /// Its place among all requests of the text, from 0.
    pub number: u32,
    pub op: Op,
}

/// How a request was served.
#[derive(Clone, Copy, Debug, PartialEq, Eq)]
pub struct Entry {
    /// Orders the served requests; requests with equal stamps go by their number.
    pub stamp: u64,
    pub reply: Reply,
}
