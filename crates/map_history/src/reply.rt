// What a request is answered.
ghost use Rattle.std.specs.Prelude.{◌≡◌, IfSome};
ghost use Rattle.map_history.specs.declared.reply.Reply.{Reply};
ghost use Rattle.map_history.specs.Words.{word_of, IsReply};

const CODE: u64 = 1 << 32;

/// What the map answers.
#[derive(Clone, Copy, Debug, PartialEq, Eq)]
pub enum Reply {
    /// The pair was added.
    New,
    /// The key was there before, and keeps its value.
    Dup,
    /// The value that stands at the key.
    Val(u32),
    /// The pair was taken out.
    Gone,
    /// The key isn't there.
    Absent,
    /// The key has the new value; before it had this one.
    Was(u32),
    /// The value stands at the second key now.
    Moved,
}

impl Reply {
    /// The reply as one word: a code from 1 to 7 in the high half, and the value in the low half.
    pub fn word(self) -> u64
        ensures { result ≡ word_of self }
    {
        match self {
            Reply::New => CODE,
            Reply::Dup => 2 * CODE,
            Reply::Val(value) => 3 * CODE + u64::from(value),
            Reply::Gone => 4 * CODE,
            Reply::Absent => 5 * CODE,
            Reply::Was(value) => 6 * CODE + u64::from(value),
            Reply::Moved => 7 * CODE,
        }
    }

    /// The reply that has this word. None exactly where no reply has it.
    pub fn from_word(word: u64) -> Option<Reply>
        ensures read { IfSome result (λ reply. (word_of reply ≡ word) × IsReply reply) }
        ensures whole { (reply : Reply) → IsReply reply → word_of reply ≡ word → result ≡ Some reply }
    {
        let value = (word % CODE) as u32;
        match (word / CODE, value) {
            (1, 0) => Some(Reply::New),
            (2, 0) => Some(Reply::Dup),
            (3, _) => Some(Reply::Val(value)),
            (4, 0) => Some(Reply::Gone),
            (5, 0) => Some(Reply::Absent),
            (6, _) => Some(Reply::Was(value)),
            (7, 0) => Some(Reply::Moved),
            _ => None,
        }
    }
}
