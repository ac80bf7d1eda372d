//! The words of a descriptor that hold its thunk.
ghost use Rattle.std.specs.Prelude.{◌≡◌};
ghost use Rattle.runner_parts.specs.Tests.{thunk_words};

use structure_laws::body_terms::Thunk;

/// The thunk words of a descriptor.
pub fn thunk_words(thunk: &Thunk) -> [u64; 12]
    ensures { result ≡ thunk_words thunk.now }
{
    let rest = thunk.operands;
    [
        thunk.form,
        thunk.request as u64,
        thunk.lock as u64,
        thunk.word.bits(),
        rest[0],
        rest[1],
        rest[2],
        rest[3],
        rest[4],
        rest[5],
        rest[6],
        rest[7],
    ]
}
