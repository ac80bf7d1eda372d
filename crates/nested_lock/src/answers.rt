//! How a Take ends, by an agreed word.
ghost use Rattle.std.specs.Prelude.{◌≡◌, ◌<◌, ◌^◌, ◌+◌, ◌-◌, ℕ, Some};
ghost use Rattle.machine_states.specs.body_terms.specs.Word.{version_of};
ghost use Rattle.nested_lock.specs.Answers.{refused_by, left_by, first_outcome, second_outcome, outcome_at, outcome_by};

use machine_states::body_terms::{Refused, Word};

/// Why a lock isn't got, by the word that was read in place of the expected one: Busy where it names a descriptor,
/// Spent where it is free and has too few versions left to be taken and released, Stale otherwise.
pub fn refused(version_max: u32, expected: Word, read: Word) -> Refused
    requires { 2 < version_max }
    ensures why { result ≡ refused_by version_max expected read }
    ensures outcome { (place : ℕ) → left_by version_max place expected read ≡ outcome_by place result }
{
    if read.value() != 0 {
        Refused::Busy(read)
    } else if version_max - 2 < read.version() {
        Refused::Spent(read)
    } else {
        Refused::Stale { expected, read }
    }
}

/// What the word says that was agreed on before the lock is taken: Ok where it is the expected one, free and not spent.
pub fn first_answer(version_max: u32, expected: Word, read: Word) -> Result<(), Refused>
    requires { 2 < version_max }
    ensures { (place : ℕ) → first_outcome version_max place expected read ≡ outcome_at place result }
{
    if read == expected && read.value() == 0 && read.version() <= version_max - 2 {
        Ok(())
    } else {
        Err(refused(version_max, expected, read))
    }
}

/// What the word says that was agreed on after the exchange: Ok where it names the section.
pub fn second_answer(
    version_max: u32,
    descriptor: u32,
    expected: Word,
    read: Word,
) -> Result<(), Refused>
    requires some { 2 < version_max }
    requires descriptor { descriptor < 2 ^ 32 - 1 }
    requires version { version_of expected < 2 ^ 32 - 1 }
    ensures { (place : ℕ) → second_outcome version_max descriptor place expected read ≡ outcome_at place result }
{
    if read == Word::pack(descriptor + 1, expected.version() + 1) {
        Ok(())
    } else {
        Err(refused(version_max, expected, read))
    }
}
