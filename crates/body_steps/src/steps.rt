//! Steps of a body, each on one line.
ghost use Rattle.std.specs.Prelude.{◌≡◌};
ghost use Rattle.body_terms.specs.declared.step.Step.TheVariants.{Load, Want, Take, Make, Store, Retire, Answer};

use body_terms::{Init, Place, Step, Value, Word};

/// Loads the cell at this place into a register.
pub fn load(place: Place, into: u8) -> Step
    ensures { result ≡ Load place into }
{
    Step::Load { place, into }
}

/// Leaves where the register's word isn't the one with these bits.
pub fn want(reg: u8, bits: u64) -> Step
    ensures { result ≡ Want reg bits }
{
    Step::Want {
        reg,
        word: Word::from_bits(bits),
    }
}

/// Takes the lock at this place, whose free word has these bits.
pub fn take(place: Place, bits: u64) -> Step
    ensures { result ≡ Take place bits }
{
    Step::Take {
        place,
        word: Word::from_bits(bits),
    }
}

/// Makes a node of a node slot.
pub fn make(init: Init, into: u8) -> Step
    ensures { result ≡ Make init into }
{
    Step::Make { init, into }
}

/// Stores a value over the word in a register.
pub fn store(reg: u8, value: Value) -> Step
    ensures { result ≡ Store reg value }
{
    Step::Store { reg, value }
}

/// Retires a node slot.
pub fn retire(slot: u32) -> Step
    ensures { result ≡ Retire slot }
{
    Step::Retire { slot }
}

/// Gives the request this reply word.
pub fn answer(reply: u64) -> Step
    ensures { result ≡ Answer reply }
{
    Step::Answer { reply }
}
