//! The Store of a body in which each value is known, on one line. The other steps stand in `body_steps`.
ghost use Rattle.std.specs.Prelude.{◌≡◌};
ghost use Rattle.structure_laws.specs.body_terms.specs.Word.{value_of};
ghost use Rattle.structure_laws.specs.body_terms.specs.declared.value.Value.TheVariants.{Const};
ghost use Rattle.structure_laws.specs.body_terms.specs.declared.step.Step.TheVariants.{Store};

use structure_laws::body_terms::{Step, Value, Word};

/// Stores the value of the word with these bits in the register's cell.
pub fn store(reg: u8, bits: u64) -> Step
    ensures { result ≡ Store reg (Const (value_of bits)) }
{
    body_steps::store(reg, Value::Const(Word::from_bits(bits).value()))
}
