// An input that is read whole.
ghost use Rattle.std.specs.Prelude.{◌≡◌, ◌≤◌, ℕ, IsErrOf, IfErr, IfOk, IfSome, length};
ghost use Rattle.report_text.specs.fault_count.specs.Rose.{Rose};
ghost use Rattle.report_check.specs.Input.{IsTooLarge, StopsWithin};
ghost use Rattle.report_check.specs.declared.input.InputError.TheVariants.{ReadFault, Memory};

use std::alloc::{AllocError, AllocFailed, Global};
use trace_reader::{Failed, Source};

/// The most bytes of an input.
pub const MAX_INPUT: usize = 8_388_608;

// How many bytes are asked of the source at a time.
const PIECE: usize = 65_536;

/// Why an input was not read.
#[derive(Clone, Copy, Debug, PartialEq, Eq)]
pub enum InputError {
    /// The source failed.
    ReadFault,
    /// The input has more than 8,388,608 bytes.
    TooLarge { bytes: u64 },
    /// Want of memory.
    Memory,
}

impl From<Failed> for InputError {
    ghost from_gives = { λ _ e. e ≡ ReadFault };

    fn from(_: Failed) -> Self {
        InputError::ReadFault
    }
}

impl From<AllocError> for InputError {
    ghost from_gives = { λ _ e. e ≡ Memory };

    fn from(_: AllocError) -> Self {
        InputError::Memory
    }
}

impl<T: Drop> From<AllocFailed<T>> for InputError {
    ghost from_gives = { λ _ e. e ≡ Memory };

    fn from(_: AllocFailed<T>) -> Self {
        InputError::Memory
    }
}

/// Reads an input to its end, and gives all of its bytes. Where it has more than 8,388,608, that is answered.
///
/// A failed read is answered where it came, and the source counted it. `Memory` is want of memory.
pub fn read_all<R: Source>(alloc: Global, source: &mut R) -> Result<Vec<u8>, InputError>
    ensures whole { IfOk result (λ bytes. IfSome (R.left source.old) (λ left. left ≡ bytes.items)) }
    ensures within { IfOk result (λ bytes. length bytes.items ≤ 8388608) }
    ensures large { IfErr result (λ e. (bytes : ℕ) → e ≡ InputError.TooLarge bytes
        → (bytes ≡ 8388609) × IfSome (R.left source.old) IsTooLarge) }

    // A failed read is answered only where the source counted it, within the limit of bytes. Where the source counted
    // one, it is answered and nothing else.
    ensures fault { IsErrOf result InputError.ReadFault → Rose (R.faults source.old) (R.faults source.new) }
    ensures first { IsErrOf result InputError.ReadFault → StopsWithin (R.left source.old) (R.left source.new) }
    ensures steady { (IsErrOf result InputError.ReadFault → ⊥) → R.faults source.new ≡ R.faults source.old }
    ensures later { R.faults source.old ≤ R.faults source.new }
{
    let mut bytes = Vec::new(alloc);
    let mut piece = [0; PIECE];
    loop {
        let count = source.read(&mut piece)?;
        if count == 0 {
            return Ok(bytes);
        }
        if MAX_INPUT - bytes.len() < count {
            return Err(too_large());
        }
        bytes.extend_from_slice(&piece[..count])?;
    }
}

// The input goes on past the limit.
fn too_large() -> InputError
    ensures { result ≡ InputError.TooLarge 8388609 }
{
    InputError::TooLarge {
        bytes: MAX_INPUT as u64 + 1,
    }
}
