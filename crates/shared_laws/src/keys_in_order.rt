//! The pairs of the keys below a bound.
ghost use Rattle.std.specs.Prelude.{◌≡◌, ◌<◌, ℕ, Option, IfOk};
ghost use Rattle.shared_laws.specs.Listing.{listed};

use std::alloc::{AllocError, Global};

/// The pairs of the keys below this bound that have a value, in order of key, by what is answered for each. The Err is
/// want of memory.
pub fn pairs_by_key<F: Fn(u32) -> Option<u32>>(
    alloc: Global,
    keys: u32,
    value_of: F,
) -> Result<Vec<(u32, u32)>, AllocError>
    requires { (key : ℕ) → key < keys → F.pre value_of key }
    ensures { IfOk result (λ items. (has : ℕ → Option ℕ)
        → ((key : ℕ) (o : Option ℕ) → key < keys → F.post value_of key o → o ≡ has key)
        → items.items ≡ listed has 0 keys) }
{
    let mut items = Vec::new(alloc);
    for key in 0..keys {
        if let Some(value) = value_of(key) {
            items.push((key, value))?;
        }
    }
    Ok(items)
}
