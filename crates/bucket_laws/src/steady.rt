//! The law of this crate, on a contract.
ghost use Rattle.std.specs.Prelude.{◌≤◌};
ghost use Rattle.bucket_laws.specs.Short.{BucketWalksAreShort};

/// On the hash table with `2^bits` buckets a walk that reads what stands, in a memory that stands for a map, loads
/// no more links than there are node slots, and one: each of them but the last leads to another slot of one chain.
pub fn bucket_walks_are_short(bits: u32)
    requires { bits ≤ 12 }
    ensures { BucketWalksAreShort bits }
{
    let _any = bits;
}
