//! The laws of this crate, on contracts.
ghost use Rattle.bucket_walks.specs.Few.{WalksMakeFewLoads, GetsOnlyLook, MovesMakeFewLoads, MovesGetsOnlyLook};

/// On the hash table with `2^bits` buckets each load brings a walk nearer to its end, whatever it reads, so it makes at
/// most 2N + 20 loads, N being the number of node slots.
pub fn bucket_walks_make_few_loads(bits: u32)
    ensures { WalksMakeFewLoads bits }
{
    let _any = bits;
}

/// On the hash table with `2^bits` buckets a thunk that fits a `get` has a body that changes nothing: it loads cells,
/// tests what was loaded, and is stamped and answered.
pub fn bucket_gets_only_look(bits: u32)
    ensures { GetsOnlyLook bits }
{
    let _any = bits;
}

/// Each load brings a walk over two keys nearer to its end, whatever it reads, so it makes at most 4N + 42 loads, N
/// being the number of node slots.
pub fn moves_make_few_loads(bits: u32)
    ensures { MovesMakeFewLoads bits }
{
    let _any = bits;
}

/// On the table that moves keys, too, a thunk that fits a `get` has a body that changes nothing.
pub fn moves_gets_only_look(bits: u32)
    ensures { MovesGetsOnlyLook bits }
{
    let _any = bits;
}
