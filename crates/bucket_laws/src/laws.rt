//! The hash table, and the table that moves keys, too, meet the laws of a structure.
ghost use Rattle.std.specs.Prelude.{◌≤◌};
ghost use Rattle.structure_laws.specs.Laws.{Laws};
ghost use Rattle.structure_laws.specs.Planner.{PlannerLaws};
ghost use Rattle.bucket_laws.specs.Buckets.{buckets_meaning, moves_meaning};

/// The hash table with `2^bits` buckets meets every law: its first memory, the shape of its bodies, one section after
/// the other, every move, and what the core relies on.
pub fn buckets_meet_the_laws(bits: u32)
    requires { bits ≤ 12 }
    ensures { Laws (buckets_meaning bits) }
{
    let _any = bits;
}

/// Sections can be planned on the hash table with `2^bits` buckets: a word that a body wants was read, a body that
/// makes a node answers that it added a pair, and with nothing open each pair keeps one slot in use, at most.
pub fn buckets_meet_the_planners_laws(bits: u32)
    requires { bits ≤ 12 }
    ensures { PlannerLaws (buckets_meaning bits) 1 }
{
    let _any = bits;
}

/// The table with `2^bits` buckets that serves operations over two keys, too, meets every law. So a `mov` changes both
/// keys at one place of the history, whether they lie in one bucket or in two.
pub fn moves_meet_the_laws(bits: u32)
    requires { bits ≤ 12 }
    ensures { Laws (moves_meaning bits) }
{
    let _any = bits;
}

/// Sections can be planned on it: a word that a body wants was read, a body that makes a node answers that it added a
/// pair, or that it moved one, and with nothing open each pair keeps one slot in use, at most.
pub fn moves_meet_the_planners_laws(bits: u32)
    requires { bits ≤ 12 }
    ensures { PlannerLaws (moves_meaning bits) 1 }
{
    let _any = bits;
}
