//! The direct table meets the laws of a structure.
ghost use Rattle.std.specs.Prelude.{◌+◌, ◌*◌, ◌≤◌};
ghost use Rattle.structure_laws.specs.Laws.{Laws};
ghost use Rattle.structure_laws.specs.Planner.{PlannerLaws};
ghost use Rattle.direct_laws.specs.Direct.{direct};

/// The direct table of so many keys, from this place on, meets every law: its first memory, the shape of its bodies,
/// one section after the other, every move, and what the core relies on.
pub fn direct_meets_the_laws(base: u32, keys: u32)
    requires { base + 3 * keys ≤ 12288 }
    ensures { Laws (direct base keys) }
{
    let _any = (base, keys);
}

/// Sections can be planned on the direct table: a word that a body wants was read, no body makes a node, and no
/// pair keeps a slot in use.
pub fn direct_meets_the_planners_laws(base: u32, keys: u32)
    requires { base + 3 * keys ≤ 12288 }
    ensures { PlannerLaws (direct base keys) 0 }
{
    let _any = (base, keys);
}
