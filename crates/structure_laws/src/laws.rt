//! The test structure meets the laws, and so it keeps a lawful scene by every move.
ghost use Rattle.body_terms.specs.block_words.specs.table_words.specs.declared.layout.Layout.{Layout};
ghost use Rattle.body_terms.specs.block_words.specs.table_words.specs.Limits.{IsWithinLimits};
ghost use Rattle.structure_laws.specs.Laws.{Laws};
ghost use Rattle.structure_laws.specs.Lawful.{Moves};
ghost use Rattle.structure_laws.specs.Tray.{tray};

/// The test structure meets every law: its first memory, the shape of its bodies, one section after the other,
/// every move, and what the core relies on.
#[tactic(auto, using(crate::proofs::TrayLaws::tray_laws))]
pub fn tray_meets_the_laws()
    ensures { Laws tray }
{}

/// Over the test structure every move leads from a lawful scene to a lawful scene, and the first scene is one.
pub fn tray_moves_are_lawful()
    ensures { (layout : Layout) → IsWithinLimits layout → Moves tray layout }
{}
