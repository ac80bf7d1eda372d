//! What a look answers, on a contract.
ghost use Rattle.section_lines.specs.structure_laws.specs.table_words.specs.declared.layout.Layout.{Layout};
ghost use Rattle.section_lines.specs.structure_laws.specs.table_words.specs.Limits.{IsWithinLimits};
ghost use Rattle.read_answers.specs.Answers.{LooksAnswer};

use section_lines::structure_laws::Structure;

/// Over every structure that serves a map: where a reader's look stands, the Answer of its thunk is the reply of
/// the map after all stamped requests, and its operation leaves that map as it is. Each open section with a key in
/// common that has passed its Takes, Wants and Freshes has made a Store.
pub fn looks_answer_the_map<S: Structure>(structure: &S)
    ensures { (layout : Layout) → IsWithinLimits layout → LooksAnswer (S.meaning structure.now) layout }
{
    let _ = structure;
}
