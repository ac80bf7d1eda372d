//! Requests are planned on the search tree.
ghost use Rattle.std.specs.Prelude.{◌≡◌, IfOk, IfSome};
ghost use Rattle.std.specs.FinMap.{entries};
ghost use Rattle.tree_walks.specs.structure_laws.specs.map_history.specs.Replay.{Pairs};
ghost use Rattle.tree_walks.specs.structure_laws.specs.map_history.specs.declared.op.Op.TheVariants.{Get};
ghost use Rattle.tree_walks.specs.tree_laws.specs.Leaves.{tree, walk_of};
ghost use Rattle.tree_walks.specs.tree_laws.proofs.TreeLaws.{tree_plans};
ghost use Rattle.tree_walks.specs.Walking.{is_refused_in};
ghost use Rattle.tree_walks.specs.tree_laws.proofs.Near.{not_far, no_mark};
ghost use Rattle.lock_walks.specs.Glances.{glanced};
ghost use Rattle.lock_walks.specs.try_lock.specs.Contents.{StandFor, NamesNone};
ghost use Rattle.tree_walks.specs.tree_laws.specs.tree_bodies.specs.Tree.{tree_steps};
ghost use Rattle.leaf_tree.specs.Planned.{tree_planning};
ghost use Rattle.tree_walks.specs.tree_laws.proofs.Retiring.{few_retires};
ghost use Rattle.tree_walks.proofs.Gets.{make_few_loads, only_look};

use crate::tree::LeafTree;
use crate::walker::LeafWalk;
use lock_walks::version_words::Words;
use lock_walks::{Glance, Planner, WantedCell};
use std::alloc::{AllocError, Global};
use tree_walks::far_walks_are_long;
use tree_walks::structure_laws::body_terms::Thunk;
use tree_walks::structure_laws::map_history::Op;
use tree_walks::structure_laws::table_words::Layout;

/// A section that changes nothing looks at the link to its leaf, and at the mark of the leaf's parent.
#[inline(always)]
fn glance_of(thunk: &Thunk) -> Option<Glance>
    ensures { IfSome result (λ g. glanced g ≡ tree_steps thunk.now) }
{
    if thunk.form != 11 {
        return None;
    }
    let mark = thunk.lock.checked_add(4)?;
    let link = u32::try_from(thunk.operands[0]).ok()?;
    Some(Glance {
        first: WantedCell::new(link, thunk.operands[1]),
        second: Some(WantedCell::new(mark, thunk.operands[2])),
        reply: thunk.operands[3],
    })
}

impl Planner for LeafTree {
    type Walk = LeafWalk;

    ghost planning = { λ s. tree_planning };

    fn serves(&self, op: Op) -> bool {
        op.other_key().is_none()
    }

    fn walk(&self, layout: Layout, op: Op) -> LeafWalk {
        far_walks_are_long();
        LeafWalk {
            walk: self.begin(layout, op),
        }
    }

    #[inline(always)]
    fn glance(&self, thunk: &Thunk) -> Option<Glance> {
        glance_of(thunk)
    }

    fn contents(&self, alloc: Global, words: &Words<Self>) -> Result<Vec<(u32, u32)>, AllocError>
        requires structure { self.now ≡ words.now.structure }
        requires stand { (pairs : Pairs) × StandFor tree words.now pairs }
        requires closed { NamesNone tree words.now }
        ensures contents { IfOk result (λ items. (pairs : Pairs) → StandFor tree words.now pairs
            → items.items ≡ entries pairs) }
    {
        self.pairs(alloc, words)
    }

    ghost plans_lawfully = { λ s. tree_plans };

    ghost walks_steadily = { λ s. record {
      unmarked = λ layout op readings walk i place word at free. no_mark layout walk.scene.cells walk.pairs op readings
          walk.stands.stands walk.read walk.walk i place word at;
      near = λ layout op readings walk. not_far layout walk.scene.cells walk.pairs op readings walk.stands.stands
          walk.read (is_refused_in op (walk_of layout op readings));
    } };

    ghost retires_few = { λ s. few_retires };

    ghost gets_are_light = { λ s. record {
      looks = λ is_map. only_look;
      few = λ layout key readings limits allowed served. make_few_loads layout (Get key) readings;
    } };
}
