//! Requests are planned on the sorted list.
ghost use Rattle.std.specs.Prelude.{◌≡◌, IfOk, IfSome};
ghost use Rattle.std.specs.FinMap.{entries};
ghost use Rattle.list_walks.specs.structure_laws.specs.map_history.specs.Replay.{Pairs};
ghost use Rattle.list_walks.specs.list_laws.specs.Nodes.{list, walk_of};
ghost use Rattle.list_walks.specs.list_laws.proofs.ListLaws.{list_plans};
ghost use Rattle.list_walks.specs.list_laws.proofs.Near.{not_far, no_mark};
ghost use Rattle.list_walks.specs.list_laws.proofs.Retiring.{few_retires};
ghost use Rattle.list_walks.specs.Walking.{is_refused_in};
ghost use Rattle.list_walks.proofs.Gets.{get_few, only_look};
ghost use Rattle.lock_walks.specs.Glances.{glanced};
ghost use Rattle.lock_walks.specs.try_lock.specs.Contents.{StandFor, NamesNone};
ghost use Rattle.list_walks.specs.list_laws.specs.list_bodies.specs.List.{list_steps};
ghost use Rattle.sorted_list.specs.Planned.{list_planning};

use crate::list::SortedList;
use crate::walker::SortedWalk;
use list_walks::far_walks_are_long;
use list_walks::structure_laws::body_terms::Thunk;
use list_walks::structure_laws::map_history::Op;
use list_walks::structure_laws::table_words::Layout;
use lock_walks::version_words::Words;
use lock_walks::{Glance, Planner, WantedCell};
use std::alloc::{AllocError, Global};

/// A section that changes nothing looks at the link and at the mark of the node whose lock it has.
#[inline(always)]
fn glance_of(thunk: &Thunk) -> Option<Glance>
    ensures { IfSome result (λ g. glanced g ≡ list_steps thunk.now) }
{
    if thunk.form != 31 {
        return None;
    }
    let mark = thunk.lock.checked_add(4)?;
    Some(Glance {
        first: WantedCell::new(thunk.lock + 2, thunk.operands[1]),
        second: Some(WantedCell::new(mark, thunk.operands[2])),
        reply: thunk.operands[3],
    })
}

impl Planner for SortedList {
    type Walk = SortedWalk;

    ghost planning = { λ s. list_planning };

    fn serves(&self, op: Op) -> bool {
        op.other_key().is_none()
    }

    fn walk(&self, layout: Layout, op: Op) -> SortedWalk {
        far_walks_are_long();
        SortedWalk {
            walk: self.begin(layout, op),
        }
    }

    #[inline(always)]
    fn glance(&self, thunk: &Thunk) -> Option<Glance> {
        glance_of(thunk)
    }

    fn contents(&self, alloc: Global, words: &Words<Self>) -> Result<Vec<(u32, u32)>, AllocError>
        requires structure { self.now ≡ words.now.structure }
        requires stand { (pairs : Pairs) × StandFor list words.now pairs }
        requires closed { NamesNone list words.now }
        ensures contents { IfOk result (λ items. (pairs : Pairs) → StandFor list words.now pairs
            → items.items ≡ entries pairs) }
    {
        self.pairs(alloc, words)
    }

    ghost plans_lawfully = { λ s. list_plans };

    ghost walks_steadily = { λ s. record {
      unmarked = λ layout op readings walk i place word at free. no_mark layout walk.scene.cells walk.pairs op readings
          walk.stands.stands walk.read walk.walk i place word at;
      near = λ layout op readings walk. not_far layout walk.scene.cells walk.pairs op readings walk.stands.stands
          walk.read (is_refused_in (walk_of layout op readings));
    } };

    ghost retires_few = { λ s. few_retires };

    ghost gets_are_light = { λ s. record {
      looks = λ is_map. only_look;
      few = λ layout key readings limits allowed served. get_few layout key readings;
    } };
}
