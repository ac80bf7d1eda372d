//! Requests are planned on the hash table.
ghost use Rattle.std.specs.Prelude.{◌≡◌, false, IfOk, IfSome};
ghost use Rattle.std.specs.FinMap.{entries};
ghost use Rattle.machine_states.specs.map_history.specs.Replay.{Pairs};
ghost use Rattle.machine_states.specs.map_history.specs.declared.op.Op.TheVariants.{Get};
ghost use Rattle.bucket_walks.specs.bucket_laws.specs.bucket_bodies.specs.Table.{table_steps};
ghost use Rattle.bucket_walks.specs.bucket_laws.specs.Buckets.{buckets_meaning};
ghost use Rattle.lock_walks.specs.Glances.{glanced};
ghost use Rattle.lock_walks.specs.try_lock.specs.Contents.{StandFor, NamesNone};
ghost use Rattle.hash_table.specs.Planned.{bucket_planning, walk_in};
ghost use Rattle.hash_table.specs.Walking.{is_refused_at};
ghost use Rattle.bucket_walks.specs.bucket_laws.proofs.Planner.{buckets_plan};
ghost use Rattle.machine_states.specs.epoch_core.specs.small_lemmas.proofs.Bools.{from_false};
ghost use Rattle.bucket_walks.specs.bucket_laws.proofs.Near.{not_far};
ghost use Rattle.bucket_walks.specs.bucket_laws.proofs.Retiring.{few_retires};
ghost use Rattle.bucket_walks.proofs.Gets.{get_few, only_look};

use crate::table::HashTable;
use crate::walk::BucketWalk;
use lock_walks::version_words::Words;
use lock_walks::{Glance, Planner, WantedCell};
use machine_states::body_terms::Thunk;
use machine_states::map_history::Op;
use machine_states::table_words::Layout;
use std::alloc::{AllocError, Global};

/// A section that changes nothing looks at its bucket's edition.
#[inline(always)]
fn glance_of(thunk: &Thunk) -> Option<Glance>
    ensures { IfSome result (λ g. glanced g ≡ table_steps thunk.now) }
{
    if thunk.form != 1 {
        return None;
    }
    let edition = thunk.lock.checked_add(1)?;
    Some(Glance {
        first: WantedCell::new(edition, thunk.operands[0]),
        second: None,
        reply: thunk.operands[1],
    })
}

impl Planner for HashTable {
    type Walk = BucketWalk;

    ghost planning = { λ s. bucket_planning s.bits };

    fn serves(&self, op: Op) -> bool {
        op.other_key().is_none()
    }

    fn walk(&self, layout: Layout, op: Op) -> BucketWalk {
        self.begin(layout, op)
    }

    #[inline(always)]
    fn glance(&self, thunk: &Thunk) -> Option<Glance> {
        glance_of(thunk)
    }

    fn contents(&self, alloc: Global, words: &Words<Self>) -> Result<Vec<(u32, u32)>, AllocError>
        requires structure { self.now ≡ words.now.structure }
        requires stand { (pairs : Pairs) × StandFor (buckets_meaning self.now.bits) words.now pairs }
        requires closed { NamesNone (buckets_meaning self.now.bits) words.now }
        ensures contents { IfOk result (λ items. (pairs : Pairs)
            → StandFor (buckets_meaning self.now.bits) words.now pairs → items.items ≡ entries pairs) }
    {
        self.pairs_in(alloc, words)
    }

    ghost plans_lawfully = { λ s. buckets_plan s.bits s.few };

    ghost walks_steadily = { λ s. record {
      unmarked = λ layout op readings walk i place word at free mark. from_false mark;
      near = λ layout op readings walk. not_far s.bits s.few layout walk.scene.cells walk.pairs op readings
          (is_refused_at (walk_in s.bits layout op readings).stage) walk.stands.stands walk.read;
    } };

    ghost retires_few = { λ s. few_retires false };

    ghost gets_are_light = { λ s. record {
      looks = λ is_map. only_look s.bits;
      few = λ layout key readings limits allowed served. get_few s.bits layout (Get key) readings;
    } };
}
