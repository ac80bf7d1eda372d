//! Requests are planned on the table that moves keys, too.
ghost use Rattle.std.specs.Prelude.{◌≡◌, true, refl, IfOk};
ghost use Rattle.std.specs.FinMap.{entries};
ghost use Rattle.machine_states.specs.map_history.specs.Replay.{Pairs};
ghost use Rattle.machine_states.specs.map_history.specs.declared.op.Op.TheVariants.{Get};
ghost use Rattle.bucket_walks.specs.bucket_laws.specs.Buckets.{moves_meaning};
ghost use Rattle.lock_walks.specs.try_lock.specs.Contents.{StandFor, NamesNone};
ghost use Rattle.bucket_walks.specs.bucket_laws.specs.Halves.{Own, Other};
ghost use Rattle.hash_table.specs.Walking.{is_refused_at};
ghost use Rattle.key_move.specs.Planned.{move_planning, side_in};
ghost use Rattle.bucket_walks.specs.bucket_laws.proofs.Planner.{moves_plan};
ghost use Rattle.machine_states.specs.epoch_core.specs.small_lemmas.proofs.Bools.{from_false};
ghost use Rattle.bucket_walks.specs.bucket_laws.proofs.TwoNear.{moves_near};
ghost use Rattle.bucket_walks.specs.bucket_laws.proofs.Retiring.{few_retires};
ghost use Rattle.bucket_walks.proofs.Gets.{get_few, moves_only_look};

use crate::table::MoveTable;
use crate::walk::MoveWalk;
use hash_table::HashTable;
use lock_walks::version_words::Words;
use lock_walks::{Glance, Planner};
use machine_states::body_terms::Thunk;
use machine_states::map_history::Op;
use machine_states::table_words::Layout;
use std::alloc::{AllocError, Global};

impl Planner for MoveTable {
    type Walk = MoveWalk;

    ghost planning = { λ s. move_planning s.bits };

    fn serves(&self, _op: Op) -> bool {
        true
    }

    fn walk(&self, layout: Layout, op: Op) -> MoveWalk {
        self.begin(layout, op)
    }

    /// That of the hash table, where the section is over one key.
    #[inline(always)]
    fn glance(&self, thunk: &Thunk) -> Option<Glance> {
        if thunk.form > 20 {
            return None;
        }
        HashTable::new(self.bits).glance(thunk)
    }

    fn contents(&self, alloc: Global, words: &Words<Self>) -> Result<Vec<(u32, u32)>, AllocError>
        requires structure { self.now ≡ words.now.structure }
        requires stand { (pairs : Pairs) × StandFor (moves_meaning self.now.bits) words.now pairs }
        requires closed { NamesNone (moves_meaning self.now.bits) words.now }
        ensures contents { IfOk result (λ items. (pairs : Pairs)
            → StandFor (moves_meaning self.now.bits) words.now pairs → items.items ≡ entries pairs) }
    {
        HashTable::new(self.bits).pairs_in(alloc, words)
    }

    ghost plans_lawfully = { λ s. moves_plan s.bits s.few };

    ghost walks_steadily = { λ s. record {
      unmarked = λ layout op readings walk i place word at free mark. from_false mark;
      near = λ layout op readings walk. moves_near s.bits s.few layout walk.scene.cells walk.pairs op readings
          (is_refused_at (side_in s.bits layout op readings Own).stage)
          (is_refused_at (side_in s.bits layout op readings Other).stage) walk.stands.stands walk.read;
    } };

    ghost retires_few = { λ s. few_retires true };

    ghost gets_are_light = { λ s. record {
      looks = λ is_map. moves_only_look s.bits;
      few = λ layout key readings limits allowed served. get_few s.bits layout (Get key) readings;
    } };
}
