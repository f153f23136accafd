//! How pressed an open store is for extents.

ghost use Rattle.std.specs.Prelude.{◌≡◌, ℕ, None, IsFalse};
ghost use Rattle.std.specs.List.{list_any};
ghost use Rattle.lt_device.specs.State as told;
ghost use Rattle.lt_image.specs.Needs.{is_exhausted, is_paced, is_settled, is_twice_full};
ghost use Rattle.lt_language.specs.Machine.{State};
ghost use Rattle.lt_work.specs.declared.advancing.Wanted.TheVariants as wants;
ghost use Rattle.lt_work.specs.Advancing.{next_wanted};
ghost use Rattle.lt_store.specs.Kept.{IsKept};
ghost use Rattle.lt_store.specs.Open.{IsOpen, StoreView};
ghost use Rattle.lt_store.specs.Pressing.{LeavesAll};

/// Of an open store with no full pile left to begin a job at, each image that a crash may leave is settled, and
/// so it is paced; with no pile left that may have slack either, it is exhausted. With no pile of twice the size
/// that makes it full, it is paced.
pub fn stores_rest()
    ensures settled { (v : StoreView) (d : State) (s : told.State) (filters : ℕ) → IsOpen v d s
        → IsKept v.named v.log v.memory v.taken filters v.writes v.work
        → next_wanted wants.Full v.named.geometry.levels v.named.manifest.trie v.work ≡ None
        → LeavesAll is_settled s }
    ensures rested { (v : StoreView) (d : State) (s : told.State) (filters : ℕ) → IsOpen v d s
        → IsKept v.named v.log v.memory v.taken filters v.writes v.work
        → next_wanted wants.Full v.named.geometry.levels v.named.manifest.trie v.work ≡ None
        → LeavesAll is_paced s }
    ensures exhausted { (v : StoreView) (d : State) (s : told.State) (filters : ℕ) → IsOpen v d s
        → IsKept v.named v.log v.memory v.taken filters v.writes v.work
        → next_wanted wants.Slack v.named.geometry.levels v.named.manifest.trie v.work ≡ None
        → LeavesAll is_exhausted s }
    ensures small { (v : StoreView) (d : State) (s : told.State) (filters : ℕ) → IsOpen v d s
        → IsKept v.named v.log v.memory v.taken filters v.writes v.work
        → IsFalse (list_any (is_twice_full v.named.geometry.levels) v.named.manifest.trie)
        → LeavesAll is_paced s }
{}
