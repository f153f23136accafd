//! What is true of a store's work outlasts what the store does beside it; a ready job's commit keeps what an
//! image stands for, and work comes to an end.

ghost use Rattle.std.specs.Prelude.{◌≡◌, ℕ, ◌<◌, ◌≤◌, ◌||◌, ◌++◌, Bool, true, List, [], None, Ok, Option, IsTrue};
ghost use Rattle.std.specs.Prelude.{length};
ghost use Rattle.lt_terms.specs.Bytes.{Image, is_in};
ghost use Rattle.lt_language.specs.Machine.{State};
ghost use Rattle.lt_alloc.specs.Extents.{AreTaken, Reserves, is_free};
ghost use Rattle.lt_format.specs.declared.geometry.Geometry.{Geometry};
ghost use Rattle.lt_format.specs.Changes.{Change, after_change, flush, freed, new_extents};
ghost use Rattle.lt_format.specs.Snapshot.{Named, after_commit, may_commit};
ghost use Rattle.lt_format.specs.Trie.{IsTrie, Trie, all_distinct, named};
ghost use Rattle.lt_image.specs.After.{SameExtents};
ghost use Rattle.lt_image.specs.Needs.{is_exhausted, is_settled};
ghost use Rattle.lt_image.specs.Standing.{Stands};
ghost use Rattle.lt_image.specs.Versions.{Opened, open_image};
ghost use Rattle.lt_pace.specs.Candidates.{next_full};
ghost use Rattle.lt_compact.specs.Extents.{AllTaken};
ghost use Rattle.lt_work.specs.declared.advancing.Advanced.TheVariants as answers;
ghost use Rattle.lt_work.specs.declared.advancing.Wanted.{Wanted};
ghost use Rattle.lt_work.specs.declared.advancing.Wanted.TheVariants as wants;
ghost use Rattle.lt_work.specs.Advancing.{Works, next_wanted};
ghost use Rattle.lt_work.specs.Committing.{CanCommit, committed_work};
ghost use Rattle.lt_work.specs.Ending.{work_left};
ghost use Rattle.lt_work.specs.Work.{IsTrueOn, SuitsTrie, WorkView, at_rest, flushed_work, reserved_by};

/// Fresh work suits each trie, and is true on each image.
pub fn work_begins()
    ensures suits { (levels : ℕ) (trie : Trie) (taken : List Bool) → SuitsTrie levels trie taken at_rest }
    ensures true_on { (m : Named) (image : Image) → IsTrueOn m image at_rest }
{}

/// What suits and is true stays so over all that leaves the extents that are named and those that the job has
/// reserved, and over a flush into extents that were free.
pub fn work_outlasts()
    ensures same { (m : Named) (old new : Image) (taken : List Bool) (w : WorkView)
        → SuitsTrie m.geometry.levels m.manifest.trie taken w
        → SameExtents m.geometry old new (named m.manifest.trie)
        → SameExtents m.geometry old new (reserved_by w) → IsTrueOn m old w → IsTrueOn m new w }
    ensures flushed { (m n : Named) (old new : Image) (taken : List Bool) (numbers : List ℕ) (w : WorkView)
        → 2 ≤ m.geometry.levels → n.geometry ≡ m.geometry
        → n.manifest.trie ≡ after_change m.manifest.trie (flush numbers)
        → SuitsTrie m.geometry.levels m.manifest.trie taken w
        → SameExtents m.geometry old new (named m.manifest.trie)
        → SameExtents m.geometry old new (reserved_by w) → IsTrueOn m old w
        → IsTrueOn n new (flushed_work w) }
    ensures suits { (levels extents count : ℕ) (trie : Trie) (taken now : List Bool) (numbers : List ℕ)
        (w : WorkView) → 2 ≤ levels → IsTrie levels extents trie → 1 ≤ length numbers
        → Reserves count taken now [] numbers → SuitsTrie levels trie taken w
        → SuitsTrie levels (after_change trie (flush numbers)) now (flushed_work w) }
    ensures alike { (levels : ℕ) (trie : Trie) (taken now : List Bool) (w : WorkView)
        → length now ≡ length taken
        → ((x : ℕ) → x < length taken → is_free now x ≡ is_free taken x)
        → SuitsTrie levels trie taken w → SuitsTrie levels trie now w }
    ensures apart { (levels : ℕ) (trie : Trie) (taken : List Bool) (w : WorkView)
        → SuitsTrie levels trie taken w → IsTrue (all_distinct (named trie))
        → IsTrue (all_distinct (named trie ++ reserved_by w)) }
    ensures below { (levels : ℕ) (trie : Trie) (taken : List Bool) (w : WorkView)
        → SuitsTrie levels trie taken w → (x : ℕ) → is_in x (reserved_by w) ≡ true → x < length taken }
{}

/// The commit of a ready job: its change may be committed and newly names what the job reserved; where the
/// extents that were named and those of the job are as before, and the log too, the new image stands for the
/// state that the old one stood for. What suits and is true stays so, and once the extents that the change
/// frees are given back, those that are taken are the ones that the trie names.
pub fn work_commits()
    ensures may { (m : Named) (taken : List Bool) (w : WorkView) (change : Change) → CanCommit m taken w change
        → IsTrue (may_commit m.geometry.levels m.manifest change m.manifest.header) }
    ensures names { (m : Named) (taken : List Bool) (w : WorkView) (change : Change)
        → CanCommit m taken w change → new_extents change ≡ reserved_by w }
    ensures stands { (old new : Image) (o p : Opened) (taken : List Bool) (w : WorkView) (change : Change)
        (s : State) → open_image old ≡ Ok o → open_image new ≡ Ok p → Stands old s
        → CanCommit o.named taken w change → p.named.geometry ≡ o.named.geometry
        → p.named.manifest ≡ after_commit o.named.manifest change o.named.manifest.header
        → p.groups ≡ o.groups
        → SameExtents o.named.geometry old new (named o.named.manifest.trie)
        → SameExtents o.named.geometry old new (reserved_by w) → IsTrueOn o.named old w → Stands new s }
    ensures true_on { (m n : Named) (old new : Image) (taken : List Bool) (w : WorkView) (change : Change)
        → CanCommit m taken w change → n.geometry ≡ m.geometry
        → n.manifest.trie ≡ after_change m.manifest.trie change
        → SameExtents m.geometry old new (named m.manifest.trie)
        → SameExtents m.geometry old new (reserved_by w) → IsTrueOn m old w
        → IsTrueOn n new (committed_work change w) }
    ensures suits { (levels now_levels : ℕ) (trie now_trie : Trie) (taken now : List Bool) (w : WorkView)
        (change : Change) → SuitsTrie levels trie taken w
        → SuitsTrie now_levels now_trie now (committed_work change w) }
    ensures freed { (m : Named) (taken : List Bool) (w : WorkView) (change : Change)
        → CanCommit m taken w change → AllTaken taken (freed m.manifest.trie change) }
    ensures once { (m : Named) (taken : List Bool) (w : WorkView) (change : Change)
        → CanCommit m taken w change → IsTrue (all_distinct (freed m.manifest.trie change)) }
    ensures in_use { (m : Named) (taken given : List Bool) (w : WorkView) (change : Change)
        → CanCommit m taken w change → length given ≡ length taken
        → ((x : ℕ) → is_free given x ≡ (is_free taken x || is_in x (freed m.manifest.trie change)))
        → AreTaken m.manifest.header.extents (named (after_change m.manifest.trie change)) given }
{}

/// Work comes to an end: each call that answers `More` lowers how much is left, whatever is wanted, and so does each
/// commit. Where what is remembered is true, the image is settled with no full pile left to begin at, and exhausted
/// with no pile left that may have slack either.
pub fn work_ends()
    ensures advances { (wanted : Wanted) (g : Geometry) (old new : Option Image) (trie : Trie)
        (taken now : List Bool) (v w : WorkView) → g.levels ≤ 5 → IsTrie g.levels 65536 trie
        → length taken ≤ 65536 → SuitsTrie g.levels trie taken v
        → Works wanted g old new trie taken now v w answers.More
        → work_left g.levels trie w < work_left g.levels trie v }
    ensures commits { (m : Named) (taken : List Bool) (w : WorkView) (change : Change)
        → CanCommit m taken w change
        → work_left m.geometry.levels (after_change m.manifest.trie change) (committed_work change w)
        < work_left m.geometry.levels m.manifest.trie w }
    ensures settled { (m : Named) (image : Image) (extents : ℕ) (w : WorkView)
        → IsTrie m.geometry.levels extents m.manifest.trie → IsTrueOn m image w
        → next_full m.geometry.levels m.manifest.trie w.passed_over ≡ None
        → IsTrue (is_settled m image) }
    ensures exhausted { (m : Named) (image : Image) (extents : ℕ) (w : WorkView)
        → IsTrie m.geometry.levels extents m.manifest.trie → IsTrueOn m image w
        → next_wanted wants.Slack m.geometry.levels m.manifest.trie w ≡ None
        → IsTrue (is_exhausted m image) }
{}
