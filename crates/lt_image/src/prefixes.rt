//! Images that have first writes of a list.

ghost use Rattle.std.specs.Prelude.{◌≡◌, ℕ, ◌+◌, ◌≤◌, List, ◌++◌, length};
ghost use Rattle.lt_terms.specs.Bytes.{Image};
ghost use Rattle.lt_terms.specs.Items.{Item};
ghost use Rattle.lt_language.specs.Machine.{State};
ghost use Rattle.lt_image.specs.Standing.{Stands, IsPrefix, after_writes};

/// An image stands for one state.
pub fn images_stand_for_one()
    ensures { (image : Image) (s t : State) → Stands image s → Stands image t → s ≡ t }
{}

/// An image that stands for the state after some writes has them all, and one that stands for the
/// state before has none of them. An image that has first writes of some has them of a longer list,
/// and of one that begins earlier.
pub fn prefixes_grow()
    ensures whole { (image : Image) (s : State) (writes : List Item) → Stands image (after_writes s writes)
        → IsPrefix image s writes (length writes) }
    ensures none { (image : Image) (s : State) (writes : List Item) → Stands image s → IsPrefix image s writes 0 }
    ensures fewer { (image : Image) (s : State) (writes : List Item) (j k : ℕ) → j ≤ k → IsPrefix image s writes k
        → IsPrefix image s writes j }
    ensures longer { (image : Image) (s : State) (writes more : List Item) (k : ℕ) → IsPrefix image s writes k
        → IsPrefix image s (writes ++ more) k }
    ensures earlier { (image : Image) (s : State) (first rest : List Item) (k : ℕ)
        → IsPrefix image (after_writes s first) rest k → IsPrefix image s (first ++ rest) (length first + k) }
{}
