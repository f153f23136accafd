//! How the calls of an open store follow one another.

ghost use Rattle.std.specs.Prelude.{◌≡◌, ◌++◌, ℕ, List, [], Some};
ghost use Rattle.lt_terms.specs.Bytes.{Image};
ghost use Rattle.lt_terms.specs.Items.{Item};
ghost use Rattle.lt_device.specs.Moments.{MayLeave, UnsyncedIn};
ghost use Rattle.lt_device.specs.State as told;
ghost use Rattle.lt_language.specs.Machine.{State, nothing_yet};
ghost use Rattle.lt_format.specs.declared.geometry.Geometry.{Geometry};
ghost use Rattle.lt_image.specs.Standing.{Stands, after_writes};
ghost use Rattle.lt_store.specs.Getting.{seen_of};
ghost use Rattle.lt_store.specs.Promise.{AtRest, IsFresh, seen_on};
ghost use Rattle.lt_store.specs.Going.{Goes, Survives, durable_after};
ghost use Rattle.lt_store.specs.Open.{IsOpen, StoreView, state_of};
ghost use Rattle.lt_store.specs.Reading.{Reads};

/// Nothing happened; and a call that went on, or failed, behind those that went on.
pub fn goes_compose()
    ensures none { (v : StoreView) (d : State) (s : told.State) → IsOpen v d s → Goes v [] v d s s }
    ensures more { (v w x : StoreView) (a b : List Item) (d : State) (old mid new : told.State)
        (g : Goes v a w d old mid)
        → Goes w b x (durable_after g) mid new
        → Goes v (a ++ b) x d old new }
    ensures breaks { (v w : StoreView) (a : List Item) (d : State) (old mid new : told.State)
        (g : Goes v a w d old mid)
        → Survives w [] (durable_after g) mid new
        → Survives v a d old new }
    ensures state { (v w : StoreView) (a : List Item) (d : State) (old new : told.State)
        (g : Goes v a w d old new)
        → state_of w (durable_after g) ≡ after_writes
        (state_of v d) a }
{}

/// A device with an open store on it is at rest, and so is one with a fresh store, and one that a crash left.
pub fn open_rests()
    ensures opened { (v : StoreView) (d : State) (s : told.State) → IsOpen v d s → AtRest d s }
    ensures crashed { (d : State) (s : told.State) (image : Image) → s.shown ≡ Some image
        → MayLeave s image → UnsyncedIn (λ _. ⊥) s → Stands image d → AtRest d s }
    ensures seen { (v : StoreView) (image : Image) (r : Reads v image) (key : List ℕ)
        → seen_of v image key ≡ seen_on r.opened image key }
    ensures fresh { (g : Geometry) (extents : ℕ) (s : told.State) → IsFresh g extents s
        → AtRest nothing_yet s }
{}
