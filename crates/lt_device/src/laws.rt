//! The laws of crash images. Each function is empty: its contract is what is proved.
//!
//! What a device tells is data, and each of its calls is an equation on that data. These laws say
//! that the data is the crash model, in both directions, and how clauses on images go on from call
//! to call.

ghost use Rattle.std.specs.Prelude.{◌≡◌, ◌⊎◌, ℕ, ◌+◌, ◌<◌, ◌≤◌, Bool, List, Some, slice_set};
ghost use Rattle.lt_terms.specs.Bytes.{Image, IsBlock, block_at};
ghost use Rattle.lt_device.specs.Calls.{OnlyReads, OnlyWrites, ReadsAndWrites};
ghost use Rattle.lt_device.specs.State.{IsWhole, SameOutside, Epoch, State, synced, written, IsFit, Wrote, EndedSync};
ghost use Rattle.lt_device.specs.Moments.{MayLeave, clock, LeftSince, Leaves, IsNear, ConfinedTo, UnsyncedIn};

use crate::device::Device;

/// A fact of images.
pub trait Fact {
    ghost holds: { Image → Type 0 };
}

/// A set of blocks.
pub trait Region {
    ghost inside: { ℕ → Type 0 };
}

/// What is told keeps the device's size, whatever a call answered.
pub fn stays_fit()
    ensures write { (n b : ℕ) (old new : State) → Wrote n b old new → IsFit n new }
    ensures sync { (n : ℕ) (old new : State) → EndedSync n old new → IsFit n new }
    ensures left { (n : ℕ) (s : State) (left : Image) → IsFit n s
        → MayLeave s left → IsWhole n left }
{}

/// What the device reads as, after each call and whatever it answered.
pub fn blocks_read()
    // after a write that answered Ok the block reads as the page
    ensures written { (n b : ℕ) (old new : State) (page : List ℕ) (image : Image)
        → IsFit n old → b < n → new ≡ written old b page → new.shown ≡ Some image
        → block_at image b ≡ page }
    // after each write all others read as before
    ensures others { (n b : ℕ) (old new : State) (before : Image) → Wrote n b old new
        → old.shown ≡ Some before
        → (image : Image) × (new.shown ≡ Some image) × SameOutside (λ k. k ≡ b) before image }
    // after each sync all do
    ensures synced { (n : ℕ) (old new : State) → EndedSync n old new → new.shown ≡ old.shown }
{}

/// The images that a crash may leave now.
pub fn images_now()
    // what a device reads as is one of them
    ensures reads_as { (n : ℕ) (s : State) (image : Image) (flags : List Bool) → IsFit n s
        → s.shown ≡ Some image → s.unsynced ≡ Some flags → MayLeave s image }
    // after a write each is one of before with some page in that block, and each such one is among
    // them
    ensures write_only { (n b : ℕ) (old new : State) (left : Image) → Wrote n b old new
        → MayLeave new left → IsNear (λ k. k ≡ b) old left }
    ensures write_each { (n b : ℕ) (old new : State) (left : Image) (page : List ℕ)
        → Wrote n b old new → IsBlock page → MayLeave old left → MayLeave new (slice_set left b page) }
    // after a sync that answered Ok what the device reads as is the only one
    ensures sync_only { (n : ℕ) (s : State) (left : Image) → IsFit n s
        → MayLeave (synced s) left → s.shown ≡ Some left }
    ensures sync_reads { (n : ℕ) (s : State) (image : Image) (flags : List Bool) → IsFit n s
        → s.shown ≡ Some image → s.unsynced ≡ Some flags → MayLeave (synced s) image }
{}

/// The images that a crash at some moment since a time might have left.
pub fn images_since()
    // those of now are among them, and since now there is no other
    ensures now { (s : State) (t : ℕ) (left : Image) (epochs : List Epoch) → s.past ≡ Some epochs
        → MayLeave s left → LeftSince s t left }
    ensures since_now { (s : State) (left : Image) → LeftSince s (clock s) left → MayLeave s left }
    // a write adds those of now, and takes none away
    ensures write_adds { (n b : ℕ) (old new : State) (t : ℕ) (left : Image) → Wrote n b old new
        → LeftSince new t left → LeftSince old t left ⊎ MayLeave new left }
    ensures write_keeps { (n b : ℕ) (old new : State) (t : ℕ) (left : Image) → Wrote n b old new
        → LeftSince old t left → LeftSince new t left }
    // a sync adds none, and takes none away
    ensures sync_adds { (n : ℕ) (s : State) (t : ℕ) (left : Image) → IsFit n s → t ≤ clock s
        → LeftSince (synced s) t left → LeftSince s t left }
    ensures sync_keeps { (n : ℕ) (s : State) (t : ℕ) (left : Image) → IsFit n s → t ≤ clock s
        → LeftSince s t left → LeftSince (synced s) t left }
    // where they are told, there is one
    ensures some { (n : ℕ) (s : State) (flags : List Bool) → IsFit n s → s.unsynced ≡ Some flags
        → (left : Image) × MayLeave s left }
{}

/// A fact of each image since a start goes on from call to call.
pub fn composition<P: Fact, Q: Fact>()
    ensures begins { (s : State) → ((left : Image) → MayLeave s left → P.holds left)
        → Leaves P.holds s s }
    // one write more: the fact holds of each image of it, or does not depend on that block
    ensures goes_on { (n b : ℕ) (old mid new : State) → Wrote n b mid new → Leaves P.holds old mid
        → ((image left : Image) → MayLeave mid image → SameOutside (λ k. k ≡ b) image left
        → P.holds left)
        → Leaves P.holds old new }
    ensures writes { (n b : ℕ) (old mid new : State) → Wrote n b mid new → Leaves P.holds old mid
        → ((image left : Image) → SameOutside (λ k. k ≡ b) image left → P.holds image
        → P.holds left)
        → Leaves P.holds old new }
    // one sync more, whatever it answered; a call that leaves what is told
    ensures syncs { (n : ℕ) (old mid new : State) → EndedSync n mid new → Leaves P.holds old mid
        → Leaves P.holds old new }
    ensures stays { (old mid new : State) → new ≡ mid → Leaves P.holds old mid
        → Leaves P.holds old new }
    // a whole call more; a weaker fact
    ensures joins { (old mid new : State) → Leaves Q.holds mid new → Leaves P.holds old mid
        → ((left : Image) → Q.holds left → P.holds left) → Leaves P.holds old new }
    ensures weakens { (old new : State) → Leaves P.holds old new
        → ((left : Image) → P.holds left → Q.holds left) → Leaves Q.holds old new }
    // two facts of each image are one
    ensures both { (old new : State) → Leaves P.holds old new → Leaves Q.holds old new
        → Leaves (λ left. P.holds left × Q.holds left) old new }
    // what holds of each image now holds of one since a time
    ensures some_since { (n : ℕ) (s : State) (t : ℕ) (epochs : List Epoch) → IsFit n s
        → s.past ≡ Some epochs → ((left : Image) → MayLeave s left → P.holds left)
        → (left : Image) × LeftSince s t left × P.holds left }
{}

/// Each image since a start agrees, outside some blocks, with one that a crash could have left
/// then.
pub fn confinement<S: Region, T: Region, P: Fact>()
    ensures begins { (s : State) → ConfinedTo S.inside s s }
    ensures widens { (old new : State) → ConfinedTo S.inside old new
        → ((k : ℕ) → S.inside k → T.inside k) → ConfinedTo T.inside old new }
    // one write more, of one of these blocks
    ensures writes { (n b : ℕ) (old mid new : State) → Wrote n b mid new
        → ConfinedTo S.inside old mid → S.inside b → ConfinedTo S.inside old new }
    // a whole call more
    ensures joins { (old mid new : State) → ConfinedTo T.inside mid new
        → ConfinedTo S.inside old mid → ConfinedTo (λ k. S.inside k ⊎ T.inside k) old new }
    ensures within { (old mid new : State) → ConfinedTo T.inside mid new
        → ConfinedTo S.inside old mid → ((k : ℕ) → T.inside k → S.inside k)
        → ConfinedTo S.inside old new }
    // what does not depend on these blocks is kept
    ensures keeps { (old mid new : State) → ConfinedTo S.inside mid new → Leaves P.holds old mid
        → ((image left : Image) → SameOutside S.inside image left → P.holds image → P.holds left)
        → Leaves P.holds old new }
{}

/// Which blocks were written since the last sync that answered Ok.
pub fn unsynced<S: Region>()
    ensures writes { (n b : ℕ) (old new : State) → Wrote n b old new → UnsyncedIn S.inside old
        → S.inside b → UnsyncedIn S.inside new }
    ensures syncs { (n : ℕ) (old new : State) → EndedSync n old new → UnsyncedIn S.inside old
        → UnsyncedIn S.inside new }
    ensures none { (old new : State) → new ≡ synced old → UnsyncedIn S.inside new }
    // outside them a crash leaves what is read
    ensures near { (s : State) (image left : Image) → UnsyncedIn S.inside s → s.shown ≡ Some image
        → MayLeave s left → SameOutside S.inside image left }
{}

/// Calls of a device, one after another, before an answer.
pub fn calls_go_on<D: Device>()
    ensures reads { (m n k : ℕ) (old mid new : D) → m + n ≤ k → OnlyReads D.Device m ⊥ old mid
        → OnlyReads D.Device n ⊥ mid new → OnlyReads D.Device k ⊥ old new }
    ensures writes { (old mid new : D) → OnlyWrites D.Device ⊥ old mid
        → OnlyWrites D.Device ⊥ mid new → OnlyWrites D.Device ⊥ old new }
    ensures both { (m n k : ℕ) (old mid new : D) → m + n ≤ k → ReadsAndWrites D.Device m ⊥ old mid
        → ReadsAndWrites D.Device n ⊥ mid new → ReadsAndWrites D.Device k ⊥ old new }
{}
