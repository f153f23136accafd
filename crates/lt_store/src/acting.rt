//! The calls of a store as events.

ghost use Rattle.std.specs.Prelude.{IfSome, ◌≡◌, ◌↔◌, ℕ, List, ◌≤◌, true, false, [], Ok, Some, IfOk, IsErrOf};
ghost use Rattle.std.specs.Prelude.{IsSome, IsTrue, OnErr, OnOk};
ghost use Rattle.lt_terms.specs.Bytes.{Image};
ghost use Rattle.lt_terms.specs.Causes.{Rose};
ghost use Rattle.lt_device.specs.Reads.{CountsAtMost};
ghost use Rattle.lt_language.specs.Commands as commands;
ghost use Rattle.lt_language.specs.Machine.{most_writes};
ghost use Rattle.lt_store.specs.Acting.{IsStopped, KeepsOut, MayAct, TellsSeen, accepted_as, command_of};
ghost use Rattle.lt_store.specs.Acting.{most_reads_by, only_asks, reply_of, write_of, IsKind, IsOwn, IsStepOf};
ghost use Rattle.lt_store.specs.Committing.{committed};
ghost use Rattle.lt_store.specs.Counts.{Tells};
ghost use Rattle.lt_store.specs.Getting.{KeepsBound, seen_of};
ghost use Rattle.lt_store.specs.Open.{SameRegions, blocks_of};
ghost use Rattle.lt_store.specs.Taking.{IsFull};
ghost use Rattle.lt_store.specs.View.{view_of};
ghost use Rattle.lt_store.specs.Calls.{EventInPlace, EventWritten, GoesOn, KeepsGroup, LosesNothing, WhereOpen};

use crate::counts::Stat;
use crate::faults::WriteFault;
use crate::store::Store;
use crate::writing::Taken;
use lt_device::Device;
use lt_page::Page;
use std::alloc::Global;

/// A call of a store.
#[derive(Clone, Copy)]
pub enum EventView<'a> {
    Put { key: &'a [u8], value: &'a [u8] },
    Delete { key: &'a [u8] },
    Get { key: &'a [u8] },
    Stat,
    Commit,
}

/// What an event came to. The value of a get stands at the front of a page.
#[derive(Clone, Copy, Debug, PartialEq, Eq)]
pub enum Outcome {
    Taken(Taken),
    Value(u16),
    Missing,
    Stat(Stat),
    Committed,
}

impl Store {
    /// Makes the call that an event names. A put and a delete are of a valid item.
    ///
    /// It is a step of the map machine, and a commit makes all writes durable. `NoMemory` comes only of
    /// a put or a delete, and `Damaged` only of a get. After `Device` the store is down, but for a get,
    /// which leaves it as it is.
    pub fn act<D: Device>(
        &mut self,
        alloc: Global,
        device: &mut D,
        event: EventView<'_>,
        out: &mut Page,
    ) -> Result<Outcome, WriteFault>
        requires up { self.old.is_up ≡ true }
        requires valid { MayAct event }
        requires within { blocks_of (view_of self.old) ≤ D.blocks device.old }

        // The command and its outcome are a step of the map machine.
        ensures step { IfOk result (λ outcome. WhereOpen D.Device self.old device.old
            (λ durable. IsOwn (view_of self.old) outcome
            → IsStepOf (view_of self.old) durable event.entry outcome out.new)) }

        // Whatever the device tells, the reply is of its command's kind.
        ensures kind { IfOk result (λ outcome.
            IsKind (command_of event.entry) (reply_of outcome out.new)) }

        // The store goes on, with the write that was taken; and whatever it answers, nothing is lost at any moment.
        ensures goes { IfOk result (λ outcome. GoesOn D.Device self.old
            (accepted_as outcome (write_of event.entry)) self.new device.old device.new) }
        ensures goes_on { OnErr result (self.new.is_up ≡ true
            → GoesOn D.Device self.old [] self.new device.old device.new) }
        ensures broken { OnErr result (LosesNothing D.Device self.old device.old device.new) }

        // The open group is there as a whole, or not at all.
        ensures whole { KeepsGroup D.Device self.old device.old device.new }

        ensures committed { command_of event.entry ≡ None
            → OnOk result (view_of self.new ≡ committed (view_of self.old)) }
        ensures asked { IsTrue (only_asks event.entry) → (view_of self.new ≡ view_of self.old)
            × (D.state device.new ≡ D.state device.old) }
        ensures limit { (result ≡ Ok (Outcome.Taken Taken.Limit)) ↔ (IsSome (write_of event.entry)
            × (self.old.writes ≡ most_writes)) }
        ensures full { (needed free : ℕ) → result ≡ Ok (Outcome.Taken (Taken.Full needed free))
            → IsFull (view_of self.new) needed free }

        // A put or a delete.
        ensures writes { IfSome (write_of event.entry) (λ item.
            EventWritten D.Device item self.old self.new result device.old device.new) }
        ensures in_place { EventInPlace D.Device (write_of event.entry) self.old self.new result
            device.old device.new }

        ensures idle { command_of event.entry ≡ None → self.old.log.pending ≡ []
            → (result ≡ Ok Outcome.Committed) × (device.new ≡ device.old) }
        ensures stat { (s : Stat) → result ≡ Ok (Outcome.Stat s)
            → Tells D.Device (view_of self.old) s device.old }
        ensures page { KeepsOut result out.old out.new }

        // Whatever the blocks hold, a get answers what it sees of the key, or the block that spells no bucket.
        ensures seen { (key : List ℕ) (image : Image)
            → command_of event.entry ≡ Some (commands.get key)
            → (D.state device.old).shown ≡ Some image
            → TellsSeen (seen_of (view_of self.old) image key) out.new result }
        ensures value { (n : ℕ) → result ≡ Ok (Outcome.Value n) → n ≤ 3000 }
        ensures memory { IsErrOf result WriteFault.NoMemory → IsSome (write_of event.entry) }
        ensures damaged { (b : ℕ) → IsErrOf result (WriteFault.Damaged b)
            → IsStopped self.old.manifest (D.state device.new).shown event.entry b }
        ensures sound { (b : ℕ) → WhereOpen D.Device self.old device.old
            (λ _. IsErrOf result (WriteFault.Damaged b) → ⊥) }
        ensures cause { IsErrOf result WriteFault.Device
            → Rose (D.faults device.old) (D.faults device.new) }
        ensures later { D.faults device.old ≤ D.faults device.new }
        ensures up { (self.new.is_up ≡ false) ↔ (IsErrOf result WriteFault.Device
            × (only_asks event.entry ≡ false)) }
        ensures regions { self.new.is_up ≡ true
            → SameRegions (view_of self.old) (view_of self.new) }
        ensures job { self.new.is_up ≡ true → self.new.work.job ≡ self.old.work.job }
        ensures size { D.blocks device.new ≡ D.blocks device.old }
        ensures count { write_of event.entry ≡ None
            → CountsAtMost (most_reads_by (view_of self.old) event.entry) (D.reads device.old)
            (D.reads device.new) }
        ensures bound { (key : List ℕ) → command_of event.entry ≡ Some (commands.get key)
            → WhereOpen D.Device self.old device.old
            (λ _. KeepsBound D.Device self.old.log.pending key device.old device.new) }
    {
        match event {
            EventView::Put { key, value } => {
                Ok(Outcome::Taken(self.put(alloc, device, key, value)?))
            }
            EventView::Delete { key } => Ok(Outcome::Taken(self.delete(alloc, device, key)?)),
            EventView::Get { key } => match self.get(device, key, out)? {
                Some(len) => Ok(Outcome::Value(len)),
                None => Ok(Outcome::Missing),
            },
            EventView::Stat => Ok(Outcome::Stat(self.stat(device))),
            EventView::Commit => {
                self.commit(device)?;
                Ok(Outcome::Committed)
            }
        }
    }
}
