//! Puts and deletes.

ghost use Rattle.std.specs.Prelude.{◌≡◌, ◌↔◌, ℕ, ◌+◌, ◌<◌, ◌≤◌, ◌≢◌, true, false, [], Ok, Some, None, IfOk, IsErrOf};
ghost use Rattle.std.specs.Prelude.{IsOk, IsTrue, OnOk, length};
ghost use Rattle.lt_terms.specs.Items.{is_valid, item_cost, total_cost, put_of, delete_of};
ghost use Rattle.lt_alloc.specs.declared.extents.Short.{Short};
ghost use Rattle.lt_item.specs.Views.{item_of};
ghost use Rattle.lt_language.specs.Machine.{most_writes};
ghost use Rattle.lt_format.specs.Log.{group_room};
ghost use Rattle.lt_store.specs.Committing.{Relogs};
ghost use Rattle.lt_store.specs.Going.{appended};
ghost use Rattle.lt_store.specs.Open.{blocks_of};
ghost use Rattle.lt_store.specs.Taking.{accepted_by, is_due, readied, IsFull, LeavesFull};
ghost use Rattle.lt_store.specs.View.{view_of};
ghost use Rattle.lt_store.specs.Calls.{Commits, Flushes, GoesOn, LivesOn, TakesItem, Unchanged, WhereOpen};

use crate::faults::{FlushFault, WriteFault};
use crate::store::Store;
use lt_alloc::Short;
use lt_device::Device;
use lt_item::{ItemView, Kind, cost, parts_of};
use lt_page::Failed;
use std::alloc::Global;

/// Above so many bytes in the memory table a flush is due.
const FLUSH_BYTES: u32 = 200_000;

/// What became of a put or a delete.
#[derive(Clone, Copy, Debug, PartialEq, Eq)]
pub enum Taken {
    Ok,
    /// A flush is due, and needs more extents than are free.
    Full { needed: u32, free: u32 },
    /// The number of writes is at its limit.
    Limit,
}

impl Store {
    /// Takes a put of a valid item. It is durable once a commit that follows answered Ok.
    ///
    /// `Limit` comes exactly where the number of writes is at its limit, and then nothing has changed.
    /// The open group is committed first where the item has no room in it or the memory table has too
    /// many bytes, and then the newest items of the memory table become tables of the root where no
    /// slot is left for a group or there are too many bytes. `Full` comes where these tables need more
    /// extents than are free. With room in the open group and no flush due, no call of the device is
    /// made.
    pub fn put<D: Device>(
        &mut self,
        alloc: Global,
        device: &mut D,
        key: &[u8],
        value: &[u8],
    ) -> Result<Taken, WriteFault>
        requires up { self.old.is_up ≡ true }
        requires valid { IsTrue (is_valid (put_of key.now value.now)) }
        requires within { blocks_of (view_of self.old) ≤ D.blocks device.old }
        ensures taken { IfOk result (λ answer. GoesOn D.Device self.old
            (accepted_by (put_of key.now value.now) answer) self.new device.old device.new) }
        ensures limit { (result ≡ Ok Taken.Limit) ↔ (self.old.writes ≡ most_writes) }
        ensures full { (needed free : ℕ) → result ≡ Ok (Taken.Full needed free)
            → IsFull (view_of self.new) needed free }
        ensures all { TakesItem D.Device (put_of key.now value.now) self.old self.new result
            device.old device.new }
    {
        let item = ItemView {
            kind: Kind::Put,
            key,
            value,
        };
        self.write(alloc, device, &item)
    }

    /// Takes a delete of a key, as a put is taken.
    pub fn delete<D: Device>(
        &mut self,
        alloc: Global,
        device: &mut D,
        key: &[u8],
    ) -> Result<Taken, WriteFault>
        requires up { self.old.is_up ≡ true }
        requires valid { IsTrue (is_valid (delete_of key.now)) }
        requires within { blocks_of (view_of self.old) ≤ D.blocks device.old }
        ensures taken { IfOk result (λ answer. GoesOn D.Device self.old
            (accepted_by (delete_of key.now) answer) self.new device.old device.new) }
        ensures limit { (result ≡ Ok Taken.Limit) ↔ (self.old.writes ≡ most_writes) }
        ensures full { (needed free : ℕ) → result ≡ Ok (Taken.Full needed free)
            → IsFull (view_of self.new) needed free }
        ensures all { TakesItem D.Device (delete_of key.now) self.old self.new result
            device.old device.new }
    {
        let item = ItemView {
            kind: Kind::Delete,
            key,
            value: &[],
        };
        self.write(alloc, device, &item)
    }

    fn write<D: Device>(
        &mut self,
        alloc: Global,
        device: &mut D,
        item: &ItemView<'_>,
    ) -> Result<Taken, WriteFault>
        requires up { self.old.is_up ≡ true }
        requires valid { IsTrue (is_valid (item_of item.now)) }
        requires within { blocks_of (view_of self.old) ≤ D.blocks device.old }
        ensures { TakesItem D.Device (item_of item.now) self.old self.new result device.old
            device.new }
    {
        if self.writes == u64::MAX {
            return Ok(Taken::Limit);
        }
        self.commit_full(device, cost(item))?;
        match self.flush_due(alloc, device)? {
            None => {
                self.append(item);
                Ok(Taken::Ok)
            }
            Some(Short { needed, free }) => Ok(Taken::Full { needed, free }),
        }
    }

    /// Commits the open group where an item of this cost has no room in it, or the memory table has too
    /// many bytes.
    fn commit_full<D: Device>(&mut self, device: &mut D, cost: u16) -> Result<(), Failed>
        requires up { self.old.is_up ≡ true }
        requires within { blocks_of (view_of self.old) ≤ D.blocks device.old }
        requires cost { cost ≤ group_room }
        ensures rest { OnOk result (Relogs (view_of self.old) (view_of self.new)) }
        ensures room { OnOk result (total_cost self.new.log.pending + cost ≤ group_room) }
        ensures small { OnOk result (0 < length self.new.log.pending
            → total_cost self.new.memory ≤ 200000) }
        ensures commits { Commits D.Device self.old self.new result device.old device.new }
        ensures ready { OnOk result (view_of self.new ≡ readied (view_of self.old) cost) }
        ensures idle { self.old.log.pending ≡ [] → device.new ≡ device.old }
        ensures at_once { total_cost self.old.memory ≤ 200000
            → total_cost self.old.log.pending + cost ≤ group_room
            → IsOk result × (view_of self.new ≡ view_of self.old) × (device.new ≡ device.old) }
    {
        if self.log.room() >= cost && self.memory.bytes() <= FLUSH_BYTES {
            return Ok(());
        }
        self.commit(device)
    }

    /// Flushes where nothing is pending and no slot is left or the memory table has too many bytes.
    fn flush_due<D: Device>(
        &mut self,
        alloc: Global,
        device: &mut D,
    ) -> Result<Option<Short>, FlushFault>
        requires up { self.old.is_up ≡ true }
        requires within { blocks_of (view_of self.old) ≤ D.blocks device.old }
        requires small { 0 < length self.old.log.pending → total_cost self.old.memory ≤ 200000 }
        ensures lives { LivesOn D.Device self.old self.new result device.old device.new }
        ensures not_due { is_due (view_of self.old) ≡ false → (result ≡ Ok None)
            × (view_of self.new ≡ view_of self.old) × (device.new ≡ device.old) }
        ensures flushed { is_due (view_of self.old) ≡ true → result ≡ Ok None
            → Flushes D.Device self.old self.new device.old device.new }
        ensures short { (short : Short) → result ≡ Ok (Some short)
            → Unchanged self.old self.new device.old device.new }
        ensures pending { self.new.is_up ≡ true → self.new.log.pending ≡ self.old.log.pending }
        ensures small { result ≡ Ok None → total_cost self.new.memory ≤ 200000 }
        ensures slot { result ≡ Ok None → self.new.log.slots < self.new.manifest.geometry.slots }
        ensures full { (short : Short) → result ≡ Ok (Some short)
            → IsFull (view_of self.new) short.needed short.free }
        ensures full_images { (short : Short) → result ≡ Ok (Some short) → self.old.work.job ≡ None
            → WhereOpen D.Device self.old device.old
            (λ _. LeavesFull (view_of self.old) (D.state device.new) short.needed short.free) }
    {
        let has_slot = self.log.slots_left() > 0;
        if self.log.pending() > 0 || has_slot && self.memory.bytes() <= FLUSH_BYTES {
            return Ok(None);
        }
        self.flush(alloc, device)
    }

    /// Adds a write to the open group and to the memory table.
    fn append(&mut self, item: &ItemView<'_>)
        requires up { self.old.is_up ≡ true }
        requires valid { IsTrue (is_valid (item_of item.now)) }
        requires room { total_cost self.old.log.pending + item_cost (item_of item.now) ≤ group_room }
        requires small { total_cost self.old.memory ≤ 200000 }
        requires slot { self.old.log.slots < self.old.manifest.geometry.slots }
        requires number { self.old.writes ≢ most_writes }
        ensures { view_of self.new ≡ appended (view_of self.old) (item_of item.now) }
    {
        self.log.append(item).unwrap();
        self.memory.add(item, &parts_of(item.key));
        self.writes += 1;
        self.refused = None;
    }
}
