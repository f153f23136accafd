//! The log in memory: its open group, and its place on the device.

ghost use Rattle.std.specs.Prelude.{◌≡◌, ℕ, ◌+◌, ◌*◌, ◌<◌, ◌≤◌, ◌↔◌, [], List, true, false, length};
ghost use Rattle.std.specs.Prelude.{IsTrue, IfOk, IsOk, IsErr, IsErrOf, OnOk, OnErr};
ghost use Rattle.std.specs.List.{list_all};
ghost use Rattle.lt_terms.specs.Items.{is_valid, total_cost};
ghost use Rattle.lt_item.specs.Views.{item_of};
ghost use Rattle.lt_device.specs.Calls.{OnlyReads, OnlyWrites, TouchesOnly};
ghost use Rattle.lt_device.specs.Faults.{FaultIn};
ghost use Rattle.lt_device.specs.Moments.{UnsyncedIn, MayOnlyLeave};
ghost use Rattle.lt_format.specs.Layout.{is_geometry, extent_block};
ghost use Rattle.lt_format.specs.Log.{group_room, log_fits};
ghost use Rattle.lt_redo.specs.LogState.{AnyMoment, Committed, EmptiesOther, HasNoRoom, HasSlot, HasZeroOther};
ghost use Rattle.lt_redo.specs.LogState.{InNextSlot, InOther, IsPlace, LogState, Spelled, committed, idle_log, turned};
ghost use Rattle.lt_redo.specs.LogState.{with_pending};
ghost use Rattle.lt_redo.specs.Opening.{IsReadLog, TellsDamage};
ghost use Rattle.lt_redo.specs.Slots.{InLogArea};

use crate::clear::close_gates;
use crate::group::{GROUP_ROOM, finish, gather};
use crate::opening::replay;
use crate::slot::write_slot;
use lt_bucket::Item;
use lt_device::Device;
use lt_format::Geometry;
use lt_item::{ItemView, cost};
use lt_layout::{OpenFault, write_gate};
use lt_page::{Failed, NoMemory, Page};
use std::alloc::Global;
use std::marker::Model;

/// The open group has no room for the item.
#[derive(Clone, Copy, Debug, PartialEq, Eq)]
pub struct GroupFull;

/// A log over one log area of two. Its open group is in memory alone.
#[derive(Drop)]
pub struct Log {
    geometry: Geometry,
    area: u8,
    writes: u64,
    slots: u16,
    content: Page,
    count: u16,
    used: u16,
    cleared: bool,
    opened: Page,
    closed: Page,
}

impl Model for Log {
    ghost use Rattle.lt_redo.specs.LogState.{LogState};

    ghost Value = { LogState };

    ghost use Rattle.lt_redo.specs.LogView.{log_of, IsKept};

    ghost view = { log_of };

    ghost invariant = { IsKept };
}

impl Log {
    /// Opens the log of a log area that began at this number of writes, the manifest's, and gives the
    /// items of its groups in their order. It writes nothing. All memory that the log will need is
    /// taken here.
    ///
    /// `Damaged` is the first block that does not stand: a gate that is open behind a closed one, or a
    /// content behind an open gate that spells no group, or one with which the log would cost more than
    /// 204,092 bytes or pass the greatest number of writes.
    pub fn open<D: Device>(
        alloc: Global,
        device: &mut D,
        geometry: &Geometry,
        area: u8,
        writes: u64,
    ) -> Result<(Log, Vec<Item>), OpenFault>
        requires valid { IsTrue (is_geometry geometry.now) }
        requires area { area < 2 }
        requires within { extent_block geometry.now 0 ≤ D.blocks device.old }
        ensures log { IfOk result
            (λ opened. opened.0 ≡ idle_log geometry.now area writes opened.0.slots) }
        ensures read { IfOk result (λ opened. IsReadLog geometry.now area writes
            opened.0.slots opened.1.items (D.state device.old).shown) }

        // Whatever the device tells.
        ensures items { IfOk result (λ opened. IsTrue (list_all is_valid opened.1.items)) }
        ensures fits { IfOk result (λ opened. IsTrue (log_fits writes opened.1.items)) }

        ensures damaged { TellsDamage result geometry.now area writes (D.state device.old).shown }
        ensures damaged_block { FaultIn result OpenFault.Damaged (InLogArea geometry.now area) }
        ensures calls { OnlyReads D.Device (2 * geometry.now.slots)
            (IsErrOf result OpenFault.Device)
            device.old device.new }
    {
        let mut page = Page::new(alloc)?;
        let (slots, read) = replay(alloc, device, geometry, area, writes, &mut page)?;
        let log = Log::at(alloc, geometry, area, writes, slots, page)?;
        Ok((log, read.items))
    }

    /// A log with this many groups and nothing pending, which keeps the page for its open group.
    fn at(
        alloc: Global,
        geometry: &Geometry,
        area: u8,
        writes: u64,
        slots: u16,
        mut content: Page,
    ) -> Result<Log, NoMemory>
        requires { IsPlace geometry.now area slots }
        ensures { IfOk result (λ log. log ≡ idle_log geometry.now area writes slots) }
    {
        content.clear();
        let mut opened = Page::new(alloc)?;
        write_gate(&mut opened, true);
        let mut closed = Page::new(alloc)?;
        write_gate(&mut closed, false);
        Ok(Log {
            geometry: *geometry,
            area,
            writes,
            slots,
            content,
            count: 0,
            used: 0,
            cleared: false,
            opened,
            closed,
        })
    }

    /// Adds an item to the open group, in memory only. `GroupFull` exactly where the group would cost
    /// more than 4,092 bytes, and then nothing changes.
    pub fn append(&mut self, item: &ItemView<'_>) -> Result<(), GroupFull>
        requires { IsTrue (is_valid (item_of item.now)) }
        ensures ok { OnOk result (self.new ≡ with_pending self.old (item_of item.now)) }
        ensures full { IsErr result ↔ HasNoRoom self.old (item_of item.now) }
        ensures err { OnErr result (self.new ≡ self.old) }
    {
        if self.used + cost(item) > GROUP_ROOM {
            return Err(GroupFull);
        }
        self.used = gather(&mut self.content, self.used, item);
        self.count += 1;
        Ok(())
    }

    /// How many items the open group has.
    pub fn pending(&self) -> u16
        ensures { result ≡ length self.now.pending }
    {
        self.count
    }

    /// How many slots hold no group.
    pub fn slots_left(&self) -> u16
        ensures { result + self.now.slots ≡ self.now.geometry.slots }
    {
        self.geometry.slots - self.slots
    }

    /// How many bytes the open group has room for.
    pub fn room(&self) -> u16
        ensures { result + total_cost self.now.pending ≡ group_room }
    {
        GROUP_ROOM - self.used
    }

    /// Commits the open group, which is empty then. With an empty group it makes no call of the device.
    /// After `Failed` the store is opened again.
    pub fn commit<D: Device>(&mut self, device: &mut D) -> Result<(), Failed>
        requires within { extent_block self.old.geometry 0 ≤ D.blocks device.old }
        requires room { HasSlot self.old }
        ensures ok { OnOk result (self.new ≡ committed self.old) }
        ensures err { OnErr result (self.new ≡ self.old) }
        ensures idle { self.old.pending ≡ [] → (IsOk result × (device.new ≡ device.old)) }

        // Each image since the start has the log as before, or with the whole open group; after Ok only
        // the latter.
        ensures any_moment { AnyMoment self.old (D.state device.old) (D.state device.new) }
        ensures committed { OnOk result
            (Committed self.old (D.state device.old) (D.state device.new)) }

        // The slot holds the group in its one spelling, whatever stood on the device before.
        ensures spelled { OnOk result (Spelled self.old (D.state device.new)) }
        ensures touches { TouchesOnly D.Device (InNextSlot self.old) device.old device.new }
        ensures sure { OnOk result (0 < length self.old.pending
            → UnsyncedIn (λ _. ⊥) (D.state device.new)) }
        ensures calls { OnlyWrites D.Device (IsErr result) device.old device.new }
    {
        if self.count == 0 {
            return Ok(());
        }
        finish(&mut self.content, self.count, self.used);
        write_slot(
            device,
            &self.geometry,
            self.area,
            self.slots,
            &self.content,
            &self.opened,
        )?;
        self.content.clear();
        self.count = 0;
        self.used = 0;
        self.slots += 1;
        Ok(())
    }

    /// Closes all gates of the other area and makes sure of that.
    pub fn clear_other<D: Device>(&mut self, device: &mut D) -> Result<(), Failed>
        requires { extent_block self.old.geometry 0 ≤ D.blocks device.old }
        ensures ok { OnOk result (self.new ≡ record self.old { cleared = true }) }
        ensures err { OnErr result (self.new ≡ self.old) }
        ensures zeros { OnOk result (MayOnlyLeave (HasZeroOther self.old) (D.state device.new)) }
        ensures empty { OnOk result (EmptiesOther self.old (D.state device.new)) }
        ensures touches { TouchesOnly D.Device (InOther self.old) device.old device.new }
        ensures sure { OnOk result (UnsyncedIn (λ _. ⊥) (D.state device.new)) }
        ensures calls { OnlyWrites D.Device (IsErr result) device.old device.new }
    {
        close_gates(device, &self.geometry, 1 - self.area, &self.closed)?;
        device.sync()?;
        self.cleared = true;
        Ok(())
    }

    /// Goes to the other area, whose log starts at this number of writes.
    pub fn turn(&mut self, writes: u64)
        requires cleared { self.old.cleared ≡ true }
        requires empty { self.old.pending ≡ [] }
        ensures { self.new ≡ turned self.old writes }
    {
        self.area = 1 - self.area;
        self.writes = writes;
        self.slots = 0;
        self.cleared = false;
    }
}
