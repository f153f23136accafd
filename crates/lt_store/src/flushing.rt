//! Flushes: the newest items of the memory table become tables of the root.

ghost use Rattle.std.specs.Prelude.{◌≡◌, ℕ, ◌<◌, ◌≤◌, true, false, Bool, List, [], Ok, Some, None, All, IsErrOf};
ghost use Rattle.std.specs.Prelude.{IsTrue, ◌||◌, OnOk, length, map};
ghost use Rattle.lt_terms.specs.Bytes.{is_in};
ghost use Rattle.lt_tables.specs.Cut.{cut};
ghost use Rattle.lt_tables.specs.Table.{newest};
ghost use Rattle.lt_alloc.specs.Extents.{is_free};
ghost use Rattle.lt_format.specs.Trie.{all_distinct};
ghost use Rattle.lt_htable.specs.Cutting.{IsPart};
ghost use Rattle.lt_store.specs.Flushing.{HasTables, IsShort, Stays, flushed, IsReserved, KeptWith};
ghost use Rattle.lt_alloc.specs.declared.extents.Short.{Short};
ghost use Rattle.lt_store.specs.Open.{IsOpen, blocks_of};
ghost use Rattle.lt_store.specs.View.{view_of};
ghost use Rattle.lt_store.specs.Calls.{Flushes, Installs, KeepsDurable, LivesOn, StaysOpen, Unchanged, WhereOpen};
ghost use Rattle.lt_store.specs.Calls.{WherePrepared};

use crate::building::build_tables;
use crate::faults::FlushFault;
use crate::store::Store;
use lt_alloc::{Extents, Short};
use lt_bucket::Item;
use lt_device::Device;
use lt_htable::tables_of;
use lt_node::{Change, Header, Numbers};
use std::alloc::Global;

impl Store {
    /// Makes the newest items of the memory table tables of the root, and goes to the other log area.
    /// Nothing is pending. Where the tables need more extents than are free, nothing has changed and both
    /// numbers are answered; want of memory leaves the store as it is.
    pub(super) fn flush<D: Device>(
        &mut self,
        alloc: Global,
        device: &mut D,
    ) -> Result<Option<Short>, FlushFault>
        requires up { self.old.is_up ≡ true }
        requires idle { self.old.log.pending ≡ [] }
        requires some { 0 < length self.old.memory }
        requires within { blocks_of (view_of self.old) ≤ D.blocks device.old }

        ensures lives { LivesOn D.Device self.old self.new result device.old device.new }
        ensures flushed { result ≡ Ok None
            → Flushes D.Device self.old self.new device.old device.new }
        ensures done { result ≡ Ok None → (self.new.memory ≡ [])
            × (self.new.log.slots ≡ 0) × (self.new.log.pending ≡ []) }
        ensures short { (short : Short) → result ≡ Ok (Some short)
            → IsShort self.old.memory self.old.extents short
            × (view_of self.new ≡ view_of self.old) × (device.new ≡ device.old) }
        ensures idle { self.new.is_up ≡ true → self.new.log.pending ≡ [] }
    {
        if let Some(short) = self.refused {
            return Ok(Some(short));
        }
        let items = self.memory.batch(alloc)?;
        let tables = tables_of(alloc, &items)?;
        let mut numbers = Vec::with_capacity(alloc, tables.len())?;
        if let Err(short) = self.extents.take(tables.len() as u32, &mut numbers) {
            self.refused = Some(short);
            return Ok(Some(short));
        }
        self.is_up = false;
        match self.flush_into(alloc, device, &tables, &numbers) {
            Ok(()) => {
                self.is_up = true;
                Ok(None)
            }
            Err(FlushFault::NoMemory) => {
                give_back(&mut self.extents, &numbers);
                self.is_up = true;
                Err(FlushFault::NoMemory)
            }
            Err(FlushFault::Device) => Err(FlushFault::Device),
        }
    }

    /// Builds these tables of the memory table's newest items into these extents, behind a log area that
    /// was cleared, and commits the manifest with them and with that log area. The store is down
    /// meanwhile, since the extents are reserved and not yet named.
    fn flush_into<D: Device>(
        &mut self,
        alloc: Global,
        device: &mut D,
        tables: &[&[Item]],
        numbers: &[u32],
    ) -> Result<(), FlushFault>
        requires down { self.old.is_up ≡ false }
        requires reserved { IsReserved (view_of self.old) numbers.now }
        requires tables { map (λ table. table.now) tables.now ≡ cut (newest self.old.memory) }
        requires parts { All (λ table. IsPart table.now) tables.now }
        requires same_count { length tables.now ≡ length numbers.now }
        requires within { blocks_of (view_of self.old) ≤ D.blocks device.old }

        // Each image since stands for what was durable; and the store is open as it is then.
        ensures stays { KeepsDurable D.Device self.old device.old device.new }
        ensures opened { OnOk result (StaysOpen D.Device self.old self.new device.old device.new) }
        ensures opened_again { IsErrOf result FlushFault.NoMemory
            → StaysOpen D.Device self.old self.new device.old device.new }

        ensures tables { OnOk result (WhereOpen D.Device self.old device.old
            (λ _. HasTables (view_of self.old) numbers.now (D.state device.new))) }
        ensures kept { IsErrOf result FlushFault.NoMemory → (taken : List Bool)
            → KeptWith (view_of self.old) taken → KeptWith (view_of self.new) taken }
        ensures installs { Installs D.Device self.old self.new numbers.now result device.old
            device.new }
        ensures memory { IsErrOf result FlushFault.NoMemory → self.new.memory ≡ self.old.memory }
        ensures idle { IsErrOf result FlushFault.NoMemory → self.new.log.pending ≡ [] }
    {
        self.log.clear_other(device)?;
        build_tables(
            alloc,
            device,
            self.manifest.geometry(),
            tables,
            numbers,
            &mut self.filters,
        )?;
        self.commit_flush(alloc, device, numbers)
    }

    /// Commits the manifest with these tables behind those of the root and with the other log area, goes
    /// to that, and empties the memory table.
    fn commit_flush<D: Device>(
        &mut self,
        alloc: Global,
        device: &mut D,
        numbers: &[u32],
    ) -> Result<(), FlushFault>
        requires down { self.old.is_up ≡ false }
        requires reserved { IsReserved (view_of self.old) numbers.now }
        requires cleared { self.old.log.cleared ≡ true }
        requires within { blocks_of (view_of self.old) ≤ D.blocks device.old }

        ensures stays { WherePrepared D.Device self.old numbers.now device.old
            (λ durable. Stays durable (D.state device.old) (D.state device.new)) }
        ensures opened { OnOk result (WherePrepared D.Device self.old numbers.now device.old
            (λ durable. IsOpen (view_of self.new) durable (D.state device.new))) }
        ensures tables { OnOk result (WherePrepared D.Device self.old numbers.now device.old
            (λ _. HasTables (view_of self.old) numbers.now (D.state device.new))) }
        ensures unchanged { IsErrOf result FlushFault.NoMemory
            → Unchanged self.old self.new device.old device.new }
        ensures installs { Installs D.Device self.old self.new numbers.now result device.old
            device.new }
        ensures filters { self.new.filters ≡ self.old.filters }
    {
        let change = Change::Flush {
            tables: Numbers::of(Vec::from_slice(alloc, numbers)?),
        };
        let header = self.manifest.header();
        let next = Header {
            log_area: 1 - header.log_area,
            extents: header.extents,
            writes: self.writes,
        };
        self.manifest.commit(alloc, device, &change, &next)?;
        self.log.turn(self.manifest.header().writes);
        self.memory.clear();
        self.work.note_flush();
        Ok(())
    }
}

/// Gives extents back that are taken.
fn give_back(extents: &mut Extents, numbers: &[u32])
    requires distinct { IsTrue (all_distinct numbers.now) }
    requires below { (x : ℕ) → is_in x numbers.now ≡ true → x < length extents.old }
    requires taken { (x : ℕ) → is_in x numbers.now ≡ true → is_free extents.old x ≡ false }
    ensures free { (x : ℕ) → x < length extents.old
        → is_free extents.new x ≡ (is_free extents.old x || is_in x numbers.now) }
    ensures extents { length extents.new ≡ length extents.old }
{
    for number in numbers {
        extents.give(*number);
    }
}
