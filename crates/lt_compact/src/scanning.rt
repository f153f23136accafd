//! The items of the tables that a job scans.

ghost use Rattle.std.specs.Prelude.{◌≡◌, ℕ, ◌+◌, ◌<◌, ◌≤◌, [], false, OnOk, OnErr, IsErrOf};
ghost use Rattle.lt_device.specs.Calls.{OnlyReads};
ghost use Rattle.lt_compact.specs.Scanning.{FindsTable, IsDamagedBucket};

use crate::faults::JobFault;
use lt_bucket::Item;
use lt_device::Device;
use lt_htable::scan;
use std::alloc::Global;
use std::marker::Model;

/// What the tables that were scanned hold: lists, the oldest first, that stand for the items that were
/// found. Older versions and deletes may be gone where `loose` tells that there were some.
#[derive(Drop)]
pub(super) struct Found {
    /// So many tables were scanned.
    pub scanned: u32,
    pub lists: Vec<Vec<Item>>,
    pub loose: bool,
}

impl Model for Found {
    ghost use Rattle.std.specs.Prelude.{◌*◌, ◌≤◌, length};
    ghost use Rattle.std.specs.List.{flat_map};
    ghost use Rattle.lt_compact.specs.Jobs.{FoundView, found_in};

    ghost Value = { FoundView };

    ghost view = { λ f. found_in f.scanned (flat_map (λ list. list.items) f.lists.items) f.loose };

    // A table has at most 52,224 items.
    ghost invariant = { λ f. length (flat_map (λ list. list.items) f.lists.items) ≤ 52224 * f.scanned };
}

impl Found {
    /// Nothing yet. Takes no memory.
    pub fn nothing(alloc: Global) -> Found
        ensures { result ≡ record { scanned = 0; kept = []; loose = false } }
    {
        Found {
            scanned: 0,
            lists: Vec::new(alloc),
            loose: false,
        }
    }

    /// Scans the table whose extent begins at block `first`. After an `Err` nothing was found.
    pub fn scan<D: Device>(
        &mut self,
        alloc: Global,
        device: &mut D,
        first: u64,
    ) -> Result<(), JobFault>
        requires few { self.old.scanned < 65536 }
        requires within { first + 65 ≤ D.blocks device.old }
        ensures found { OnOk result (FindsTable (D.state device.old).shown first self.old self.new) }
        ensures unchanged { OnErr result (self.new ≡ self.old) }
        ensures damaged { (b : ℕ) → IsErrOf result (JobFault.Damaged b)
            → IsDamagedBucket (D.state device.old).shown first b }
        ensures calls { OnlyReads D.Device 64 (IsErrOf result JobFault.Device) device.old device.new }
    {
        self.lists.reserve(1)?;
        let items = scan(alloc, device, first)?;
        self.lists.push_reserved(items);
        self.scanned += 1;
        Ok(())
    }
}
