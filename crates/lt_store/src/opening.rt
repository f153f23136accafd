//! Opening a store: its manifest, its log and the filters of the inner tables are read.

ghost use Rattle.std.specs.Prelude.{◌≡◌, ℕ, ◌+◌, ◌*◌, ◌<◌, ◌≤◌, Ok, Err, [], true, length, IfOk};
ghost use Rattle.std.specs.Prelude.{IsErrOf, IsTrue};
ghost use Rattle.std.specs.List.{list_all};
ghost use Rattle.std.specs.Option.{ForSome};
ghost use Rattle.lt_terms.specs.Items.{is_valid, total_cost};
ghost use Rattle.lt_mem.specs.Index.{table_room};
ghost use Rattle.lt_alloc.specs.Extents.{AreTaken};
ghost use Rattle.lt_device.specs.Calls.{OnlyReads};
ghost use Rattle.lt_device.specs.Reads.{CountsAtMost};
ghost use Rattle.lt_language.specs.Machine.{State};
ghost use Rattle.lt_format.specs.Layout.{is_geometry};
ghost use Rattle.lt_format.specs.Snapshot.{manifest_of, IsManifest};
ghost use Rattle.lt_format.specs.Trie.{named};
ghost use Rattle.lt_search.specs.Kept.{KeepsExactly};
ghost use Rattle.lt_store.specs.Promise.{StopsOpening, AtRest};
ghost use Rattle.lt_store.specs.Open.{IsOpen, blocks_in, blocks_of, extents_of, inner_of};
ghost use Rattle.lt_store.specs.Reading.{Reads, IsBelowExtents, Assembles, IsLogOf, HasItemsOf, groups_of};
ghost use Rattle.lt_store.specs.View.{view_of};
ghost use Rattle.lt_work.specs.Work.{at_rest};

use super::store::Store;
use lt_alloc::Extents;
use lt_bucket::Item;
use lt_device::Device;
use lt_htable::BuildFault;
use lt_manifest::{Manifest, OpenFault, read_geometry};
use lt_mem::MemTable;
use lt_page::{NoMemory, Page};
use lt_redo::Log;
use lt_search::InnerFilters;
use lt_work::Work;
use std::alloc::Global;

impl Store {
    /// Opens the store of a device. It writes nothing.
    ///
    /// `Damaged` is the first block that does not stand, of the superblock, the manifest and the log.
    /// It reads the superblock, the selector and the snapshot of the manifest, the gates and the groups
    /// of the log, and the filter block of each inner table.
    pub fn open<D: Device>(alloc: Global, device: &mut D) -> Result<Store, OpenFault>
        ensures up { IfOk result (λ store. store.is_up ≡ true) }
        ensures pending { IfOk result (λ store. store.log.pending ≡ []) }
        ensures rest { IfOk result (λ store. (view_of store).work ≡ at_rest) }
        ensures room { IfOk result (λ store. blocks_of (view_of store) ≤ D.blocks device.new) }

        // On a device that tells its blocks the store is what they open as.
        ensures reads { IfOk result
            (λ store. ForSome (D.state device.old).shown (Reads (view_of store))) }

        // On a device at rest it is open for what the device stands for.
        ensures opened { IfOk result (λ store. (s : State) (r : AtRest s (D.state device.old))
            → IsOpen (view_of store) s (D.state device.new)
            × (extents_of (view_of store) ≡ r.named.manifest.header.extents)) }

        ensures damaged { (b : ℕ) → IsErrOf result (OpenFault.Damaged b)
            → StopsOpening (D.state device.old) b }
        ensures at_rest { (s : State) → AtRest s (D.state device.old) → (b : ℕ)
            → IsErrOf result (OpenFault.Damaged b) → ⊥ }
        ensures damaged_block { (b : ℕ) → IsErrOf result (OpenFault.Damaged b) → IsBelowExtents b }
        // At most for the most slots and the most extents that there may be; and for those that there are.
        ensures calls { OnlyReads D.Device (307 + 2 * 512 + 65536) (IsErrOf result OpenFault.Device)
            device.old device.new }
        ensures count { IfOk result (λ store. CountsAtMost
            (307 + 2 * store.manifest.geometry.slots + length (inner_of store.manifest))
            (D.reads device.old) (D.reads device.new)) }
    {
        let manifest = read_manifest(alloc, device)?;
        let (log, items) = read_log(alloc, device, &manifest)?;
        let filters = inner_filters(alloc, device, &manifest)?;
        Ok(Store::of(alloc, manifest, log, &items, filters)?)
    }

    /// A store of what was read. Its filters have a place for each extent.
    fn of(
        alloc: Global,
        manifest: Manifest,
        log: Log,
        items: &[Item],
        filters: InnerFilters,
    ) -> Result<Store, NoMemory>
        requires log { IsLogOf manifest log items.now }
        requires filters { length filters ≡ manifest.manifest.header.extents }
        ensures { IfOk result
            (λ store. Assembles manifest log items.now filters (view_of store)) }
    {
        let extents = taken_extents(alloc, &manifest)?;
        let memory = memory_of(alloc, items)?;
        let (column, page) = (Page::new(alloc)?, Page::new(alloc)?);
        let writes = manifest.header().writes + items.len() as u64;
        Ok(Store {
            log,
            manifest,
            memory,
            extents,
            filters,
            work: Work::new(alloc)?,
            column,
            page,
            writes,
            refused: None,
            is_up: true,
        })
    }
}

/// Reads the manifest, and the geometry with it.
fn read_manifest<D: Device>(alloc: Global, device: &mut D) -> Result<Manifest, OpenFault>
    ensures valid { IfOk result (λ manifest. IsTrue (is_geometry manifest.geometry)) }
    ensures stands { IfOk result
        (λ manifest. IsManifest manifest.geometry (D.blocks device.old) manifest.manifest) }
    ensures read { IfOk result
        (λ manifest. ForSome (D.state device.old).shown (λ image. manifest_of image ≡ Ok manifest)) }
    ensures damaged { (b : ℕ) → IsErrOf result (OpenFault.Damaged b)
        → ForSome (D.state device.old).shown (λ image. manifest_of image ≡ Err b) }
    ensures damaged_block { (b : ℕ) → IsErrOf result (OpenFault.Damaged b) → b < 868 }
    ensures calls { OnlyReads D.Device 307 (IsErrOf result OpenFault.Device) device.old device.new }
{
    let geometry = read_geometry(alloc, device)?;
    let manifest = Manifest::open(alloc, device, &geometry)?;
    Ok(manifest)
}

/// Reads the log that the manifest names: the log, and the items of its groups.
fn read_log<D: Device>(
    alloc: Global,
    device: &mut D,
    manifest: &Manifest,
) -> Result<(Log, Vec<Item>), OpenFault>
    requires room { blocks_in manifest.now ≤ D.blocks device.old }
    ensures log { IfOk result (λ read. IsLogOf manifest.now read.0 read.1.items) }
    ensures read { IfOk result
        (λ read. ForSome (D.state device.old).shown
        (HasItemsOf manifest.now read.0.slots read.1.items)) }
    ensures damaged { (b : ℕ) → IsErrOf result (OpenFault.Damaged b)
        → ForSome (D.state device.old).shown (λ image. groups_of manifest.now image ≡ Err b) }
    ensures damaged_block { (b : ℕ) → IsErrOf result (OpenFault.Damaged b) → IsBelowExtents b }
    ensures calls { OnlyReads D.Device (2 * manifest.now.geometry.slots)
        (IsErrOf result OpenFault.Device) device.old device.new }
{
    let header = manifest.header();
    Log::open(
        alloc,
        device,
        manifest.geometry(),
        header.log_area,
        header.writes,
    )
}

/// Reads the filters of the inner tables.
fn inner_filters<D: Device>(
    alloc: Global,
    device: &mut D,
    manifest: &Manifest,
) -> Result<InnerFilters, OpenFault>
    requires room { blocks_in manifest.now ≤ D.blocks device.old }
    ensures len { IfOk result (λ filters. length filters ≡ manifest.now.manifest.header.extents) }
    ensures filters { IfOk result
        (λ filters. ForSome (D.state device.old).shown
        (KeepsExactly manifest.now.geometry filters (inner_of manifest.now))) }
    ensures fault { (b : ℕ) → IsErrOf result (OpenFault.Damaged b) → ⊥ }
    ensures calls { OnlyReads D.Device (length (inner_of manifest.now))
        (IsErrOf result OpenFault.Device) device.old device.new }
{
    let extents = manifest.header().extents;
    match InnerFilters::load(alloc, device, manifest.geometry(), manifest.trie(), extents) {
        Ok(filters) => Ok(filters),
        Err(BuildFault::Device) => Err(OpenFault::Device),
        Err(BuildFault::NoMemory) => Err(OpenFault::NoMemory),
    }
}

/// The extents of a manifest, of which those are taken that it names.
fn taken_extents(alloc: Global, manifest: &Manifest) -> Result<Extents, NoMemory>
    ensures { IfOk result
        (AreTaken manifest.now.manifest.header.extents (named manifest.now.manifest.trie)) }
{
    let used = manifest.trie().referenced(alloc)?;
    Extents::of(alloc, manifest.header().extents, &used)
}

/// A memory table with these items, which it has room for.
fn memory_of(alloc: Global, items: &[Item]) -> Result<MemTable, NoMemory>
    requires valid { IsTrue (list_all is_valid items.now) }
    requires room { total_cost items.now ≤ table_room }
    ensures { IfOk result (λ memory. memory ≡ items.now) }
{
    let mut memory = MemTable::new(alloc)?;
    for item in items {
        memory.add(&item.view(), item.parts());
    }
    Ok(memory)
}
