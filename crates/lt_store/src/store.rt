//! What a store keeps in memory.

ghost use Rattle.std.specs.Prelude.{◌≡◌, Some, true, length};
ghost use Rattle.lt_alloc.specs.declared.extents.Short.{Short};
ghost use Rattle.lt_store.specs.Flushing.{IsShort};
ghost use Rattle.lt_store.specs.Kept.{IsKept};

use lt_alloc::{Extents, Short};
use lt_manifest::Manifest;
use lt_mem::MemTable;
use lt_page::Page;
use lt_redo::Log;
use lt_search::InnerFilters;
use lt_work::Work;

/// A store that is open on a device. Its writes since the last flush lie in the log and in the memory
/// table; those of the open group are not durable yet.
#[derive(Drop)]
pub struct Store {
    pub(super) log: Log,
    pub(super) manifest: Manifest,
    pub(super) memory: MemTable,
    pub(super) extents: Extents,
    pub(super) filters: InnerFilters,
    pub(super) work: Work,
    /// What a get reads of a group, and of a bucket.
    pub(super) column: Page,
    pub(super) page: Page,
    /// How many writes were accepted.
    pub(super) writes: u64,
    /// What was short where a flush of the memory table as it stands was refused.
    pub(super) refused: Option<Short>,
    pub(super) is_up: bool,
    ghost kept: { is_up ≡ true → IsKept manifest log memory extents (length filters) writes work },
    ghost refused_is: { is_up ≡ true → (short : Short) → refused ≡ Some short → IsShort memory extents short },
}

impl Store {
    /// Whether the store may be used. It is false exactly after a write or a commit answered a fault of
    /// the device; the store is then opened again.
    pub fn is_up(&self) -> bool
        ensures { result ≡ self.now.is_up }
    {
        self.is_up
    }
}
