//! The filters of inner tables, which are kept in memory.

ghost use Rattle.std.specs.Prelude.{◌≡◌, ℕ, ◌+◌, ◌<◌, List, ◌++◌, None, Some, IfOk, IsErrOf, OnOk, length};
ghost use Rattle.std.specs.Prelude.{replicate, slice_set};
ghost use Rattle.std.specs.List.{AllByRecursion};
ghost use Rattle.std.specs.Option.{ForSome};
ghost use Rattle.lt_terms.specs.Bytes.{Image};
ghost use Rattle.lt_device.specs.Calls.{OnlyReads};
ghost use Rattle.lt_format.specs.Trie.{named};
ghost use Rattle.lt_item.specs.Parts.{IsInRange, parts_of};
ghost use Rattle.lt_search.specs.Searched.{AreWithin};
ghost use Rattle.lt_search.specs.Kept.{KeepsExactly, inner_tables, may_hold};

use lt_bloom::FilterPage;
use lt_device::Device;
use lt_format::Geometry;
use lt_htable::{BuildFault, read_filters};
use lt_item::Parts;
use lt_node::Trie;
use lt_page::NoMemory;
use std::alloc::Global;
use std::marker::Model;

/// The filters of the tables of inner nodes, by extent. Contracts see a list: for each extent of the
/// store the filter block that is kept of the table there, if one is.
#[derive(Drop)]
pub struct InnerFilters {
    pages: Vec<Option<FilterPage>>,
}

impl Model for InnerFilters {
    ghost use Rattle.std.specs.Prelude.{List, ℕ, Option};

    ghost Value = { List (Option (List ℕ)) };

    ghost view = { λ filters. filters.pages.items };
}

impl InnerFilters {
    /// No filters, in a store of so many extents.
    pub fn new(alloc: Global, extents: u32) -> Result<InnerFilters, NoMemory>
        ensures { IfOk result (λ filters. filters ≡ replicate extents None) }
    {
        let mut pages = Vec::with_capacity(alloc, extents as usize)?;
        for _ in 0..extents {
            pages.push(None)?;
        }
        Ok(InnerFilters { pages })
    }

    /// Reads the filters of all inner tables of a trie, in a store of so many extents: one read a table.
    pub fn load<D: Device>(
        alloc: Global,
        device: &mut D,
        geometry: &Geometry,
        trie: &Trie,
        extents: u32,
    ) -> Result<InnerFilters, BuildFault>
        requires levels { trie.now.levels ≡ geometry.now.levels }
        requires below { AllByRecursion (λ x. x < extents) (named trie.now.nodes) }
        requires within { AreWithin geometry.now (D.blocks device.old) (named trie.now.nodes) }
        ensures len { IfOk result (λ filters. length filters ≡ extents) }
        ensures filters { IfOk result (λ filters. ForSome (D.state device.old).shown
            (KeepsExactly geometry.now filters
            (inner_tables geometry.now.levels trie.now.nodes))) }
        ensures calls { OnlyReads D.Device
            (length (inner_tables geometry.now.levels trie.now.nodes))
            (IsErrOf result BuildFault.Device) device.old device.new }
    {
        let levels = trie.levels();
        let mut filters = InnerFilters::new(alloc, extents)?;
        for entry in trie.nodes() {
            let level = entry.node().level;
            if level != levels - 1 {
                filters.load_pile(alloc, device, geometry, entry.tables())?;
            }
        }
        Ok(filters)
    }

    /// Reads the filters of the tables of a pile.
    fn load_pile<D: Device>(
        &mut self,
        alloc: Global,
        device: &mut D,
        geometry: &Geometry,
        tables: &[u32],
    ) -> Result<(), BuildFault>
        requires below { AllByRecursion (λ x. x < length self.old) tables.now }
        requires within { AreWithin geometry.now (D.blocks device.old) tables.now }
        ensures len { length self.new ≡ length self.old }

        // Beside those that were kept before.
        ensures filters { OnOk result ((image : Image) (before : List ℕ)
            → (D.state device.old).shown ≡ Some image
            → KeepsExactly geometry.now self.old before image
            → KeepsExactly geometry.now self.new (before ++ tables.now) image) }
        ensures calls { OnlyReads D.Device (length tables.now) (IsErrOf result BuildFault.Device)
            device.old device.new }
    {
        for extent in tables {
            let filters = read_filters(alloc, device, geometry.extent(*extent))?;
            self.keep(*extent, filters);
        }
        Ok(())
    }

    /// Keeps the filters of the table in an extent.
    pub fn keep(&mut self, extent: u32, filters: FilterPage)
        requires { extent < length self.old }
        ensures { self.new ≡ slice_set self.old extent (Some filters) }
    {
        self.pages[extent as usize] = Some(filters);
    }

    /// Forgets the filters of the table in an extent.
    pub fn forget(&mut self, extent: u32)
        requires { extent < length self.old }
        ensures { self.new ≡ slice_set self.old extent None }
    {
        self.pages[extent as usize] = None;
    }

    /// Whether the table in an extent may hold the key of these parts, as far as filters are kept.
    #[tactic(auto, unfolding(lt_item::specs::Parts::parts_of))]
    pub fn may_hold(&self, extent: u32, parts: &Parts) -> bool
        requires { IsInRange parts.now }
        ensures { (key : List ℕ) → parts.now ≡ parts_of key → result ≡ may_hold self.now key extent }
    {
        match self.pages.get(extent as usize) {
            Some(Some(filter)) => filter.covers(parts.column, parts),
            _ => true,
        }
    }
}
