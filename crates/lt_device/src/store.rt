//! The blocks of a device in memory.

ghost use Rattle.std.specs.Prelude.{◌≡◌, false, ◌<◌, IfOk, length, map, true, replicate, slice_set};
ghost use Rattle.lt_terms.specs.Bytes.{AreBlocks, IsBlock, zero_block};

use lt_page::{NoMemory, Page};
use std::alloc::Global;

/// Blocks in memory, and which of them were written since the last sync.
#[derive(Drop)]
pub struct Store {
    pub pages: Vec<Page>,
    pub unsynced: Vec<bool>,
    ghost blocks: { AreBlocks pages.items },
    ghost flags: { length unsynced.items ≡ length pages.items },
}

impl Store {
    /// Blocks of zeros, all synced.
    pub fn new(alloc: Global, blocks: u64) -> Result<Store, NoMemory>
        ensures shown { IfOk result (λ store. store.pages.items ≡ replicate blocks zero_block) }
        ensures synced { IfOk result (λ store. store.unsynced.items ≡ replicate blocks false) }
    {
        Store::over(alloc, zero_pages(alloc, blocks)?)
    }

    /// These blocks, all synced.
    pub fn over(alloc: Global, pages: Vec<Page>) -> Result<Store, NoMemory>
        requires { AreBlocks pages.items }
        ensures shown { IfOk result (λ store. store.pages.items ≡ pages.items) }
        ensures synced { IfOk result
            (λ store. store.unsynced.items ≡ replicate (length pages.items) false) }
    {
        let unsynced = vec![in alloc; false; pages.len()]?;
        Ok(Store { pages, unsynced })
    }

    /// Writes a block, which is unsynced from then on.
    pub fn write(&mut self, block: usize, from: &Page)
        requires { block < length self.old.pages.items }
        ensures shown { self.new.pages.items ≡ slice_set self.old.pages.items block from.now }
        ensures unsynced { self.new.unsynced.items ≡ slice_set self.old.unsynced.items block true }
        ensures block { IsBlock from.now }
    {
        let page = &mut self.pages[block];
        page.copy_from(from);
        self.unsynced[block] = true;
    }

    /// Syncs all blocks.
    pub fn sync(&mut self)
        ensures shown { self.new.pages.items ≡ self.old.pages.items }
        ensures synced { self.new.unsynced.items ≡ map (λ _. false) self.old.unsynced.items }
    {
        self.unsynced.fill(false);
    }
}

/// Pages of zeros.
pub fn zero_pages(alloc: Global, count: u64) -> Result<Vec<Page>, NoMemory>
    ensures zeros { IfOk result (λ pages. pages.items ≡ replicate count zero_block) }
    ensures blocks { IfOk result (λ pages. AreBlocks pages.items) }
{
    let mut pages = Vec::with_capacity(alloc, count as usize)?;
    for _ in 0..count {
        pages.push_reserved(Page::new(alloc)?);
    }
    Ok(pages)
}

/// The same pages again.
pub fn copies(alloc: Global, pages: &[Page]) -> Result<Vec<Page>, NoMemory>
    ensures same { IfOk result (λ copies. copies.items ≡ pages.now) }
    ensures blocks { IfOk result (λ copies. AreBlocks copies.items) }
{
    let mut copies = Vec::with_capacity(alloc, pages.len())?;
    for page in pages {
        let mut copy = Page::new(alloc)?;
        copy.copy_from(page);
        copies.push_reserved(copy);
    }
    Ok(copies)
}
