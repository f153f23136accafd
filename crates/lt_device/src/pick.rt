//! What a crash makes of the blocks of a device in memory.

ghost use Rattle.std.specs.Prelude.{◌≡◌, EachIndex, length, slice_index_or};
ghost use Rattle.lt_terms.specs.Bytes.{AreBlocks, IsBlock, block_at};
ghost use Rattle.lt_device.specs.Memory.{left_at};

use super::store::Store;
use lt_page::Page;

/// What a crash makes of a block that was written since the last sync.
#[derive(Clone, Copy, Debug, PartialEq, Eq)]
pub enum Pick {
    /// It is as it was at the last sync that answered Ok.
    Stable,
    /// It is as it reads.
    Written,
    /// It holds this byte 4,096 times.
    Filled(u8),
}

impl Pick {
    ghost use Rattle.lt_device.specs.Memory.{picked};

    /// Makes of a block, which is as it was at the last sync, what the pick says.
    fn apply(self, shown: &Page, page: &mut Page)
        requires { IsBlock page.old }
        ensures picked { page.new ≡ picked self page.old shown.now }
        ensures block { IsBlock page.new }
    {
        match self {
            Pick::Stable => {}
            Pick::Written => page.copy_from(shown),
            Pick::Filled(byte) => page.fill_from(0, &[byte; Page::LEN]),
        }
    }
}

/// The pick at a place, or `Pick::Stable` past the list.
fn pick_at(picks: &[Pick], place: usize) -> Pick
    ensures { result ≡ slice_index_or picks.now place Pick.Stable }
{
    picks.get(place).copied().unwrap_or(Pick::Stable)
}

/// Changes the blocks of the store, which are as they were at the last sync, by these picks.
pub fn choose(picks: &[Pick], store: &Store, pages: &mut [Page])
    requires size { length pages.old ≡ length store.now.pages.items }
    requires blocks { AreBlocks pages.old }
    ensures each { EachIndex pages.old (λ k. block_at pages.new k
        ≡ left_at picks.now store.now.unsynced.items pages.old store.now.pages.items k) }
    ensures blocks { AreBlocks pages.new }
{
    let mut next = 0;
    for block in 0..pages.len() {
        if store.unsynced[block] {
            pick_at(picks, next).apply(&store.pages[block], &mut pages[block]);
            next += 1;
        }
    }
}
