//! A device in memory that never fails.

ghost use Rattle.std.specs.Prelude.{◌≡◌, ℕ, ◌<◌, IfOk, IsOk, false, length, replicate};
ghost use Rattle.lt_terms.specs.Bytes.{zero_block};
ghost use Rattle.lt_terms.specs.Causes.{next_count};
ghost use Rattle.lt_device.specs.Calls.{ReadsBlock, Syncs, WritesBlock};
ghost use Rattle.lt_device.specs.Steady.{steady_device, steady_state};

use super::device::Device;
use super::store::Store;
use lt_page::{Failed, NoMemory, Page};
use std::alloc::Global;
use std::marker::Model;

/// A device in memory that never fails. It tells its blocks and the images that a crash may leave
/// now.
#[derive(Drop)]
pub struct Steady {
    store: Store,
    reads: u64,
}

impl Model for Steady {
    ghost use Rattle.lt_device.specs.Steady.{Contents};

    ghost Value = { Contents };

    ghost view = { λ d. record {
      shown = d.store.pages.items;
      unsynced = d.store.unsynced.items;
      reads = d.reads;
    } };
}

impl Steady {
    /// A device of so many blocks of zeros, none of them written since the last sync.
    pub fn new(alloc: Global, blocks: u64) -> Result<Steady, NoMemory>
        ensures { IfOk result (λ device. device ≡ record {
          shown = replicate blocks zero_block;
          unsynced = replicate blocks false;
          reads = 0;
        }) }
    {
        Ok(Steady {
            store: Store::new(alloc, blocks)?,
            reads: 0,
        })
    }
}

impl Device for Steady {
    ghost blocks = { λ device. length device.shown };

    ghost reads = { λ device. device.reads };

    ghost faults = { λ _. 0 };

    ghost state = { steady_state };

    fn blocks(&self) -> u64 {
        self.store.pages.len() as u64
    }

    fn reads(&self) -> u64 {
        self.reads
    }

    fn read(&mut self, block: u64, into: &mut Page) -> Result<(), Failed>
        requires { block < length self.old.shown }
        ensures ok { IsOk result }
        ensures counted { self.new.reads ≡ next_count self.old.reads }
        ensures reads { ReadsBlock steady_device block self.old self.new into.new result }
    {
        into.copy_from(&self.store.pages[block as usize]);
        self.reads = self.reads.saturating_add(1);
        Ok(())
    }

    fn write(&mut self, block: u64, from: &Page) -> Result<(), Failed>
        requires { block < length self.old.shown }
        ensures answers { IsOk result }
        ensures writes { WritesBlock steady_device block from.now self.old self.new result }
    {
        self.store.write(block as usize, from);
        Ok(())
    }

    fn sync(&mut self) -> Result<(), Failed>
        ensures answers { IsOk result }
        ensures syncs { Syncs steady_device self.old self.new result }
    {
        self.store.sync();
        Ok(())
    }
}
