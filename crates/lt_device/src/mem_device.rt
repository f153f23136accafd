//! A device in memory that fails as it is told to, and keeps what a crash may leave.

ghost use Rattle.std.specs.Prelude.{◌≡◌, ℕ, ◌<◌, ◌||◌, ◌↔◌, IfOk, IsErr, IsTrue, OnErr, length, replicate};
ghost use Rattle.lt_terms.specs.Bytes.{AreBlocks, block_at, zero_block};
ghost use Rattle.lt_device.specs.Calls.{ReadsBlock, Syncs, WritesBlock};
ghost use Rattle.lt_device.specs.State.{IsFit};
ghost use Rattle.lt_device.specs.Memory.{IsLeft, IsSynced, TellsWrite, after_read, after_sync, after_write, all_synced};
ghost use Rattle.lt_device.specs.Memory.{called, fresh, is_failing, is_full, left_unsynced, memory_device};
ghost use Rattle.lt_device.specs.Memory.{memory_state, patched, recorded};

use super::device::Device;
use super::history::History;
use super::pick::{Pick, choose};
use super::store::{Store, copies, zero_pages};
use lt_page::{Failed, NoMemory, Page};
use std::alloc::Global;
use std::marker::Model;

/// A device in memory that tells all: its blocks, the images that a crash may leave now, and those
/// since a time.
///
/// The calls of `read`, `write` and `sync` are numbered together from 0. Those that are listed
/// fail, and so does each call from the stop on. The device keeps a history of its writes and of
/// the syncs that answered Ok, up to a limit: a write or sync past it fails too.
///
/// A write that fails is made nevertheless if the history has room, and else leaves the block as it
/// reads; in both cases the block is unsynced. A read or a sync that fails does nothing, and is not
/// recorded. A call looks through the whole list.
#[derive(Drop)]
pub struct MemDevice {
    store: Store,
    history: History,
    reads: u64,
    faults: u64,
    calls: u64,
    failing: Vec<u64>,
    stop: Option<u64>,
}

impl Model for MemDevice {
    ghost use Rattle.lt_device.specs.Memory.{Memory};

    ghost Value = { Memory };

    ghost use Rattle.std.specs.Prelude.{length};
    ghost use Rattle.lt_device.specs.History.{IsHistoryOf, made, past_of, stable_of};

    ghost view = { λ d. record {
      shown = d.store.pages.items;
      stable = stable_of (made d.history) d.store.pages.items;
      unsynced = d.store.unsynced.items;
      past = past_of (made d.history) d.store.pages.items;
      limit = length d.history.entries.items;
      room = d.history.room;
      reads = d.reads;
      faults = d.faults;
      calls = d.calls;
      failing = d.failing.items;
      stop = d.stop;
    } };

    ghost invariant = { λ d. IsHistoryOf (length d.store.pages.items) d.store.unsynced.items
        d.history.room (made d.history) };
}

impl MemDevice {
    /// A device of so many blocks of zeros, none of them written since the last sync, with no
    /// fault. `limit` is how many writes and syncs it records; `failing` has the numbers of the
    /// calls that fail, and `stop` the number of the first of those that all fail.
    pub fn new(
        alloc: Global,
        blocks: u64,
        limit: usize,
        failing: Vec<u64>,
        stop: Option<u64>,
    ) -> Result<MemDevice, NoMemory>
        ensures { IfOk result
            (λ device. device ≡ fresh (replicate blocks zero_block) limit failing.items stop) }
    {
        MemDevice::over(alloc, zero_pages(alloc, blocks)?, limit, failing, stop)
    }

    /// What a crash leaves: a fresh device over one image, with the last three arguments as in
    /// `new`. Of the blocks that were written since the last sync that answered Ok, the k-th in
    /// rising block number follows the k-th pick, or `Pick::Stable` past the list.
    pub fn crash(
        &self,
        alloc: Global,
        picks: &[Pick],
        limit: usize,
        failing: Vec<u64>,
        stop: Option<u64>,
    ) -> Result<MemDevice, NoMemory>
        ensures left { IfOk result (λ device. IsLeft picks.now self.now device.shown) }
        ensures fresh { IfOk result
            (λ device. device ≡ fresh device.shown limit failing.items stop) }
    {
        let mut pages = copies(alloc, &self.store.pages)?;
        self.leave(picks, &mut pages);
        MemDevice::over(alloc, pages, limit, failing, stop)
    }

    /// Sets a block, as it reads and as it is stable, and empties the history. This is no call of
    /// the device.
    pub fn patch(&mut self, block: u64, page: &Page)
        requires below { block < length self.old.shown }
        requires synced { IsSynced self.old }
        ensures { self.new ≡ patched self.old block page.now }
    {
        let shown = &mut self.store.pages[block as usize];
        shown.copy_from(page);
        self.history.clear();
    }

    /// Whether no block was written since the last sync that answered Ok.
    pub fn is_synced(&self) -> bool
        ensures { IsTrue result ↔ IsSynced self.now }
    {
        self.store.unsynced.iter().all(|unsynced| !*unsynced)
    }

    /// A block as it reads. This is no read of the device.
    pub fn page(&self, block: u64) -> &Page
        requires { block < length self.now.shown }
        ensures { result.now ≡ block_at self.now.shown block }
    {
        &self.store.pages[block as usize]
    }

    /// The number of the next call of `read`, `write` or `sync`.
    pub fn calls(&self) -> u64
        ensures { result ≡ self.now.calls }
    {
        self.calls
    }

    /// The count of faults.
    pub fn faults(&self) -> u64
        ensures { result ≡ self.now.faults }
    {
        self.faults
    }

    /// A device over these pages that nothing happened to.
    fn over(
        alloc: Global,
        pages: Vec<Page>,
        limit: usize,
        failing: Vec<u64>,
        stop: Option<u64>,
    ) -> Result<MemDevice, NoMemory>
        requires { AreBlocks pages.items }
        ensures { IfOk result (λ device. device ≡ fresh pages.items limit failing.items stop) }
    {
        Ok(MemDevice {
            store: Store::over(alloc, pages)?,
            history: History::new(alloc, limit)?,
            reads: 0,
            faults: 0,
            calls: 0,
            failing,
            stop,
        })
    }

    /// Changes the blocks, which are as they read, to what these picks leave.
    fn leave(&self, picks: &[Pick], pages: &mut [Page])
        requires { pages.old ≡ self.now.shown }
        ensures left { IsLeft picks.now self.now pages.new }
        ensures blocks { AreBlocks pages.new }
    {
        self.history.undo(pages);
        choose(picks, &self.store, pages);
    }

    /// Whether the next call is listed, or stands at the stop or behind it.
    fn is_failing(&self) -> bool
        ensures value { result ≡ is_failing self.now }
        ensures fit { IsFit (length self.now.shown) (memory_state self.now) }
    {
        self.failing.contains(&self.calls) || self.stop.is_some_and(|stop| stop <= self.calls)
    }

    /// Whether the history has no room.
    fn is_full(&self) -> bool
        ensures { result ≡ is_full self.now }
    {
        self.history.room == 0
    }

    /// Makes a write, and records it.
    fn record(&mut self, block: u64, from: &Page)
        requires below { block < length self.old.shown }
        requires room { 0 < self.old.room }
        ensures recorded { self.new ≡ recorded self.old block from.now }
        ensures wrote { TellsWrite block self.old self.new }
    {
        self.history.write(block, &self.store.pages[block as usize]);
        self.store.write(block as usize, from);
    }

    /// Marks a block as written, and leaves it as it reads.
    fn unsettle(&mut self, block: u64)
        requires below { block < length self.old.shown }
        requires full { self.old.room ≡ 0 }
        ensures unsynced { self.new ≡ left_unsynced self.old block }
        ensures wrote { TellsWrite block self.old self.new }
    {
        self.store.unsynced[block as usize] = true;
    }

    /// Syncs all blocks, and records that.
    fn settle(&mut self)
        requires { 0 < self.old.room }
        ensures { self.new ≡ all_synced self.old }
    {
        self.history.sync();
        self.store.sync();
    }

    /// Counts a call, and its fault.
    fn answer(&mut self, failed: bool) -> Result<(), Failed>
        ensures called { self.new ≡ called self.old failed }
        ensures answer { IsErr result ↔ IsTrue failed }
    {
        self.calls = self.calls.saturating_add(1);
        if failed {
            self.faults = self.faults.saturating_add(1);
            return Err(Failed);
        }
        Ok(())
    }
}

impl Device for MemDevice {
    ghost blocks = { λ device. length device.shown };

    ghost reads = { λ device. device.reads };

    ghost faults = { λ device. device.faults };

    ghost state = { memory_state };

    fn blocks(&self) -> u64 {
        self.store.pages.len() as u64
    }

    fn reads(&self) -> u64 {
        self.reads
    }

    fn read(&mut self, block: u64, into: &mut Page) -> Result<(), Failed>
        requires { block < length self.old.shown }
        ensures fails { IsErr result ↔ IsTrue (is_failing self.old) }
        ensures becomes { self.new ≡ after_read self.old }
        ensures untouched { OnErr result (into.new ≡ into.old) }
        ensures reads { ReadsBlock memory_device block self.old self.new into.new result }
    {
        let fails = self.is_failing();
        if !fails {
            into.copy_from(&self.store.pages[block as usize]);
            self.reads = self.reads.saturating_add(1);
        }
        self.answer(fails)
    }

    fn write(&mut self, block: u64, from: &Page) -> Result<(), Failed>
        requires { block < length self.old.shown }
        ensures fails { IsErr result ↔ IsTrue (is_failing self.old || is_full self.old) }
        ensures becomes { self.new ≡ after_write self.old block from.now }
        ensures writes { WritesBlock memory_device block from.now self.old self.new result }
    {
        let fails = self.is_failing() || self.is_full();
        if self.is_full() {
            self.unsettle(block);
        } else {
            self.record(block, from);
        }
        self.answer(fails)
    }

    fn sync(&mut self) -> Result<(), Failed>
        ensures fails { IsErr result ↔ IsTrue (is_failing self.old || is_full self.old) }
        ensures becomes { self.new ≡ after_sync self.old }
        ensures syncs { Syncs memory_device self.old self.new result }
    {
        let fails = self.is_failing() || self.is_full();
        if !fails {
            self.settle();
        }
        self.answer(fails)
    }
}
