//! The history of a device in memory: its writes and syncs so far.

ghost use Rattle.std.specs.Prelude.{◌≡◌, ℕ, ◌<◌, ◌≤◌, All, IfOk, List, [], length};
ghost use Rattle.lt_terms.specs.Bytes.{AreBlocks, IsBlock};

use super::store::zero_pages;
use lt_page::{NoMemory, Page};
use std::alloc::Global;

/// What was done.
#[derive(Clone, Copy)]
pub enum Step {
    /// A write of this block.
    Write(u64),
    /// A sync that answered Ok.
    Sync,
}

/// A write, with what the block held before; or a sync.
#[derive(Drop)]
pub struct Entry {
    pub step: Step,
    pub before: Page,
}

/// Writes and syncs. The entries from `room` on are in use, the newest first.
#[derive(Drop)]
pub struct History {
    pub entries: Vec<Entry>,
    pub room: usize,
    ghost bounded: { room ≤ length entries.items },
    ghost blocks: { All (λ entry. IsBlock entry.before) entries.items },
}

impl History {
    ghost use Rattle.lt_device.specs.History.{Grows, WritesBelow, made, stable_of, synced, wrote};

    /// An empty history with room for so many.
    pub fn new(alloc: Global, limit: usize) -> Result<History, NoMemory>
        ensures empty { IfOk result (λ history. made history ≡ []) }
        ensures room { IfOk result (λ history. history.room ≡ limit) }
        ensures limit { IfOk result (λ history. length history.entries.items ≡ limit) }
    {
        let mut entries = Vec::with_capacity(alloc, limit)?;
        for _ in 0..limit {
            entries.push_reserved(Entry {
                step: Step::Sync,
                before: Page::new(alloc)?,
            });
        }
        Ok(History {
            entries,
            room: limit,
        })
    }

    /// Adds a write of a block that held this before.
    pub fn write(&mut self, block: u64, before: &Page)
        requires { 0 < self.old.room }
        ensures { Grows (wrote block before.now) self.old self.new }
    {
        self.room -= 1;
        let entry = &mut self.entries[self.room];
        entry.step = Step::Write(block);
        entry.before.copy_from(before);
    }

    /// Adds a sync.
    pub fn sync(&mut self)
        requires { 0 < self.old.room }
        ensures { Grows synced self.old self.new }
    {
        self.room -= 1;
        self.entries[self.room].step = Step::Sync;
    }

    /// Empties it.
    pub fn clear(&mut self)
        ensures empty { made self.new ≡ [] }
        ensures room { self.new.room ≡ length self.old.entries.items }
        ensures limit { length self.new.entries.items ≡ length self.old.entries.items }
    {
        self.room = self.entries.len();
    }

    /// Takes back what was written since the last sync.
    pub fn undo(&self, pages: &mut [Page])
        requires below { WritesBelow (length pages.old) (made self.now) }
        requires blocks { AreBlocks pages.old }
        ensures stable { pages.new ≡ stable_of (made self.now) pages.old }
        ensures blocks { AreBlocks pages.new }
    {
        for entry in &self.entries[self.room..] {
            match entry.step {
                Step::Write(block) => pages[block as usize].copy_from(&entry.before),
                Step::Sync => break,
            }
        }
    }
}
