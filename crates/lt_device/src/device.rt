//! The device: blocks of 4,096 bytes that can be read, written and synced.

ghost use Rattle.std.specs.Prelude.{◌≡◌, ℕ, ◌<◌, OnOk, OnErr};
ghost use Rattle.std.specs.Option.{ForSome};
ghost use Rattle.lt_terms.specs.Bytes.{block_at};
ghost use Rattle.lt_terms.specs.Causes.{HasCause, CountsOne};
ghost use Rattle.lt_device.specs.State.{State, IsFit, written, synced, Wrote, EndedSync};

use lt_page::{Failed, Page};

/// Blocks of 4,096 bytes, numbered from 0.
///
/// A crash leaves an image: every block as it was at the last sync that answered Ok, except that
/// each block written since then, by a write that answered Ok or `Failed`, holds any 4,096 bytes. A
/// device tells of itself what it can: its blocks as they read now, which of them were written
/// since the last sync, and the same for each time before a sync that answered Ok. Each call is an
/// equation on what it tells.
pub trait Device {
    /// The number of blocks. It never changes.
    ghost blocks: { Self → ℕ };

    /// The count of block reads.
    ghost reads: { Self → ℕ };

    /// The count of the device's faults.
    ghost faults: { Self → ℕ };

    /// What the device tells of itself.
    ghost state: { Self → State };

    /// The number of blocks.
    fn blocks(&self) -> u64
        ensures value { result ≡ blocks self.now }
        ensures fit { IsFit (blocks self.now) (state self.now) };

    /// The count of block reads. It stands still at `u64::MAX`.
    fn reads(&self) -> u64
        ensures { result ≡ reads self.now };

    /// Reads a block into the page. After `Failed` the page holds any bytes. Whatever it answers,
    /// all blocks read as before.
    fn read(&mut self, block: u64, into: &mut Page) -> Result<(), Failed>
        requires { block < blocks self.old }
        ensures content { OnOk result
            (ForSome (state self.old).shown (λ image. into.new ≡ block_at image block)) }
        ensures state { state self.new ≡ state self.old }
        ensures size { blocks self.new ≡ blocks self.old }
        ensures count { CountsOne (reads self.old) (reads self.new) }
        ensures cause { HasCause (faults self.old) (faults self.new) result };

    /// Writes a block. After `Failed` the block reads as any 4,096 bytes. In both cases all other
    /// blocks read as before.
    fn write(&mut self, block: u64, from: &Page) -> Result<(), Failed>
        requires { block < blocks self.old }
        ensures ok { OnOk result (state self.new ≡ written (state self.old) block from.now) }
        ensures wrote { Wrote (blocks self.old) block (state self.old) (state self.new) }
        ensures size { blocks self.new ≡ blocks self.old }
        ensures count { reads self.new ≡ reads self.old }
        ensures cause { HasCause (faults self.old) (faults self.new) result };

    /// Makes durable all that was written. Whatever it answers, all blocks read as before.
    fn sync(&mut self) -> Result<(), Failed>
        ensures ok { OnOk result (state self.new ≡ synced (state self.old)) }
        ensures err { OnErr result (state self.new ≡ state self.old) }
        ensures ended { EndedSync (blocks self.old) (state self.old) (state self.new) }
        ensures size { blocks self.new ≡ blocks self.old }
        ensures count { reads self.new ≡ reads self.old }
        ensures cause { HasCause (faults self.old) (faults self.new) result };
}
