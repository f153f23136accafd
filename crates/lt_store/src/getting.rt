//! Reading the value of a key.

ghost use Rattle.std.specs.Prelude.{◌≡◌, ℕ, ◌≤◌, Ok, Some, true, IsErrOf};
ghost use Rattle.std.specs.Option.{ForSome};
ghost use Rattle.lt_terms.specs.Items.{value_at};
ghost use Rattle.lt_device.specs.Calls.{OnlyReads};
ghost use Rattle.lt_tables.specs.Table.{newest_of, value_of};
ghost use Rattle.lt_store.specs.Promise.{StopsGet};
ghost use Rattle.lt_store.specs.Getting.{Answers, AnswersSeen, KeepsBound, KeepsPage, most_reads_of, seen_of};
ghost use Rattle.lt_store.specs.Open.{blocks_of, state_of};
ghost use Rattle.lt_store.specs.View.{view_of};
ghost use Rattle.lt_store.specs.Calls.{WhereOpen};

use crate::store::Store;
use lt_device::Device;
use lt_htable::LookFault;
use lt_item::parts_of;
use lt_page::Page;
use lt_search::{search, show, value_len};

impl Store {
    /// Puts the value of a key to the front of a page and answers its length; `None` where the key has
    /// no value. The newest write of the key counts, whether it is durable or not.
    ///
    /// It takes no memory. It reads nothing where the memory table has the key, and else searches the
    /// tables on the key's path, within the bound of reads. `Damaged` is a block that was read as a
    /// bucket and spells none.
    pub fn get<D: Device>(
        &mut self,
        device: &mut D,
        key: &[u8],
        out: &mut Page,
    ) -> Result<Option<u16>, LookFault>
        requires up { self.old.is_up ≡ true }
        requires within { blocks_of (view_of self.old) ≤ D.blocks device.old }
        ensures answer { WhereOpen D.Device self.old device.old (λ durable.
            Answers out.new (value_at (state_of (view_of self.old) durable).map key.now) result) }

        // Whatever the device tells, an item of the memory table decides, and the device is not asked.
        ensures in_memory { ForSome (newest_of key.now self.old.memory) (λ item.
            (device.new ≡ device.old) × Answers out.new (value_of (Some item)) result) }

        // Whatever the blocks hold, it answers what it sees of the key, or the block that spells no bucket.
        ensures seen { ForSome (D.state device.old).shown (λ image.
            AnswersSeen out.new (seen_of (view_of self.old) image key.now) result) }

        ensures short { (n : ℕ) → result ≡ Ok (Some n) → n ≤ 3000 }
        ensures page { KeepsPage result out.old out.new }
        ensures unchanged { view_of self.new ≡ view_of self.old }
        ensures damaged { (b : ℕ) → IsErrOf result (LookFault.Damaged b)
            → StopsGet self.old.manifest (D.state device.old).shown key.now b }
        ensures calls { OnlyReads D.Device (most_reads_of (view_of self.old) key.now)
            (IsErrOf result LookFault.Device) device.old device.new }

        // On an open store, no more blocks than the read bound.
        ensures bound { WhereOpen D.Device self.old device.old
            (λ _. KeepsBound D.Device self.old.log.pending key.now device.old device.new) }
    {
        let parts = parts_of(key);
        let version = match self.memory.find(key, &parts) {
            Some(item) => Some(show(&item, out)),
            None => search(
                device,
                self.manifest.geometry(),
                self.manifest.trie(),
                &self.filters,
                key,
                &parts,
                &mut self.column,
                &mut self.page,
                out,
            )?,
        };
        Ok(value_len(version))
    }
}
