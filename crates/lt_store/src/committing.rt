//! Making writes durable.

ghost use Rattle.std.specs.Prelude.{IsErr, ◌≡◌, ◌≤◌, true, false, [], OnOk, OnErr, IsOk};
ghost use Rattle.lt_device.specs.Calls.{OnlyWrites};
ghost use Rattle.lt_store.specs.Open.{blocks_of};
ghost use Rattle.lt_store.specs.View.{view_of};
ghost use Rattle.lt_store.specs.Committing.{committed};
ghost use Rattle.lt_store.specs.Calls.{GoesOn, KeepsGroup, LosesNothing};

use crate::store::Store;
use lt_device::Device;
use lt_page::Failed;

impl Store {
    /// Makes all writes durable. With nothing pending it makes no call of the device. After `Failed` the
    /// store is opened again.
    pub fn commit<D: Device>(&mut self, device: &mut D) -> Result<(), Failed>
        requires up { self.old.is_up ≡ true }
        requires within { blocks_of (view_of self.old) ≤ D.blocks device.old }
        ensures ok { OnOk result (view_of self.new ≡ committed (view_of self.old)) }
        ensures up { OnOk result (self.new.is_up ≡ true) }
        ensures err { OnErr result (self.new.is_up ≡ false) }
        ensures idle { self.old.log.pending ≡ [] → (IsOk result × (device.new ≡ device.old)) }

        // All that was pending is durable; and whatever it answers, nothing is lost at any moment.
        ensures opened { OnOk result (GoesOn D.Device self.old [] self.new device.old device.new) }
        ensures broken { OnErr result (LosesNothing D.Device self.old device.old device.new) }

        // The open group is there as a whole, or not at all.
        ensures whole { KeepsGroup D.Device self.old device.old device.new }

        ensures calls { OnlyWrites D.Device (IsErr result) device.old device.new }
    {
        match self.log.commit(device) {
            Ok(()) => Ok(()),
            Err(fault) => {
                self.is_up = false;
                Err(fault)
            }
        }
    }
}
