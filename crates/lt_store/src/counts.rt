//! What a store tells of itself in numbers.

ghost use Rattle.std.specs.Prelude.{◌≡◌, ◌+◌, ◌≤◌, true};
ghost use Rattle.lt_store.specs.Counts.{Tells};
ghost use Rattle.lt_store.specs.View.{view_of};

use crate::store::Store;
use lt_device::Device;

/// How many writes were accepted, how many blocks the device has read so far, how many tables there are,
/// and how many extents the manifest does not name.
#[derive(Clone, Copy, Debug, PartialEq, Eq)]
pub struct Stat {
    pub writes: u64,
    pub reads: u64,
    pub tables: u32,
    pub free: u32,
}

impl Store {
    /// The numbers of the store and of its device at this moment.
    pub fn stat<D: Device>(&self, device: &D) -> Stat
        requires { self.now.is_up ≡ true }
        ensures told { Tells D.Device (view_of self.now) result device.now }
        ensures within { result.tables + result.free ≤ self.now.manifest.manifest.header.extents }
    {
        Stat {
            writes: self.writes,
            reads: device.reads(),
            tables: self.manifest.trie().tables(),
            free: self.extents.free() + self.work.reserved_numbers().len() as u32,
        }
    }
}
