//! Why a group is not written.

use lt_page::{Failed, NoMemory};

/// Why a group is not written.
#[derive(Clone, Copy, Debug, PartialEq, Eq)]
pub enum GroupFault {
    /// The device failed. Its count of faults rose.
    Device,
    NoMemory,
}

impl From<Failed> for GroupFault {
    ghost use Rattle.std.specs.Prelude.{◌≡◌};
    ghost use Rattle.lt_container.specs.declared.fault.GroupFault.TheVariants.{Device};

    ghost from_gives = { λ _ fault. fault ≡ Device };

    fn from(_: Failed) -> GroupFault {
        GroupFault::Device
    }
}

impl From<NoMemory> for GroupFault {
    ghost use Rattle.std.specs.Prelude.{◌≡◌};
    ghost use Rattle.lt_container.specs.declared.fault.GroupFault.TheVariants as faults;

    ghost from_gives = { λ _ fault. fault ≡ faults.NoMemory };

    fn from(_: NoMemory) -> GroupFault {
        GroupFault::NoMemory
    }
}
