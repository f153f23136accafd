//! Why something on a device was not opened.

use lt_page::{Failed, NoMemory};

/// Why something on a device was not opened.
#[derive(Clone, Copy, Debug, PartialEq, Eq)]
pub enum OpenFault {
    /// The device failed. Its count of faults rose.
    Device,
    /// This block does not stand as the layout says.
    Damaged(u64),
    NoMemory,
}

impl From<Failed> for OpenFault {
    ghost use Rattle.std.specs.Prelude.{◌≡◌};
    ghost use Rattle.lt_layout.specs.declared.fault.OpenFault.TheVariants.{Device};

    ghost from_gives = { λ _ fault. fault ≡ Device };

    fn from(_: Failed) -> OpenFault {
        OpenFault::Device
    }
}

impl From<NoMemory> for OpenFault {
    ghost use Rattle.std.specs.Prelude.{◌≡◌};
    ghost use Rattle.lt_layout.specs.declared.fault.OpenFault.TheVariants as faults;

    ghost from_gives = { λ _ fault. fault ≡ faults.NoMemory };

    fn from(_: NoMemory) -> OpenFault {
        OpenFault::NoMemory
    }
}
