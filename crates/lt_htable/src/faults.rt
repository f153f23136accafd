//! Why a table is not built, looked up or scanned.

use lt_page::{Failed, NoMemory};

/// Why a table is not built, or its filters are not read.
#[derive(Clone, Copy, Debug, PartialEq, Eq)]
pub enum BuildFault {
    /// The device failed. Its count of faults rose.
    Device,
    NoMemory,
}

impl From<Failed> for BuildFault {
    ghost use Rattle.std.specs.Prelude.{◌≡◌};
    ghost use Rattle.lt_htable.specs.declared.faults.BuildFault.TheVariants.{Device};

    ghost from_gives = { λ _ fault. fault ≡ Device };

    fn from(_: Failed) -> BuildFault {
        BuildFault::Device
    }
}

impl From<NoMemory> for BuildFault {
    ghost use Rattle.std.specs.Prelude.{◌≡◌};
    ghost use Rattle.lt_htable.specs.declared.faults.BuildFault.TheVariants as faults;

    ghost from_gives = { λ _ fault. fault ≡ faults.NoMemory };

    fn from(_: NoMemory) -> BuildFault {
        BuildFault::NoMemory
    }
}

/// Why a look-up gives no answer.
#[derive(Clone, Copy, Debug, PartialEq, Eq)]
pub enum LookFault {
    /// The device failed. Its count of faults rose.
    Device,
    /// This block is a bucket's, was read and spells no bucket.
    Damaged(u64),
}

impl From<Failed> for LookFault {
    ghost use Rattle.std.specs.Prelude.{◌≡◌};
    ghost use Rattle.lt_htable.specs.declared.faults.LookFault.TheVariants.{Device};

    ghost from_gives = { λ _ fault. fault ≡ Device };

    fn from(_: Failed) -> LookFault {
        LookFault::Device
    }
}

/// Why a table is not scanned.
#[derive(Clone, Copy, Debug, PartialEq, Eq)]
pub enum ScanFault {
    /// The device failed. Its count of faults rose.
    Device,
    /// This block is a bucket's, was read and spells no bucket.
    Damaged(u64),
    NoMemory,
}

impl From<LookFault> for ScanFault {
    ghost use Rattle.std.specs.Prelude.{◌≡◌};
    ghost use Rattle.lt_htable.specs.Faults.{scan_fault_of};

    ghost from_gives = { λ look fault. fault ≡ scan_fault_of look };

    fn from(fault: LookFault) -> ScanFault {
        match fault {
            LookFault::Device => ScanFault::Device,
            LookFault::Damaged(block) => ScanFault::Damaged(block),
        }
    }
}

impl From<NoMemory> for ScanFault {
    ghost use Rattle.std.specs.Prelude.{◌≡◌};
    ghost use Rattle.lt_htable.specs.declared.faults.ScanFault.TheVariants as faults;

    ghost from_gives = { λ _ fault. fault ≡ faults.NoMemory };

    fn from(_: NoMemory) -> ScanFault {
        ScanFault::NoMemory
    }
}
