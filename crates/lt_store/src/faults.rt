//! Why a call of a store was refused.

use lt_htable::{BuildFault, LookFault};
use lt_node::CommitFault;
use lt_page::{Failed, NoMemory};
use std::alloc::AllocError;

/// Why a store was not made.
#[derive(Clone, Copy, Debug, PartialEq, Eq)]
pub enum InitFault {
    /// The device failed. Its count of faults rose.
    Device,
    /// Block 0 is not all zero.
    Occupied,
    /// The device has fewer blocks than are needed.
    TooSmall { needed: u64, has: u64 },
    NoMemory,
}

impl From<Failed> for InitFault {
    ghost use Rattle.std.specs.Prelude.{◌≡◌};
    ghost use Rattle.lt_store.specs.declared.faults.InitFault.TheVariants.{Device};

    ghost from_gives = { λ _ fault. fault ≡ Device };

    fn from(_: Failed) -> InitFault {
        InitFault::Device
    }
}

impl From<NoMemory> for InitFault {
    ghost use Rattle.std.specs.Prelude.{◌≡◌};
    ghost use Rattle.lt_store.specs.declared.faults.InitFault.TheVariants as faults;

    ghost from_gives = { λ _ fault. fault ≡ faults.NoMemory };

    fn from(_: NoMemory) -> InitFault {
        InitFault::NoMemory
    }
}

impl From<CommitFault> for InitFault {
    ghost use Rattle.std.specs.Prelude.{◌≡◌};
    ghost use Rattle.lt_store.specs.Faults.{init_fault_of};

    ghost from_gives = { λ commit fault. fault ≡ init_fault_of commit };

    fn from(fault: CommitFault) -> InitFault {
        match fault {
            CommitFault::Device => InitFault::Device,
            CommitFault::NoMemory => InitFault::NoMemory,
        }
    }
}

/// Why a flush did not come to its end.
#[derive(Clone, Copy, Debug, PartialEq, Eq)]
pub(super) enum FlushFault {
    /// The device failed. Its count of faults rose.
    Device,
    NoMemory,
}

impl From<Failed> for FlushFault {
    ghost use Rattle.std.specs.Prelude.{◌≡◌};
    ghost use Rattle.lt_store.specs.declared.faults.FlushFault.TheVariants.{Device};

    ghost from_gives = { λ _ fault. fault ≡ Device };

    fn from(_: Failed) -> FlushFault {
        FlushFault::Device
    }
}

impl From<NoMemory> for FlushFault {
    ghost use Rattle.std.specs.Prelude.{◌≡◌};
    ghost use Rattle.lt_store.specs.declared.faults.FlushFault.TheVariants as faults;

    ghost from_gives = { λ _ fault. fault ≡ faults.NoMemory };

    fn from(_: NoMemory) -> FlushFault {
        FlushFault::NoMemory
    }
}

impl From<AllocError> for FlushFault {
    ghost use Rattle.std.specs.Prelude.{◌≡◌};
    ghost use Rattle.lt_store.specs.declared.faults.FlushFault.TheVariants as faults;

    ghost from_gives = { λ _ fault. fault ≡ faults.NoMemory };

    fn from(_: AllocError) -> FlushFault {
        FlushFault::NoMemory
    }
}

impl From<BuildFault> for FlushFault {
    ghost use Rattle.std.specs.Prelude.{◌≡◌};
    ghost use Rattle.lt_store.specs.Faults.{fault_of_build};

    ghost from_gives = { λ build fault. fault ≡ fault_of_build build };

    fn from(fault: BuildFault) -> FlushFault {
        match fault {
            BuildFault::Device => FlushFault::Device,
            BuildFault::NoMemory => FlushFault::NoMemory,
        }
    }
}

impl From<CommitFault> for FlushFault {
    ghost use Rattle.std.specs.Prelude.{◌≡◌};
    ghost use Rattle.lt_store.specs.Faults.{fault_of_commit};

    ghost from_gives = { λ commit fault. fault ≡ fault_of_commit commit };

    fn from(fault: CommitFault) -> FlushFault {
        match fault {
            CommitFault::Device => FlushFault::Device,
            CommitFault::NoMemory => FlushFault::NoMemory,
        }
    }
}

/// Why a store did not do what it was asked.
#[derive(Clone, Copy, Debug, PartialEq, Eq)]
pub enum WriteFault {
    /// The device failed. Its count of faults rose.
    Device,
    /// This block is a bucket's, was read and spells no bucket.
    Damaged(u64),
    NoMemory,
}

impl From<Failed> for WriteFault {
    ghost use Rattle.std.specs.Prelude.{◌≡◌};
    ghost use Rattle.lt_store.specs.declared.faults.WriteFault.TheVariants.{Device};

    ghost from_gives = { λ _ fault. fault ≡ Device };

    fn from(_: Failed) -> WriteFault {
        WriteFault::Device
    }
}

impl From<LookFault> for WriteFault {
    ghost use Rattle.std.specs.Prelude.{◌≡◌};
    ghost use Rattle.lt_store.specs.Faults.{fault_of_look};

    ghost from_gives = { λ look fault. fault ≡ fault_of_look look };

    fn from(fault: LookFault) -> WriteFault {
        match fault {
            LookFault::Device => WriteFault::Device,
            LookFault::Damaged(block) => WriteFault::Damaged(block),
        }
    }
}

impl From<FlushFault> for WriteFault {
    ghost use Rattle.std.specs.Prelude.{◌≡◌};
    ghost use Rattle.lt_store.specs.Faults.{fault_of_flush};

    ghost from_gives = { λ flush fault. fault ≡ fault_of_flush flush };

    fn from(fault: FlushFault) -> WriteFault {
        match fault {
            FlushFault::Device => WriteFault::Device,
            FlushFault::NoMemory => WriteFault::NoMemory,
        }
    }
}
