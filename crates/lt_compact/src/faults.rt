//! Why a step of a job was not made.

use lt_htable::{BuildFault, ScanFault};
use lt_page::NoMemory;
use std::alloc::AllocError;

/// Why a step of a job was not made.
#[derive(Clone, Copy, Debug, PartialEq, Eq)]
pub enum JobFault {
    /// The device failed. Its count of faults rose.
    Device,
    /// This block is a bucket's of one of the job's tables, was read and spells no bucket.
    Damaged(u64),
    NoMemory,
}

impl From<NoMemory> for JobFault {
    ghost use Rattle.std.specs.Prelude.{◌≡◌};
    ghost use Rattle.lt_compact.specs.declared.faults.JobFault.TheVariants as faults;

    ghost from_gives = { λ _ fault. fault ≡ faults.NoMemory };

    fn from(_: NoMemory) -> JobFault {
        JobFault::NoMemory
    }
}

impl From<AllocError> for JobFault {
    ghost use Rattle.std.specs.Prelude.{◌≡◌};
    ghost use Rattle.lt_compact.specs.declared.faults.JobFault.TheVariants as faults;

    ghost from_gives = { λ _ fault. fault ≡ faults.NoMemory };

    fn from(_: AllocError) -> JobFault {
        JobFault::NoMemory
    }
}

impl From<ScanFault> for JobFault {
    ghost use Rattle.std.specs.Prelude.{◌≡◌};
    ghost use Rattle.lt_compact.specs.Faults.{fault_of_scan};

    ghost from_gives = { λ scan fault. fault ≡ fault_of_scan scan };

    fn from(fault: ScanFault) -> JobFault {
        match fault {
            ScanFault::Device => JobFault::Device,
            ScanFault::Damaged(block) => JobFault::Damaged(block),
            ScanFault::NoMemory => JobFault::NoMemory,
        }
    }
}

impl From<BuildFault> for JobFault {
    ghost use Rattle.std.specs.Prelude.{◌≡◌};
    ghost use Rattle.lt_compact.specs.Faults.{fault_of_build};

    ghost from_gives = { λ build fault. fault ≡ fault_of_build build };

    fn from(fault: BuildFault) -> JobFault {
        match fault {
            BuildFault::Device => JobFault::Device,
            BuildFault::NoMemory => JobFault::NoMemory,
        }
    }
}
