//! Why a round failed.

use lt_page::Failed;
use lt_store::WriteFault;

/// Why a round failed. The session is over then.
#[derive(Clone, Copy, Debug, PartialEq, Eq)]
pub enum RoundFault {
    /// The device failed. Its count of faults rose.
    Device,
    /// A get asked this block for a bucket, and it spells none.
    Damaged(u64),
    NoMemory,
}

impl From<Failed> for RoundFault {
    ghost use Rattle.std.specs.Prelude.{◌≡◌};
    ghost use Rattle.lt_serve.specs.declared.faults.RoundFault.TheVariants.{Device};

    ghost from_gives = { λ _ fault. fault ≡ Device };

    fn from(_: Failed) -> RoundFault {
        RoundFault::Device
    }
}

impl From<WriteFault> for RoundFault {
    ghost use Rattle.std.specs.Prelude.{◌≡◌};
    ghost use Rattle.lt_serve.specs.Faults.{round_fault_of};

    ghost from_gives = { λ given fault. fault ≡ round_fault_of given };

    fn from(fault: WriteFault) -> RoundFault {
        match fault {
            WriteFault::Device => RoundFault::Device,
            WriteFault::Damaged(block) => RoundFault::Damaged(block),
            WriteFault::NoMemory => RoundFault::NoMemory,
        }
    }
}
