//! How serving ended.

ghost use Rattle.std.specs.Prelude.{◌≡◌};
ghost use Rattle.lt_serve.specs.Faults.{served_of, unopened_of};

use crate::faults::RoundFault;
use lt_layout::OpenFault;

/// How serving ended.
#[derive(Clone, Copy, Debug, PartialEq, Eq)]
pub enum Served {
    /// The source was read to its end, and every line was answered.
    Done,
    /// The source failed. Its count of faults rose.
    Source,
    /// The sink failed. Its count of faults rose.
    Sink,
    /// The device failed. Its count of faults rose.
    Device,
    /// This block does not stand.
    Damaged(u64),
    NoMemory,
    /// As many nonempty pieces were taken as one run may take.
    Turns,
}

/// The answer where a round failed.
pub(super) fn served_of(fault: RoundFault) -> Served
    ensures { result ≡ served_of fault }
{
    match fault {
        RoundFault::Device => Served::Device,
        RoundFault::Damaged(block) => Served::Damaged(block),
        RoundFault::NoMemory => Served::NoMemory,
    }
}

/// The answer where the store was not opened.
pub(super) fn unopened_of(fault: OpenFault) -> Served
    ensures { result ≡ unopened_of fault }
{
    match fault {
        OpenFault::Device => Served::Device,
        OpenFault::Damaged(block) => Served::Damaged(block),
        OpenFault::NoMemory => Served::NoMemory,
    }
}
