//! The top call: the words, serving a store and making one.

ghost use Rattle.std.specs.Prelude.{◌≡◌, ◌⊎◌, ◌↔◌, ℕ};
ghost use Rattle.lt_terms.specs.Causes.{Rose};
ghost use Rattle.lt_cli.specs.Promise.{EndsAtRest, EndsSeen, EndsUnopened, FindsDamage, HasCauses, InitEnded};
ghost use Rattle.lt_cli.specs.Promise.{IsInit, IsRun, IsRunEnd, IsUncounted};

use crate::making::make;
use crate::running::run;
use crate::status::Status;
use crate::words::{Task, task_of};
use lt_device::Device;
use lt_io::{Sink, Source};
use std::alloc::Global;

/// Runs the program: `run` serves the store of the device, and answers the lines of the source to the sink;
/// `init E L S` makes a store of E extents, L levels and S slots in each log area.
///
/// A put or a delete is answered `OK` once it outlives a power cut. The first fault decides the status; a
/// sink fault while the line of a damaged block or of a refusal is written leaves that status.
pub fn lsm_trie<S: Source, K: Sink, D: Device>(
    alloc: Global,
    words: &[String],
    source: &mut S,
    sink: &mut K,
    device: &mut D,
) -> Status
    // The words, before all else.
    ensures words { (result ≡ Status.Words) ↔ ((IsRun words.now
        ⊎ (extents : ℕ) × (levels : ℕ) × (slots : ℕ) × IsInit words.now extents levels slots) → ⊥) }
    ensures untouched { result ≡ Status.Words → (source.new ≡ source.old) × (sink.new ≡ sink.old)
        × (device.new ≡ device.old) }

    // `run` on a device at rest: the answers, the crashes, and no damage.
    ensures run { IsRun words.now → EndsAtRest S.Source K.Sink D.Device result source.old source.new
        sink.old sink.new device.old device.new }

    // `run` on any device.
    ensures run_end { IsRun words.now → IsRunEnd result }
    ensures damaged { result ≡ Status.Damaged → IsRun words.now
        × FindsDamage S.Source K.Sink D.Device source.old source.new sink.old sink.new device.old device.new }
    // Where it opens, up to the first write that is taken, a get is answered by what the blocks tell of its key, and so
    // stops at a damaged bucket.
    ensures seen { IsRun words.now → EndsSeen S.Source K.Sink D.Device result source.old source.new
        sink.old sink.new device.old }
    ensures unopened { IsRun words.now → EndsUnopened K.Sink D.Device result source.old source.new
        sink.old sink.new device.old device.new }

    // `init`. It never reads the source.
    ensures init { (extents levels slots : ℕ) → IsInit words.now extents levels slots
        → InitEnded K.Sink D.Device (record { levels = levels; slots = slots }) extents result sink.old sink.new
        device.old device.new × (source.new ≡ source.old) }

    // The cause of each status, and that no other status comes where no count rose.
    ensures causes { HasCauses S.Source K.Sink D.Device result source.old source.new sink.old sink.new
        device.old device.new }
    ensures complete { (Rose (S.faults source.old) (S.faults source.new) → ⊥)
        → (Rose (K.faults sink.old) (K.faults sink.new) → ⊥)
        → (Rose (D.faults device.old) (D.faults device.new) → ⊥) → IsUncounted result }
{
    match task_of(words) {
        None => Status::Words,
        Some(Task::Run) => run(alloc, source, sink, device),
        Some(
            Task::Init {
                extents,
                levels,
                slots,
            },
        ) => make(alloc, sink, device, extents, levels, slots),
    }
}
