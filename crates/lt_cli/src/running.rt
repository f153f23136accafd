//! The word `run`.

ghost use Rattle.std.specs.Prelude.{◌≡◌};
ghost use Rattle.lt_cli.specs.Promise.{EndsAtRest, EndsSeen, EndsUnopened, FindsDamage, HasCauses, IsRunEnd};

use crate::status::Status;
use crate::telling::tell_damage;
use lt_device::Device;
use lt_io::{Sink, Source};
use lt_serve::{Served, serve};
use std::alloc::Global;

/// Serves the store of a device.
pub(super) fn run<S: Source, K: Sink, D: Device>(
    alloc: Global,
    source: &mut S,
    sink: &mut K,
    device: &mut D,
) -> Status
    ensures over { EndsAtRest S.Source K.Sink D.Device result source.old source.new sink.old sink.new
        device.old device.new }
    ensures end { IsRunEnd result }
    ensures damaged { result ≡ Status.Damaged → FindsDamage S.Source K.Sink D.Device source.old source.new
        sink.old sink.new device.old device.new }
    ensures unopened { EndsUnopened K.Sink D.Device result source.old source.new sink.old sink.new
        device.old device.new }
    ensures seen { EndsSeen S.Source K.Sink D.Device result source.old source.new sink.old sink.new
        device.old }
    ensures causes { HasCauses S.Source K.Sink D.Device result source.old source.new sink.old sink.new
        device.old device.new }
{
    match serve(alloc, source, sink, device) {
        Served::Done => Status::Done,
        Served::Source => Status::SourceFault,
        Served::Sink => Status::SinkFault,
        Served::Device => Status::DeviceFault,
        Served::Damaged(block) => {
            // A sink fault leaves the status.
            let _ = tell_damage(sink, block);
            Status::Damaged
        }
        Served::NoMemory => Status::NoMemory,
        Served::Turns => Status::Turns,
    }
}
