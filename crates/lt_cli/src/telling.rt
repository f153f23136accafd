//! Lines that tell why a call was refused.

ghost use Rattle.std.specs.Prelude.{◌≡◌, ℕ, OnErr, OnOk};
ghost use Rattle.lt_terms.specs.Causes.{HasCause};
ghost use Rattle.lt_language.specs.Replies.{spaced};
ghost use Rattle.lt_io.specs.Streams.{Gains, GainsFront};
ghost use Rattle.lt_cli.specs.Promise.{damage_line, small_line};

use itoa::Buffer;
use lt_io::{Sink, write_all};
use lt_page::Failed;

/// Writes the line that tells of a damaged block.
pub(super) fn tell_damage<K: Sink>(sink: &mut K, block: u64) -> Result<(), Failed>
    ensures all { OnOk result (Gains (K.stands sink.old) (K.stands sink.new) (damage_line block)) }
    ensures front { OnErr result (GainsFront (K.stands sink.old) (K.stands sink.new)
        (damage_line block)) }
    ensures cause { HasCause (K.faults sink.old) (K.faults sink.new) result }
{
    write_all(sink, b"DAMAGED")?;
    tell_number(sink, block)?;
    write_all(sink, b"\n")
}

/// Writes the line that tells of a device with too few blocks.
pub(super) fn tell_small<K: Sink>(sink: &mut K, needed: u64, has: u64) -> Result<(), Failed>
    ensures all { OnOk result (Gains (K.stands sink.old) (K.stands sink.new)
        (small_line needed has)) }
    ensures front { OnErr result (GainsFront (K.stands sink.old) (K.stands sink.new)
        (small_line needed has)) }
    ensures cause { HasCause (K.faults sink.old) (K.faults sink.new) result }
{
    write_all(sink, b"TOO SMALL")?;
    tell_number(sink, needed)?;
    tell_number(sink, has)?;
    write_all(sink, b"\n")
}

/// Writes a space and a number.
fn tell_number<K: Sink>(sink: &mut K, number: u64) -> Result<(), Failed>
    ensures all { OnOk result (Gains (K.stands sink.old) (K.stands sink.new) (spaced number)) }
    ensures front { OnErr result (GainsFront (K.stands sink.old) (K.stands sink.new)
        (spaced number)) }
    ensures cause { HasCause (K.faults sink.old) (K.faults sink.new) result }
{
    let mut buffer = Buffer::new();
    write_all(sink, b" ")?;
    write_all(sink, buffer.format(number).as_bytes())
}
