//! Giving settled text to a sink.

ghost use Rattle.std.specs.Prelude.{◌≡◌, ℕ, [], length, OnErr, OnOk};
ghost use Rattle.lt_terms.specs.Causes.{HasCause};
ghost use Rattle.lt_line.specs.Waiting.{nothing_waits};
ghost use Rattle.lt_serve.specs.Sending.{Sends};

use lt_io::Sink;
use lt_line::Replies;
use lt_page::Failed;

/// Gives the settled text to the sink and drops it; where nothing waits behind it, the whole room is
/// free then. After `Failed` exactly the bytes that the sink took are dropped.
pub fn emit<K: Sink>(sink: &mut K, out: &mut Replies) -> Result<(), Failed>
    ensures all { OnOk result (Sends (length out.old.settled_text) (K.stands sink.old)
        (K.stands sink.new) out.old out.new) }
    ensures free { OnOk result (out.old.pending_text ≡ [] → out.new ≡ nothing_waits) }
    ensures front { OnErr result ((count : ℕ) × Sends count (K.stands sink.old)
        (K.stands sink.new) out.old out.new) }
    ensures cause { HasCause (K.faults sink.old) (K.faults sink.new) result }
{
    while !out.settled().is_empty() {
        let taken = sink.write(out.settled())?;
        out.drop_front(taken);
    }
    Ok(())
}
