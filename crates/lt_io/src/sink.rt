ghost use Rattle.std.specs.Prelude.{◌≡◌, ℕ, ◌-◌, ◌<◌, ◌≤◌, List, [], IfOk, OnOk, OnErr, take, length};
ghost use Rattle.lt_terms.specs.Causes.{HasCause};
ghost use Rattle.lt_io.specs.Streams.{Gains, GainsPart};

use lt_page::Failed;

/// Takes bytes.
pub trait Sink {
    /// The lists of bytes that it stands for, as those that it took; none where it tells nothing.
    ghost stands: { Self → List ℕ → Type 0 };

    /// How many faults there were, up to 2^64 - 1.
    ghost faults: { Self → ℕ };

    /// Takes a front of the bytes and answers its length, at least 1 where there is a byte. After
    /// `Failed` no byte was taken.
    fn write(&mut self, bytes: &[u8]) -> Result<usize, Failed>
        ensures fits { IfOk result (λ n. n ≤ length bytes.now) }
        ensures progress { IfOk result (λ n. 0 < length bytes.now → 0 < n) }
        ensures taken { IfOk result (λ n. Gains (stands self.old) (stands self.new) (take n bytes.now)) }

        ensures cause { HasCause (faults self.old) (faults self.new) result }
        ensures err { OnErr result (Gains (stands self.old) (stands self.new) []) };
}

/// Writes all of the bytes. After `Failed` a front of them was taken, and not all.
pub fn write_all<K: Sink>(sink: &mut K, bytes: &[u8]) -> Result<(), Failed>
    ensures all { OnOk result (Gains (K.stands sink.old) (K.stands sink.new) bytes.now) }
    ensures cause { HasCause (K.faults sink.old) (K.faults sink.new) result }
    ensures err { OnErr result (GainsPart (K.stands sink.old) (K.stands sink.new) bytes.now) }
{
    let mut written = 0;
    while written < bytes.len() {
        written += sink.write(&bytes[written..])?;
    }
    Ok(())
}
