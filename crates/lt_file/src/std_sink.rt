//! A writer as a sink.

ghost use Rattle.std.specs.Prelude.{◌≡◌, ◌<◌, ◌≤◌, [], Some, length, take, IfOk, OnOk, OnErr};
ghost use Rattle.lt_io.specs.Streams.{Gains};
ghost use Rattle.lt_terms.specs.Causes.{next_count};

use super::counts::risen;
use lt_io::Sink;
use lt_page::Failed;
use std::io::Write;
use std::marker::Model;

/// A writer as a sink. The count of faults rises with each write that fails, or that takes nothing of a
/// nonempty piece. Contracts see the count, and the bytes that the writer holds, where it tells them.
#[derive(Drop)]
pub struct StdSink<W: Write + Drop> {
    output: W,
    faults: u64,
}

impl<W: Write + Drop> Model for StdSink<W> {
    ghost use Rattle.lt_file.specs.Streams.{Output};

    ghost Value = { Output };

    ghost view = { λ s. record { held = W.contents s.output; faults = s.faults } };
}

impl<W: Write + Drop> StdSink<W> {
    /// There was no fault.
    pub fn new(output: W) -> StdSink<W>
        ensures { result ≡ record { held = W.contents output; faults = 0 } }
    {
        StdSink { output, faults: 0 }
    }
}

impl<W: Write + Drop> Sink for StdSink<W> {
    ghost stands = { λ sink taken. sink.held ≡ Some taken };

    ghost faults = { λ sink. sink.faults };

    #[tactic(auto, using(crate::proofs::Gained::gains_appended, crate::proofs::Gained::gains_kept))]
    fn write(&mut self, bytes: &[u8]) -> Result<usize, Failed>
        ensures fits { IfOk result (λ count. count ≤ length bytes.now) }
        ensures progress { IfOk result (λ count. 0 < length bytes.now → 0 < count) }
        ensures taken { IfOk result (λ count. Gains (λ taken. self.old.held ≡ Some taken)
            (λ taken. self.new.held ≡ Some taken) (take count bytes.now)) }
        ensures ok { OnOk result (self.new.faults ≡ self.old.faults) }
        ensures err { OnErr result (self.new.faults ≡ next_count self.old.faults) }
        ensures err_taken { OnErr result (Gains (λ taken. self.old.held ≡ Some taken)
            (λ taken. self.new.held ≡ Some taken) []) }
    {
        match self.output.write(bytes) {
            Ok(count) if count > 0 || bytes.is_empty() => Ok(count),
            _ => {
                self.faults = risen(self.faults);
                Err(Failed)
            }
        }
    }
}
