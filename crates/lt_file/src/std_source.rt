//! A reader as a source.

ghost use Rattle.std.specs.Prelude.{◌≡◌, ◌≤◌, None, IfOk, OnOk, OnErr, take};
ghost use Rattle.std.specs.Io.KnownBytes.{Consumes, IsAtEnd, Keeps};
ghost use Rattle.lt_io.specs.Streams.{pieces_after};
ghost use Rattle.lt_terms.specs.Causes.{next_count};

use super::counts::risen;
use lt_io::Source;
use lt_page::{Failed, Page};
use std::io::Read;
use std::marker::Model;

/// A reader as a source. The count of faults rises with each read that fails.
#[derive(Drop)]
pub struct StdSource<R: Read + Drop> {
    input: R,
    pieces: u64,
    faults: u64,
}

impl<R: Read + Drop> Model for StdSource<R> {
    ghost use Rattle.lt_file.specs.Streams.{Input};

    ghost Value = { Input };

    ghost view = { λ s. record { left_bytes = R.remaining s.input; pieces = s.pieces; faults = s.faults } };
}

impl<R: Read + Drop> StdSource<R> {
    /// No piece was taken, and there was no fault.
    pub fn new(input: R) -> StdSource<R>
        ensures { result ≡ record { left_bytes = R.remaining input; pieces = 0; faults = 0 } }
    {
        StdSource {
            input,
            pieces: 0,
            faults: 0,
        }
    }
}

impl<R: Read + Drop> Source for StdSource<R> {
    ghost left = { λ _. None };

    ghost pieces = { λ source. source.pieces };

    ghost faults = { λ source. source.faults };

    fn read(&mut self, into: &mut Page) -> Result<usize, Failed>
        ensures fits { IfOk result (λ count. count ≤ 4096) }
        ensures pieces { IfOk result (λ count. self.new.pieces ≡ pieces_after count self.old.pieces) }
        ensures ok { OnOk result (self.new.faults ≡ self.old.faults) }
        ensures err { OnErr result (self.new.faults ≡ next_count self.old.faults) }
        ensures err_pieces { OnErr result (self.new.pieces ≡ self.old.pieces) }

        // Of a reader that tells its bytes: those that it gave stand at the front of the page.
        ensures bytes { IfOk result (λ count. Consumes self.old.left_bytes self.new.left_bytes (take count into.new)) }
        ensures end { IfOk result (λ count. count ≡ 0 → IsAtEnd self.new.left_bytes) }
        ensures err_bytes { OnErr result (Keeps self.old.left_bytes self.new.left_bytes) }
    {
        let mut bytes = [0; Page::LEN];
        match self.input.read(&mut bytes) {
            Ok(count) => {
                into.fill_from(0, &bytes[..count]);
                if count > 0 {
                    self.pieces = risen(self.pieces);
                }
                Ok(count)
            }
            Err(_) => {
                self.faults = risen(self.faults);
                Err(Failed)
            }
        }
    }
}
