ghost use Rattle.std.specs.Prelude.{◌≡◌, ℕ, List, Option, Some, IfOk, OnErr, IsErr, IsOk, IsTrue, ◌↔◌, map};
ghost use Rattle.lt_terms.specs.Causes.{next_count};
ghost use Rattle.lt_terms.specs.Bytes.{is_in};
ghost use Rattle.lt_io.specs.Calls.{ReadsPiece};
ghost use Rattle.lt_io.specs.Memory.{HandsOut, after_failed_read, after_read, bytes_of, fresh_source, fresh_steady};
ghost use Rattle.lt_io.specs.Memory.{memory_source, steady_source};

use super::counts::{is_listed, risen};
use super::pieces::Pieces;
use super::source::Source;
use lt_page::{Failed, Page};
use std::marker::Model;

/// A source in memory, which fails where it is told to.
#[derive(Drop)]
pub struct MemSource {
    pieces: Pieces,
    failing: Vec<u64>,
    next: u64,
    taken: u64,
    faults: u64,
}

impl Model for MemSource {
    ghost use Rattle.lt_io.specs.Memory.{MemoryInput};

    ghost Value = { MemoryInput };

    ghost view = { λ s. record {
      left_pieces = s.pieces;
      failing_calls = s.failing.items;
      next_call = s.next;
      taken_pieces = s.taken;
      fault_count = s.faults;
    } };
}

impl MemSource {
    /// Hands out the pieces, a longer piece in parts of 4,096 bytes, empty pieces never. The reads
    /// with these numbers, from 0 on, fail.
    pub fn new(pieces: Vec<Vec<u8>>, failing: Vec<u64>) -> MemSource
        ensures { result ≡ fresh_source (map (λ piece. piece.items) pieces.items) failing.items }
    {
        MemSource {
            pieces: Pieces::new(pieces),
            failing,
            next: 0,
            taken: 0,
            faults: 0,
        }
    }

    fn next_fails(&mut self) -> bool
        ensures fails { IsTrue result ↔ IsTrue (is_in self.old.next_call self.old.failing_calls) }
        ensures next { self.new ≡ record self.old { next_call = next_count self.old.next_call } }
    {
        let fails = is_listed(self.next, &self.failing);
        self.next = risen(self.next);
        fails
    }
}

impl Source for MemSource {
    ghost left = { λ s. Some (bytes_of s.left_pieces) };

    ghost pieces = { λ s. s.taken_pieces };

    ghost faults = { λ s. s.fault_count };

    fn read(&mut self, into: &mut Page) -> Result<usize, Failed>
        ensures reads { ReadsPiece memory_source self.old self.new into.new result }

        // It fails where it is told to, and hands out a piece at a time.
        ensures fails { IsErr result ↔ IsTrue (is_in self.old.next_call self.old.failing_calls) }
        ensures hands_out { IfOk result (λ n. HandsOut n self.old.left_pieces self.new.left_pieces) }
        ensures ok_all { IfOk result (λ n. self.new ≡ after_read self.old n self.new.left_pieces) }
        ensures err_all { OnErr result (self.new ≡ after_failed_read self.old) }
    {
        if self.next_fails() {
            self.faults = risen(self.faults);
            return Err(Failed);
        }
        let n = self.pieces.take(into);
        if n > 0 {
            self.taken = risen(self.taken);
        }
        Ok(n)
    }
}

/// A source in memory that never fails.
#[derive(Drop)]
pub struct SteadySource {
    pieces: Pieces,
    taken: u64,
}

impl Model for SteadySource {
    ghost use Rattle.lt_io.specs.Memory.{SteadyInput};

    ghost Value = { SteadyInput };

    ghost view = { λ s. record { left_pieces = s.pieces; taken_pieces = s.taken } };
}

impl SteadySource {
    /// Hands out the pieces, a longer piece in parts of 4,096 bytes, empty pieces never.
    pub fn new(pieces: Vec<Vec<u8>>) -> SteadySource
        ensures { result ≡ fresh_steady (map (λ piece. piece.items) pieces.items) }
    {
        SteadySource {
            pieces: Pieces::new(pieces),
            taken: 0,
        }
    }
}

impl Source for SteadySource {
    ghost left = { λ s. Some (bytes_of s.left_pieces) };

    ghost pieces = { λ s. s.taken_pieces };

    ghost faults = { λ _. 0 };

    fn read(&mut self, into: &mut Page) -> Result<usize, Failed>
        ensures reads { ReadsPiece steady_source self.old self.new into.new result }

        // It never fails, and hands out a piece at a time.
        ensures ok { IsOk result }
        ensures hands_out { IfOk result (λ n. HandsOut n self.old.left_pieces self.new.left_pieces) }
    {
        let n = self.pieces.take(into);
        if n > 0 {
            self.taken = risen(self.taken);
        }
        Ok(n)
    }
}
