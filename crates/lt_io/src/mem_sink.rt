ghost use Rattle.std.specs.Prelude.{◌≡◌, ℕ, ◌<◌, ◌≤◌, List, [], IfOk, OnErr, IsErr, IsTrue, ◌↔◌, take, length};
ghost use Rattle.lt_terms.specs.Causes.{HasCause, next_count};
ghost use Rattle.lt_io.specs.Streams.{Gains};
ghost use Rattle.lt_io.specs.Memory.{after_failed_write, after_write, fresh_sink, refuses, taken_of};

use super::counts::{is_listed, risen};
use super::sink::Sink;
use lt_page::{Failed, NoMemory};
use std::alloc::Global;
use std::marker::Model;

/// A sink in memory, which stands for exactly one list: the bytes that it took.
#[derive(Drop)]
pub struct MemSink {
    taken: Vec<u8>,
    room: usize,
    step: usize,
    failing: Vec<u64>,
    next: u64,
    faults: u64,
}

impl Model for MemSink {
    ghost use Rattle.lt_io.specs.Memory.{MemoryOutput};

    ghost Value = { MemoryOutput };

    ghost use Rattle.lt_io.specs.Output.{output_of, HasRoom};

    ghost view = { output_of };

    ghost invariant = { HasRoom };
}

impl MemSink {
    /// Takes up to `room` bytes in all and up to `step` bytes, at least 1, in one write. The writes
    /// with these numbers, from 0 on, fail, and so does a write where no room is left.
    pub fn new(
        alloc: Global,
        room: usize,
        step: usize,
        failing: Vec<u64>,
    ) -> Result<MemSink, NoMemory>
        requires { 1 ≤ step }
        ensures { IfOk result (λ sink. sink ≡ fresh_sink room step failing.items) }
    {
        let taken = Vec::with_capacity(alloc, room)?;
        Ok(MemSink {
            taken,
            room,
            step,
            failing,
            next: 0,
            faults: 0,
        })
    }

    /// The bytes that it took.
    pub fn taken(&self) -> &[u8]
        ensures { result.now ≡ self.now.taken_bytes }
    {
        &self.taken
    }

    fn next_fails(&mut self) -> bool
        ensures fails { IsTrue result ↔ IsTrue (refuses self.old) }
        ensures next { self.new ≡ record self.old { next_call = next_count self.old.next_call } }
    {
        let fails = is_listed(self.next, &self.failing);
        self.next = risen(self.next);
        fails || self.room <= self.taken.len()
    }
}

impl Sink for MemSink {
    ghost stands = { λ sink bytes. bytes ≡ sink.taken_bytes };

    ghost faults = { λ sink. sink.fault_count };

    fn write(&mut self, bytes: &[u8]) -> Result<usize, Failed>
        ensures fits { IfOk result (λ n. n ≤ length bytes.now) }
        ensures progress { IfOk result (λ n. 0 < length bytes.now → 0 < n) }
        ensures taken { IfOk result (λ n. Gains (λ b. b ≡ self.old.taken_bytes) (λ b. b ≡ self.new.taken_bytes)
            (take n bytes.now)) }

        ensures cause { HasCause self.old.fault_count self.new.fault_count result }
        ensures err { OnErr result (Gains (λ b. b ≡ self.old.taken_bytes) (λ b. b ≡ self.new.taken_bytes) []) }

        // It fails where it is told to, and takes as much as it is told to.
        ensures fails { IsErr result ↔ IsTrue (refuses self.old) }
        ensures takes { IfOk result (λ n. n ≡ taken_of self.old (length bytes.now)) }
        ensures ok_all { IfOk result (λ n. self.new ≡ after_write self.old (take n bytes.now)) }
        ensures err_all { OnErr result (self.new ≡ after_failed_write self.old) }
    {
        if self.next_fails() {
            self.faults = risen(self.faults);
            return Err(Failed);
        }
        let n = bytes.len().min(self.step).min(self.room - self.taken.len());
        self.taken.extend_from_slice(&bytes[..n]).unwrap();
        Ok(n)
    }
}
