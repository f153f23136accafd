//! The tally of replies: what a large run is reported by.

ghost use Rattle.std.specs.Prelude.{◌≡◌, ◌∷◌, ◌+◌, ◌<◌, ◌≤◌, [], ℕ, IsOk, IfOk, OnErr, length, take, if◌then◌else◌};
ghost use Rattle.lt_terms.specs.Causes.{HasCause};
ghost use Rattle.lt_io.specs.Streams.{Gains};
ghost use Rattle.lt_language.specs.Counts.{capped, counts_of, is_none, is_ok, is_refused, is_value};
ghost use Rattle.lt_line.specs.Tally.{counted, IsTallyOf, with_line, with_more};

use arrayvec::ArrayVec;
use lt_io::Sink;
use lt_page::Failed;
use std::marker::Model;

/// What a tally counted. Each number stops at 2^64 - 1.
#[derive(Clone, Copy, Debug, PartialEq, Eq)]
pub struct Summary {
    /// The lines `OK`.
    pub ok: u64,
    /// The lines that begin with `FULL` or are `LIMIT`.
    pub refused: u64,
    /// The lines that begin with `VALUE `.
    pub values: u64,
    /// The lines `NONE`.
    pub nones: u64,
    /// The bytes of all values shown.
    pub bytes: u64,
}

/// A sink that takes everything and counts the replies. It keeps no text but the first six bytes of the
/// unfinished line, which tell what kind of reply it is.
#[derive(Drop)]
pub struct Tally {
    ok: u64,
    refused: u64,
    values: u64,
    nones: u64,
    bytes: u64,
    front: ArrayVec<u8, 6>,
    // How many bytes of the unfinished line follow the first six.
    further: u64,
}

impl Model for Tally {
    ghost use Rattle.lt_language.specs.Counts.{Counts};

    ghost Value = { Counts };

    ghost view = { λ t. record {
      oks = t.ok;
      refusals = t.refused;
      values = t.values;
      nones = t.nones;
      bytes = t.bytes;
      front = t.front.items;
      further = t.further;
    } };
}

impl Tally {
    /// Nothing was taken.
    pub fn new() -> Tally
        ensures { result ≡ counts_of [] }
    {
        Tally {
            ok: 0,
            refused: 0,
            values: 0,
            nones: 0,
            bytes: 0,
            front: ArrayVec::new(),
            further: 0,
        }
    }

    /// The counts of the lines so far.
    pub fn summary(&self) -> Summary
        ensures ok { result.ok ≡ self.now.oks }
        ensures refused { result.refused ≡ self.now.refusals }
        ensures values { result.values ≡ self.now.values }
        ensures nones { result.nones ≡ self.now.nones }
        ensures bytes { result.bytes ≡ self.now.bytes }
    {
        Summary {
            ok: self.ok,
            refused: self.refused,
            values: self.values,
            nones: self.nones,
            bytes: self.bytes,
        }
    }

    fn take(&mut self, byte: u8)
        ensures { Gains (IsTallyOf self.old) (IsTallyOf self.new) (byte ∷ []) }
    {
        if byte == b'\n' {
            self.end_line();
        } else {
            self.lengthen(byte);
        }
    }

    fn lengthen(&mut self, byte: u8)
        ensures { self.new ≡ with_more self.old byte }
    {
        if self.front.len() < 6 {
            self.front.push(byte);
        } else {
            self.further = self.further.saturating_add(1);
        }
    }

    fn end_line(&mut self)
        ensures { self.new ≡ with_line self.old }
    {
        let front = self.front.as_slice();
        self.bytes = with_shown(self.bytes, self.further, is_value(front));
        self.ok = counted(self.ok, is_ok(front));
        self.refused = counted(self.refused, is_refused(front));
        self.values = counted(self.values, is_value(front));
        self.nones = counted(self.nones, is_none(front));
        self.front.clear();
        self.further = 0;
    }
}

impl Sink for Tally {
    ghost stands = { IsTallyOf };

    ghost faults = { λ _. 0 };

    /// Takes all bytes.
    fn write(&mut self, bytes: &[u8]) -> Result<usize, Failed>
        ensures fits { IfOk result (λ n. n ≤ length bytes.now) }
        ensures progress { IfOk result (λ n. 0 < length bytes.now → 0 < n) }
        ensures taken { IfOk result (λ n. Gains (IsTallyOf self.old) (IsTallyOf self.new) (take n bytes.now)) }
        ensures cause { HasCause 0 0 result }
        ensures err { OnErr result (Gains (IsTallyOf self.old) (IsTallyOf self.new) []) }

        // It never fails, and leaves no byte.
        ensures ok { IsOk result }
        ensures all { IfOk result (λ n. n ≡ length bytes.now) }
    {
        let mut taken = 0;
        while taken < bytes.len() {
            self.take(bytes[taken]);
            taken += 1;
        }
        Ok(taken)
    }
}

fn counted(count: u64, counts: bool) -> u64
    ensures { result ≡ counted count counts }
{
    count.saturating_add(u64::from(counts))
}

fn with_shown(bytes: u64, further: u64, shows: bool) -> u64
    ensures { result ≡ capped (bytes + (if shows then further else 0)) }
{
    if shows {
        bytes.saturating_add(further)
    } else {
        bytes
    }
}

#[tactic(auto, unfolding(lt_language::specs::Counts::is_ok))]
fn is_ok(line: &[u8]) -> bool
    ensures { result ≡ is_ok line.now }
{
    line == b"OK".as_slice()
}

#[tactic(auto, unfolding(lt_language::specs::Counts::is_refused))]
fn is_refused(line: &[u8]) -> bool
    ensures { result ≡ is_refused line.now }
{
    line.starts_with(b"FULL") || line == b"LIMIT".as_slice()
}

#[tactic(auto, unfolding(lt_language::specs::Counts::is_value))]
fn is_value(line: &[u8]) -> bool
    ensures { result ≡ is_value line.now }
{
    line.starts_with(b"VALUE ")
}

#[tactic(auto, unfolding(lt_language::specs::Counts::is_none))]
fn is_none(line: &[u8]) -> bool
    ensures { result ≡ is_none line.now }
{
    line == b"NONE".as_slice()
}
