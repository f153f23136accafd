//! The source that a large run is made from.

ghost use Rattle.std.specs.Prelude.{◌≡◌, ◌<◌, ◌≤◌, ◌+◌, ◌-◌, ◌++◌, ℕ, Some, IsOk, IfOk, IsTrue, [], length, min, take};
ghost use Rattle.lt_io.specs.Calls.{ReadsPiece};
ghost use Rattle.std.specs.Bool.{IsFalse};
ghost use Rattle.lt_language.specs.Generator.{load_stream};
ghost use Rattle.lt_line.specs.Generated.{generated_source, left_bytes};

use super::generator::{Line, LoadLines};
use lt_io::Source;
use lt_page::{Failed, Page};
use std::marker::Model;

/// A source that makes its bytes of a seed and a count: so many lines of writes, and then a get of each
/// key. It holds one line at a time.
#[derive(Drop)]
pub struct GenSource {
    lines: LoadLines,
    line: Line,
    // How many bytes of the line were handed out.
    at: usize,
    pieces: u64,
}

impl Model for GenSource {
    ghost use Rattle.lt_line.specs.Generated.{Generated};
    ghost use Rattle.std.specs.Prelude.{◌≤◌, drop, length};

    ghost Value = { Generated };

    ghost view = { λ s. record {
      line_rest = drop s.at s.line.items;
      later_lines = s.lines;
      taken_pieces = s.pieces;
    } };

    ghost invariant = { λ s. s.at ≤ length s.line.items };
}

impl GenSource {
    /// The stream of this seed and this count, 1 to 1,000,000.
    #[tactic(auto, unfolding(lt_language::specs::Generator::load_stream))]
    pub fn new(seed: u32, count: u32) -> GenSource
        requires some { 1 ≤ count }
        requires bounded { count ≤ 1000000 }
        ensures bytes { left_bytes result ≡ load_stream seed count }
        ensures pieces { result.taken_pieces ≡ 0 }
    {
        GenSource {
            lines: LoadLines::new(seed, count),
            line: Line::new(),
            at: 0,
            pieces: 0,
        }
    }

    // Sees to it that a byte of the line is left, where the stream has one.
    fn turn_line(&mut self) -> bool
        ensures same { left_bytes self.new ≡ left_bytes self.old }
        ensures pieces { self.new.taken_pieces ≡ self.old.taken_pieces }
        ensures more { IsTrue result → 0 < length self.new.line_rest }
        ensures end { IsFalse result → left_bytes self.new ≡ [] }
    {
        if self.at < self.line.len() {
            return true;
        }
        match self.lines.next() {
            None => false,
            Some(line) => {
                self.line = line;
                self.at = 0;
                true
            }
        }
    }

    // Puts what is left of the line, as far as the page has room from this place on.
    fn put_line(&mut self, into: &mut Page, from: usize) -> usize
        requires { from ≤ 4096 }
        ensures fits { result ≡ min (length self.old.line_rest) (4096 - from) }
        ensures shown { length (take (from + result) into.new) ≡ from + result }
        ensures bytes { take (from + result) into.new ++ left_bytes self.new
            ≡ take from into.old ++ left_bytes self.old }
        ensures pieces { self.new.taken_pieces ≡ self.old.taken_pieces }
    {
        let rest = &self.line.as_slice()[self.at..];
        let n = rest.len().min(Page::LEN - from);
        into.fill_from(from, &rest[..n]);
        self.at += n;
        n
    }

    // Fills the page as far as the stream goes.
    fn fill(&mut self, into: &mut Page) -> usize
        ensures fits { result ≤ 4096 }
        ensures shown { length (take result into.new) ≡ result }
        ensures bytes { left_bytes self.old ≡ take result into.new ++ left_bytes self.new }
        ensures full { result < 4096 → left_bytes self.new ≡ [] }
        ensures pieces { self.new.taken_pieces ≡ self.old.taken_pieces }
    {
        let mut n = 0;
        while n < Page::LEN {
            if !self.turn_line() {
                return n;
            }
            n += self.put_line(into, n);
        }
        n
    }
}

impl Source for GenSource {
    ghost left = { λ s. Some (left_bytes s) };

    ghost pieces = { λ s. s.taken_pieces };

    ghost faults = { λ _. 0 };

    /// Fills the page as far as the stream goes.
    fn read(&mut self, into: &mut Page) -> Result<usize, Failed>
        ensures reads { ReadsPiece generated_source self.old self.new into.new result }

        // It never fails, and every piece but the last is a whole page.
        ensures ok { IsOk result }
        ensures full { IfOk result (λ n. n ≡ min (length (left_bytes self.old)) 4096) }
    {
        let n = self.fill(into);
        if n > 0 {
            self.pieces = self.pieces.saturating_add(1);
        }
        Ok(n)
    }
}
