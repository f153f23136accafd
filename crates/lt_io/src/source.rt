ghost use Rattle.std.specs.Prelude.{◌≡◌, ℕ, ◌<◌, ◌≤◌, List, [], Option, Some, IfOk, OnErr, take};
ghost use Rattle.lt_terms.specs.Causes.{HasCause};
ghost use Rattle.lt_io.specs.Streams.{Takes, IsAtEnd, pieces_after};

use lt_page::{Failed, Page};

/// Hands out bytes.
pub trait Source {
    /// The bytes left, where the source tells them.
    ghost left: { Self → Option (List ℕ) };

    /// How many nonempty pieces were taken, up to 2^64 - 1.
    ghost pieces: { Self → ℕ };

    /// How many faults there were, up to 2^64 - 1.
    ghost faults: { Self → ℕ };

    /// Puts the next bytes at the front of the page and answers their number; 0 is the end. After
    /// `Failed` no byte was taken. What the page holds behind the bytes, or after `Failed`, is open.
    fn read(&mut self, into: &mut Page) -> Result<usize, Failed>
        ensures fits { IfOk result (λ n. n ≤ 4096) }
        ensures bytes { IfOk result (λ n. Takes (left self.old) (left self.new) (take n into.new)) }
        ensures end { IfOk result (λ n. n ≡ 0 → IsAtEnd (left self.old)) }
        ensures only_end { IfOk result (λ n. left self.old ≡ Some [] → n ≡ 0) }
        ensures pieces { IfOk result (λ n. pieces self.new ≡ pieces_after n (pieces self.old)) }

        ensures cause { HasCause (faults self.old) (faults self.new) result }
        ensures err { OnErr result (left self.new ≡ left self.old) }
        ensures err_pieces { OnErr result (pieces self.new ≡ pieces self.old) };
}
