ghost use Rattle.std.specs.Prelude.{◌≡◌, ◌<◌, ◌≤◌, ◌++◌, ℕ, List, [], map, take};
ghost use Rattle.lt_io.specs.Memory.{nonempty, bytes_of, HandsOut};

use lt_page::Page;
use std::marker::Model;

// Pieces of bytes that are handed out in turn. Contracts see those that are left, none of them empty.
#[derive(Drop)]
pub(super) struct Pieces {
    pieces: Vec<Vec<u8>>,
    // The place of the first piece that is left, and of its first byte that is left.
    first: usize,
    at: usize,
}

impl Model for Pieces {
    ghost use Rattle.std.specs.Prelude.{List, ℕ, ◌<◌, ◌≤◌, length, vec_len};
    ghost use Rattle.std.specs.List.{All};

    ghost Value = { List (List ℕ) };

    ghost use Rattle.lt_io.specs.Pieces.{left_of, HasPlace};

    ghost view = { left_of };

    ghost invariant = { HasPlace };
}

impl Pieces {
    pub(super) fn new(mut pieces: Vec<Vec<u8>>) -> Pieces
        ensures { result ≡ nonempty (map (λ piece. piece.items) pieces.items) }
    {
        pieces.retain(|piece| !piece.is_empty());
        Pieces {
            pieces,
            first: 0,
            at: 0,
        }
    }

    // Puts the first piece, or a page of it, at the front of the page, and answers its length.
    pub(super) fn take(&mut self, into: &mut Page) -> usize
        ensures fits { result ≤ 4096 }
        ensures hands_out { HandsOut result self.old self.new }
        ensures bytes { bytes_of self.old ≡ take result into.new ++ bytes_of self.new }
        ensures end { result ≡ 0 → self.old ≡ [] }
    {
        if self.first == self.pieces.len() {
            return 0;
        }
        let piece = &self.pieces[self.first][self.at..];
        let n = piece.len().min(Page::LEN);
        into.fill_from(0, &piece[..n]);
        if n == piece.len() {
            self.first += 1;
            self.at = 0;
        } else {
            self.at += n;
        }
        n
    }
}
