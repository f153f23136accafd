ghost use Rattle.std.specs.Prelude.{◌≡◌, ◌≢◌, ◌<◌, ◌≤◌, ◌↔◌, ◌++◌, [], length, take, true, false, ◌==◌, position};
ghost use Rattle.std.specs.Prelude.{IsTrue, IfOk, IfSome};
ghost use Rattle.lt_language.specs.Commands.{command_of, line_feed};
ghost use Rattle.lt_line.specs.Held.{kept_of, Ends, GoesOn};
ghost use Rattle.lt_line.specs.View.{view_of};

use super::command::{Command, read_command};
use lt_page::NoMemory;
use std::alloc::Global;
use std::marker::Model;

/// Lines out of pieces of any size. Of a line of any length the first 3,261 bytes are kept, which tell
/// its command.
#[derive(Drop)]
pub struct Lines {
    bytes: Vec<u8>,
    is_ended: bool,
}

impl Model for Lines {
    ghost use Rattle.lt_line.specs.Held.{HeldLine};

    ghost Value = { HeldLine };

    ghost use Rattle.lt_line.specs.Buffer.{held_in, IsBounded};

    ghost view = { held_in };

    ghost invariant = { IsBounded };
}

impl Lines {
    /// How many bytes of a line are kept.
    const ROOM: usize = 3261;

    pub fn new(alloc: Global) -> Result<Lines, NoMemory>
        ensures { IfOk result (λ lines. lines ≡ record { kept = []; is_ended = false }) }
    {
        let bytes = Vec::with_capacity(alloc, Lines::ROOM)?;
        Ok(Lines {
            bytes,
            is_ended: false,
        })
    }

    /// Takes the bytes up to and with the first line feed, or all, and answers their number.
    pub fn feed(&mut self, piece: &[u8]) -> usize
        requires { self.old.is_ended ≡ false }
        ensures within { result ≤ length piece.now }
        ensures ends { self.new.is_ended ≡ true → Ends self.old self.new (take result piece.now) }
        ensures goes_on { self.new.is_ended ≡ false → (result ≡ length piece.now) × GoesOn self.old self.new piece.now }
    {
        match first_line_feed(piece) {
            None => {
                self.keep(piece);
                piece.len()
            }
            Some(at) => {
                self.keep(&piece[..at]);
                self.is_ended = true;
                at + 1
            }
        }
    }

    /// Whether a whole line stands ready.
    pub fn ready(&self) -> bool
        ensures { result ≡ self.now.is_ended }
    {
        self.is_ended
    }

    /// The command of the line that stands ready.
    pub fn command(&self) -> Command<'_>
        requires { self.now.is_ended ≡ true }
        ensures { view_of result ≡ command_of self.now.kept }
    {
        read_command(&self.bytes)
    }

    /// Drops the line that stands ready.
    pub fn next(&mut self)
        requires { self.old.is_ended ≡ true }
        ensures { self.new ≡ record { kept = []; is_ended = false } }
    {
        self.bytes.clear();
        self.is_ended = false;
    }

    /// Whether bytes stand after the last line feed.
    pub fn has_rest(&self) -> bool
        requires { self.now.is_ended ≡ false }
        ensures { IsTrue result ↔ (self.now.kept ≢ []) }
    {
        !self.bytes.is_empty()
    }

    fn keep(&mut self, chunk: &[u8])
        ensures kept { self.new.kept ≡ kept_of (self.old.kept ++ chunk.now) }
        ensures same { self.new.is_ended ≡ self.old.is_ended }
    {
        let n = chunk.len().min(Lines::ROOM - self.bytes.len());
        self.bytes.extend_from_slice(&chunk[..n]).unwrap();
    }
}

fn first_line_feed(bytes: &[u8]) -> Option<usize>
    ensures place { result ≡ position (λ b. b == line_feed) bytes.now }
    ensures within { IfSome result (λ at. at < length bytes.now) }
{
    bytes.iter().position(|b| *b == b'\n')
}
