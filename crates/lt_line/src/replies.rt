//! The replies that wait to be written.

ghost use Rattle.std.specs.Prelude.{◌≡◌, ◌+◌, ◌≤◌, IfOk, length, drop, vec_len, vec_capacity};
ghost use Rattle.lt_line.specs.Waiting.{all_settled, nothing_waits, reply_room, settled_alone, with_text};
ghost use Rattle.lt_line.specs.Waiting.{without_front};

use lt_page::NoMemory;
use std::alloc::Global;
use std::marker::Model;

/// The text of replies, 65,536 bytes at most. What is settled may be written; behind it stands what is
/// not settled yet. All memory is taken by `new`.
#[derive(Drop)]
pub struct Replies {
    bytes: Vec<u8>,
    // Where the text begins. What stood before was dropped, and its room is taken back by `add`.
    start: usize,
    // Where the text begins that is not settled.
    settled: usize,
}

impl Model for Replies {
    ghost use Rattle.lt_line.specs.Waiting.{Waiting, HasRoom, waiting_in};

    ghost Value = { Waiting };

    ghost view = { waiting_in };

    ghost invariant = { HasRoom };
}

impl Replies {
    /// How many bytes of text fit.
    const ROOM: usize = 65_536;

    /// No text.
    pub fn new(alloc: Global) -> Result<Replies, NoMemory>
        ensures { IfOk result (λ replies. replies ≡ nothing_waits) }
    {
        Ok(Replies {
            bytes: Vec::with_capacity(alloc, Replies::ROOM)?,
            start: 0,
            settled: 0,
        })
    }

    /// How many bytes more fit.
    pub fn room(&self) -> usize
        ensures room { result ≡ self.now.room }
        ensures all { result + length self.now.settled_text + length self.now.pending_text ≡ reply_room }
    {
        Replies::ROOM - (self.bytes.len() - self.start)
    }

    /// Adds text that is not settled.
    pub fn add(&mut self, text: &[u8])
        requires { length text.now ≤ self.old.room }
        ensures { self.new ≡ with_text self.old text.now }
    {
        if text.len() > Replies::ROOM - self.bytes.len() {
            drop_first(&mut self.bytes, self.start);
            self.settled -= self.start;
            self.start = 0;
        }
        self.bytes.extend_from_slice(text).unwrap();
    }

    /// Settles all text.
    pub fn settle(&mut self)
        ensures { self.new ≡ all_settled self.old }
    {
        self.settled = self.bytes.len();
    }

    /// The text that may be written. With what waits behind it, and the room, it is the whole buffer.
    pub fn settled(&self) -> &[u8]
        ensures text { result.now ≡ self.now.settled_text }
        ensures all { self.now.room + length self.now.settled_text + length self.now.pending_text ≡ reply_room }
    {
        &self.bytes[self.start..self.settled]
    }

    /// Drops the first bytes of the settled text. It moves no byte.
    pub fn drop_front(&mut self, count: usize)
        requires { count ≤ length self.old.settled_text }
        ensures { self.new ≡ without_front count self.old }
    {
        self.start += count;
    }

    /// Drops the text that is not settled.
    pub fn drop_unsettled(&mut self)
        ensures { self.new ≡ settled_alone self.old }
    {
        self.bytes.truncate(self.settled);
    }
}

/// Drops the first bytes and moves the others to their place.
fn drop_first(bytes: &mut Vec<u8>, count: usize)
    requires { count ≤ vec_len bytes.old }
    ensures items { bytes.new.items ≡ drop count bytes.old.items }
    ensures capacity { vec_capacity bytes.new ≡ vec_capacity bytes.old }
{
    let rest = bytes.len() - count;
    bytes.copy_within(count.., 0);
    bytes.truncate(rest);
}
