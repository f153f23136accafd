use crate::checks::{check, same};
use lt_line::{Bad, Command, Lines, Replies, read_command};
use lt_page::NoMemory;
use std::alloc::{AllocError, Global};

fn key_of(alloc: Global, len: usize) -> Result<Vec<u8>, AllocError> {
    vec![in alloc; b'k'; len]
}

fn joined(alloc: Global, parts: &[&[u8]]) -> Result<Vec<u8>, AllocError> {
    let mut line = Vec::new(alloc);
    for part in parts {
        line.extend_from_slice(part)?;
    }
    Ok(line)
}

#[test]
fn lines_are_read_as_commands(rt: HostRuntime) {
    let rows: [(&[u8], Command<'_>); 14] = [
        (
            b"put a 1",
            Command::Put {
                key: b"a",
                value: b"1",
            },
        ),
        (
            b"put a ",
            Command::Put {
                key: b"a",
                value: b"",
            },
        ),
        (
            b"put a b c",
            Command::Put {
                key: b"a",
                value: b"b c",
            },
        ),
        (b"put  1", Command::Bad(Bad::Key)),
        (b"put a", Command::Bad(Bad::Syntax)),
        (b"get a", Command::Get { key: b"a" }),
        (b"get ", Command::Bad(Bad::Key)),
        (b"get a b", Command::Bad(Bad::Key)),
        (b"delete a", Command::Delete { key: b"a" }),
        (b"delete", Command::Bad(Bad::Syntax)),
        (b"stat", Command::Stat),
        (b"stat ", Command::Bad(Bad::Syntax)),
        (b"PUT a 1", Command::Bad(Bad::Syntax)),
        (b"", Command::Bad(Bad::Syntax)),
    ];
    for (line, want) in rows {
        same(&rt, read_command(line), want);
    }
}

#[test]
fn limits_are_kept(rt: HostRuntime) -> Result<(), NoMemory> {
    let longest_key = key_of(rt.alloc(), 255)?;
    let too_long_key = key_of(rt.alloc(), 256)?;
    let longest_value = key_of(rt.alloc(), 3000)?;
    let too_long_value = key_of(rt.alloc(), 3001)?;

    let longest = joined(rt.alloc(), &[b"put ", &longest_key, b" ", &longest_value])?;
    assert_eq!(rt; longest.len(), 3260);
    let put = Command::Put {
        key: &longest_key,
        value: &longest_value,
    };
    assert_eq!(rt; read_command(&longest), put);

    let longer = joined(rt.alloc(), &[&longest, b"k"])?;
    assert_eq!(rt; read_command(&longer), Command::Bad(Bad::Long));
    let bad_key = joined(rt.alloc(), &[b"get ", &too_long_key])?;
    assert_eq!(rt; read_command(&bad_key), Command::Bad(Bad::Key));
    let bad_value = joined(rt.alloc(), &[b"put k ", &too_long_value])?;
    assert_eq!(rt; read_command(&bad_value), Command::Bad(Bad::Value));
    Ok(())
}

#[test]
fn lines_come_out_of_pieces_however_they_are_cut(rt: HostRuntime) -> Result<(), NoMemory> {
    let mut lines = Lines::new(rt.alloc())?;
    same(&rt, lines.feed(b"get"), 3);
    check(&rt, !lines.ready());
    check(&rt, lines.has_rest());
    same(&rt, lines.feed(b" a\nstat\n"), 3);
    check(&rt, lines.ready());
    same(&rt, lines.command(), Command::Get { key: b"a" });
    lines.next();
    check(&rt, !lines.has_rest());
    same(&rt, lines.feed(b"stat\n"), 5);
    check(&rt, lines.ready());
    same(&rt, lines.command(), Command::Stat);
    Ok(())
}

#[test]
fn a_long_line_in_two_pieces_is_refused(rt: HostRuntime) -> Result<(), NoMemory> {
    let mut lines = Lines::new(rt.alloc())?;
    let piece = key_of(rt.alloc(), 3000)?;
    assert_eq!(rt; lines.feed(&piece), 3000);
    assert!(rt; !lines.ready());
    assert_eq!(rt; lines.feed(&piece), 3000);
    assert!(rt; !lines.ready());
    assert_eq!(rt; lines.feed(b"\n"), 1);
    assert!(rt; lines.ready());
    assert_eq!(rt; lines.command(), Command::Bad(Bad::Long));
    Ok(())
}

/// Drops the settled bytes one after another, as a sink that takes one byte at a time has it, and answers
/// how many there were.
fn drop_one_by_one(replies: &mut Replies) -> usize {
    let mut count = 0usize;
    for _ in 0..1 << 16 {
        if replies.settled().is_empty() {
            break;
        }
        replies.drop_front(1);
        count = count.saturating_add(1);
    }
    count
}

/// Adds a text if there is room, and answers the room that is left.
fn add_if_it_fits(replies: &mut Replies, text: &[u8]) -> usize {
    if text.len() <= replies.room() {
        replies.add(text);
    }
    replies.room()
}

#[test]
fn settled_replies_are_dropped_and_their_room_comes_back(rt: HostRuntime) -> Result<(), NoMemory> {
    let mut replies = Replies::new(rt.alloc())?;
    let text = vec![in rt.alloc(); b'x'; 40_000]?;
    same(&rt, add_if_it_fits(&mut replies, &text), 25_536);
    same(&rt, replies.settled(), b"".as_slice());
    replies.settle();
    same(&rt, add_if_it_fits(&mut replies, b"OK\n"), 25_533);
    same(&rt, drop_one_by_one(&mut replies), 40_000);

    // The text that is left goes to the front before the long one is added.
    same(&rt, add_if_it_fits(&mut replies, &text), 25_533);
    replies.settle();
    check(&rt, replies.settled().starts_with(b"OK\nx"));

    add_if_it_fits(&mut replies, b"BAD key\n");
    replies.drop_unsettled();
    same(&rt, replies.room(), 25_533);
    replies.settle();
    same(&rt, drop_one_by_one(&mut replies), 40_003);
    same(&rt, replies.room(), 65_536);
    Ok(())
}
