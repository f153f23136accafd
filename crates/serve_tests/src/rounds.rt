ghost use Rattle.std.specs.Prelude.{◌≡◌, ◌≤◌, true};
ghost use Rattle.lt_store.specs.Open.{blocks_of};
ghost use Rattle.lt_serve.specs.View.{store_in};

use crate::checks::same;
use lt_device::{Device, MemDevice, Steady};
use lt_io::{MemSink, SteadySource};
use lt_line::Replies;
use lt_page::NoMemory;
use lt_serve::{RoundFault, Served, Session, add_outcome, serve};
use lt_store::{Outcome, Stat, Taken, init};
use std::alloc::Global;
use std::test::Fail;

/// A store of 1 extent, 2 levels and 1 slot has so many blocks.
const BLOCKS: u64 = 937;

/// Makes a round, where the session is up and there is room for a reply.
fn round<D: Device>(
    alloc: Global,
    session: &mut Session,
    device: &mut D,
    piece: &[u8],
    replies: &mut Replies,
) -> Option<Result<usize, RoundFault>>
    requires { blocks_of (store_in session.old) ≤ D.blocks device.old }
{
    if !session.is_up() || replies.room() < 3007 {
        return None;
    }
    Some(session.round(alloc, device, piece, replies))
}

/// Opens a session and makes one round. Answers what the round answered and the settled text.
fn one_round<D: Device>(
    alloc: Global,
    device: &mut D,
    piece: &[u8],
) -> Result<(Option<Result<usize, RoundFault>>, Vec<u8>), Fail> {
    let mut replies = Replies::new(alloc)?;
    let Ok(mut session) = Session::open(alloc, device) else {
        return Ok((None, Vec::new(alloc)));
    };
    let taken = round(alloc, &mut session, device, piece, &mut replies);
    Ok((taken, replies.settled().to_vec(alloc)?))
}

fn made(alloc: Global) -> Result<MemDevice, Fail> {
    let mut device = MemDevice::new(alloc, BLOCKS, 999, Vec::new(alloc), None)?;
    let _ = init(alloc, &mut device, 1, 2, 1);
    Ok(device)
}

#[test]
fn a_round_that_fails_keeps_the_replies_before_its_first_write(
    rt: HostRuntime,
) -> Result<(), Fail> {
    let alloc = rt.alloc();
    let first = made(alloc)?;
    let piece = b"get a\nput a 1\nget a\n";
    let mut device = first.crash(alloc, &[], 999, Vec::new(alloc), None)?;
    let (taken, settled) = one_round(alloc, &mut device, piece)?;
    same(&rt, taken, Some(Ok(piece.len())));
    same(&rt, settled.as_slice(), b"NONE\nOK\nVALUE 1\n".as_slice());

    // Opening makes so many calls; the first write of the commit fails.
    let opening = device.reads();
    let mut device = first.crash(alloc, &[], 999, vec![in alloc; opening]?, None)?;
    let (taken, settled) = one_round(alloc, &mut device, piece)?;
    same(&rt, taken, Some(Err(RoundFault::Device)));
    same(&rt, settled.as_slice(), b"NONE\n".as_slice());
    Ok(())
}

#[test]
fn a_round_stops_where_there_is_no_room_for_a_reply(rt: HostRuntime) -> Result<(), Fail> {
    let alloc = rt.alloc();
    let mut device = Steady::new(alloc, BLOCKS)?;
    let _ = init(alloc, &mut device, 1, 2, 1);
    let mut piece = b"put k ".to_vec(alloc)?;
    for _ in 0..3000 {
        piece.push(b'v')?;
    }
    piece.push(b'\n')?;
    let put = piece.len();
    for _ in 0..30 {
        piece.extend_from_slice(b"get k\n")?;
    }
    let (taken, settled) = one_round(alloc, &mut device, &piece)?;
    // Each value takes 3,007 bytes; behind 21 of them there is no room for another.
    same(&rt, taken, Some(Ok(put + 21 * 6)));
    same(&rt, settled.len(), 3 + 21 * 3007);
    Ok(())
}

#[test]
fn a_source_is_served_to_its_end(rt: HostRuntime) -> Result<(), NoMemory> {
    let alloc = rt.alloc();
    let mut device = Steady::new(alloc, BLOCKS)?;
    let mut sink = MemSink::new(alloc, 99, 3, Vec::new(alloc))?;
    let mut source = SteadySource::new(Vec::new(alloc));
    same(
        &rt,
        serve(alloc, &mut source, &mut sink, &mut device),
        Served::Damaged(0),
    );
    let _ = init(alloc, &mut device, 1, 2, 1);
    let mut pieces = Vec::new(alloc);
    for piece in ["put a", " 1\nget ", "a\nget b\nend"] {
        pieces.push(piece.as_bytes().to_vec(alloc)?)?;
    }
    let mut source = SteadySource::new(pieces);
    same(
        &rt,
        serve(alloc, &mut source, &mut sink, &mut device),
        Served::Done,
    );
    same(
        &rt,
        sink.taken(),
        b"OK\nVALUE 1\nNONE\nBAD end\n".as_slice(),
    );
    Ok(())
}

#[test]
fn outcomes_have_their_texts(rt: HostRuntime) -> Result<(), NoMemory> {
    let alloc = rt.alloc();
    let stat = Stat {
        writes: 18_446_744_073_709_551_615,
        reads: 0,
        tables: 65_536,
        free: 7,
    };
    let full = Taken::Full { needed: 2, free: 1 };
    let rows: [(Outcome, &str); 7] = [
        (Outcome::Taken(Taken::Ok), "OK\n"),
        (Outcome::Taken(full), "FULL 2 1\n"),
        (Outcome::Taken(Taken::Limit), "LIMIT\n"),
        (Outcome::Value(3), "VALUE abc\n"),
        (Outcome::Missing, "NONE\n"),
        (Outcome::Stat(stat), "STAT 18446744073709551615 0 65536 7\n"),
        (Outcome::Committed, ""),
    ];
    for (outcome, want) in rows {
        let mut replies = Replies::new(alloc)?;
        add_outcome(&mut replies, &outcome, b"abc");
        replies.settle();
        same(&rt, replies.settled(), want.as_bytes());
    }
    Ok(())
}
