use lt_cli::lsm_trie;
use lt_device::{Device, MemDevice, Pick, Steady};
use lt_io::{MemSink, MemSource, Sink, Source, SteadySource};
use lt_page::{NoMemory, Page};
use std::alloc::Global;
use std::fmt::Debug;
use std::process::Abort;

/// A store of 1 extent, 2 levels and 1 slot has so many blocks. Its extent begins at block 872.
const BLOCKS: u64 = 937;

/// The bucket of `a` in the first extent.
const HOME_OF_A: u64 = 929;

/// More calls of a device than any of these runs makes.
const CALLS: usize = 9999;

/// Fails the test unless both are the same.
fn same<T: PartialEq + Debug + Drop>(rt: &impl Abort, got: T, want: T) {
    assert_eq!(rt; got, want);
}

fn owned(alloc: Global, pieces: &[&str]) -> Result<Vec<Vec<u8>>, NoMemory> {
    let mut owned = Vec::new(alloc);
    for piece in pieces {
        owned.push(piece.as_bytes().to_vec(alloc)?)?;
    }
    Ok(owned)
}

/// The bytes of some texts, each repeated so many times, and a line feed.
fn line(alloc: Global, parts: &[(&str, usize)]) -> Result<Vec<u8>, NoMemory> {
    let mut line = Vec::new(alloc);
    for (text, times) in parts {
        for _ in 0..*times {
            line.extend_from_slice(text.as_bytes())?;
        }
    }
    line.push(b'\n')?;
    Ok(line)
}

/// Runs over any source, sink and device. Answers the status.
fn run_over<S: Source, K: Sink, D: Device>(
    alloc: Global,
    words: &str,
    source: &mut S,
    sink: &mut K,
    device: &mut D,
) -> Result<u8, NoMemory> {
    let mut owned = Vec::new(alloc);
    for word in words.split(' ') {
        owned.push(word.to_string(alloc)?)?;
    }
    Ok(lsm_trie(alloc, &owned, source, sink, device).code())
}

/// Runs over steady ends. Answers what was shown, and the status.
fn run_pieces<D: Device>(
    alloc: Global,
    device: &mut D,
    words: &str,
    pieces: Vec<Vec<u8>>,
) -> Result<(Vec<u8>, u8), NoMemory> {
    let mut source = SteadySource::new(pieces);
    let mut sink = MemSink::new(alloc, 65_536, 4096, Vec::new(alloc))?;
    let status = run_over(alloc, words, &mut source, &mut sink, device)?;
    Ok((sink.taken().to_vec(alloc)?, status))
}

fn run_words<D: Device>(
    alloc: Global,
    device: &mut D,
    words: &str,
    pieces: &[&str],
) -> Result<(Vec<u8>, u8), NoMemory> {
    run_pieces(alloc, device, words, owned(alloc, pieces)?)
}

fn run<D: Device>(
    alloc: Global,
    device: &mut D,
    pieces: &[&str],
) -> Result<(Vec<u8>, u8), NoMemory> {
    run_words(alloc, device, "run", pieces)
}

/// Fails the test unless this was shown, and this is the status.
fn shows(rt: &impl Abort, answer: &(Vec<u8>, u8), text: &[u8], status: u8) {
    assert_eq!(rt; (answer.0.as_slice(), answer.1), (text, status));
}

/// Runs over a source and a sink whose calls with these numbers fail.
fn run_failing<D: Device>(
    alloc: Global,
    device: &mut D,
    pieces: &[&str],
    failing_reads: Vec<u64>,
    failing_writes: Vec<u64>,
) -> Result<(Vec<u8>, u8), NoMemory> {
    let mut source = MemSource::new(owned(alloc, pieces)?, failing_reads);
    let mut sink = MemSink::new(alloc, 4096, 4096, failing_writes)?;
    let status = run_over(alloc, "run", &mut source, &mut sink, device)?;
    Ok((sink.taken().to_vec(alloc)?, status))
}

/// A device in memory with an empty store.
fn made_by(alloc: Global, words: &str, blocks: u64) -> Result<MemDevice, NoMemory> {
    let mut device = MemDevice::new(alloc, blocks, CALLS, Vec::new(alloc), None)?;
    run_words(alloc, &mut device, words, &[])?;
    Ok(device)
}

/// One of 1 extent, 2 levels and 1 slot.
fn made(alloc: Global) -> Result<MemDevice, NoMemory> {
    made_by(alloc, "init 1 2 1", BLOCKS)
}

/// The same after two puts, of which the first was flushed, and one that was refused.
fn made_full(alloc: Global) -> Result<MemDevice, NoMemory> {
    let mut device = made(alloc)?;
    run(alloc, &mut device, &["put a 1\n", "put b 2\n", "put c 3\n"])?;
    Ok(device)
}

/// How many blocks are read to open the store of a device.
fn opening_reads(alloc: Global, device: &MemDevice) -> Result<u64, NoMemory> {
    let mut copy = device.crash(alloc, &[], CALLS, Vec::new(alloc), None)?;
    run(alloc, &mut copy, &[])?;
    Ok(copy.reads())
}

/// Puts bytes into a block of a device at rest, from this place on.
fn spoil(
    alloc: Global,
    device: &mut MemDevice,
    block: u64,
    at: usize,
    bytes: &[u8],
) -> Result<(), NoMemory> {
    let mut page = Page::new(alloc)?;
    if block < device.blocks()
        && device.is_synced()
        && at < Page::LEN
        && bytes.len() <= Page::LEN - at
    {
        page.copy_from(device.page(block));
        page.fill_from(at, bytes);
        device.patch(block, &page);
    }
    Ok(())
}

#[test]
fn lines_are_answered_by_a_store(rt: HostRuntime) -> Result<(), NoMemory> {
    let alloc = rt.alloc();
    let rows: [(&[&str], &str); 7] = [
        (&[], ""),
        (&["put k v\nget k\n"], "OK\nVALUE v\n"),
        (&["put k \nget k\n"], "OK\nVALUE \n"),
        (
            &["put k 1\nput k 2\nget k\ndelete k\nget k\ndelete k\nget k\n"],
            "OK\nOK\nVALUE 2\nOK\nNONE\nOK\nNONE\n",
        ),
        (
            &["put k 1\n", "get k\nget", " k\n"],
            "OK\nVALUE 1\nVALUE 1\n",
        ),
        (
            &["\nput k\nput  v\nget\nget \nget a b\nstat x\nPUT k v\n"],
            "BAD syntax\nBAD syntax\nBAD key\nBAD syntax\nBAD key\nBAD key\nBAD syntax\nBAD syntax\n",
        ),
        (&["put k v\nget k"], "OK\nBAD end\n"),
    ];
    for (pieces, want) in rows {
        let mut device = Steady::new(alloc, 1384)?;
        let answer = run_words(alloc, &mut device, "init 4 2 64", &[])?;
        shows(&rt, &answer, b"", 0);
        let answer = run(alloc, &mut device, pieces)?;
        shows(&rt, &answer, want.as_bytes(), 0);
    }
    Ok(())
}

/// Lines, as texts that are each repeated so many times, and their replies one after another on an
/// empty store.
const LINES: [(&[(&str, usize)], &str); 14] = [
    (&[("put k v", 1)], "OK\n"),
    (&[("get k", 1)], "VALUE v\n"),
    (&[("put k ", 1)], "OK\n"),
    (&[("get k", 1)], "VALUE \n"),
    (&[("put k 1", 1)], "OK\n"),
    (&[("put k 2", 1)], "OK\n"),
    (&[("delete k", 1)], "OK\n"),
    (&[("delete k", 1)], "OK\n"),
    (&[("get k", 1)], "NONE\n"),
    // The longest key and the longest value, and one byte more of each.
    (&[("put ", 1), ("k", 255), (" ", 1), ("v", 3000)], "OK\n"),
    (&[("put ", 1), ("k", 256), (" v", 1)], "BAD key\n"),
    (&[("put k ", 1), ("v", 3001)], "BAD value\n"),
    // One byte more than the longest line.
    (&[("get ", 1), ("k", 3257)], "BAD long\n"),
    (&[("get k", 1)], "NONE\n"),
];

/// The replies to those lines.
fn replies(alloc: Global) -> Result<Vec<u8>, NoMemory> {
    let mut replies = Vec::new(alloc);
    for (_, reply) in LINES {
        replies.extend_from_slice(reply.as_bytes())?;
    }
    Ok(replies)
}

/// Those lines, a piece each.
fn lines(alloc: Global) -> Result<Vec<Vec<u8>>, NoMemory> {
    let mut lines = Vec::new(alloc);
    for (parts, _) in LINES {
        lines.push(line(alloc, parts)?)?;
    }
    Ok(lines)
}

/// The bytes of some pieces, one behind the other.
fn joined(alloc: Global, pieces: &[Vec<u8>]) -> Result<Vec<u8>, NoMemory> {
    let mut joined = Vec::new(alloc);
    for piece in pieces {
        joined.extend_from_slice(piece)?;
    }
    Ok(joined)
}

/// These bytes, a piece each.
fn single(alloc: Global, bytes: &[u8]) -> Result<Vec<Vec<u8>>, NoMemory> {
    let mut pieces = Vec::new(alloc);
    for byte in bytes {
        pieces.push(vec![in alloc; *byte]?)?;
    }
    Ok(pieces)
}

/// Runs these pieces on an empty store.
fn run_anew(alloc: Global, pieces: Vec<Vec<u8>>) -> Result<(Vec<u8>, u8), NoMemory> {
    let mut device = Steady::new(alloc, 1384)?;
    run_words(alloc, &mut device, "init 4 2 64", &[])?;
    run_pieces(alloc, &mut device, "run", pieces)
}

#[test]
fn pieces_of_any_size_are_answered_alike(rt: HostRuntime) -> Result<(), NoMemory> {
    let alloc = rt.alloc();
    let want = replies(alloc)?;
    let lines = lines(alloc)?;
    let whole = joined(alloc, &lines)?;
    let bytes = single(alloc, &whole)?;
    shows(&rt, &run_anew(alloc, vec![in alloc; whole]?)?, &want, 0);
    shows(&rt, &run_anew(alloc, lines)?, &want, 0);
    shows(&rt, &run_anew(alloc, bytes)?, &want, 0);
    Ok(())
}

#[test]
fn puts_are_refused_once_no_extent_is_free(rt: HostRuntime) -> Result<(), NoMemory> {
    let alloc = rt.alloc();
    let mut device = made(alloc)?;
    let pieces = [
        "put a 1\n",
        "put b 2\n",
        "put c 3\n",
        "get a\n",
        "get b\n",
        "stat\n",
    ];
    let answer = run(alloc, &mut device, &pieces)?;
    let mut want = b"OK\nOK\nFULL 1 0\nVALUE 1\nVALUE 2\nSTAT 2 ".to_vec(alloc)?;
    let reads = device.reads().to_string(alloc)?;
    want.extend_from_slice(reads.as_bytes())?;
    want.extend_from_slice(b" 1 0\n")?;
    shows(&rt, &answer, want.as_slice(), 0);
    Ok(())
}

/// A get of a key that lies in its home bucket reads that one block.
#[test]
fn a_get_between_two_stats_is_counted(rt: HostRuntime) -> Result<(), NoMemory> {
    let alloc = rt.alloc();
    let mut device = made(alloc)?;
    let pieces = ["put a 1\n", "put b 2\n", "stat\nget a\nstat\n"];
    let answer = run(alloc, &mut device, &pieces)?;
    let reads = device.reads();
    let mut want = b"OK\nOK\n".to_vec(alloc)?;
    for (reply, count) in [
        ("STAT 2 ", reads.saturating_sub(1)),
        ("VALUE 1\nSTAT 2 ", reads),
    ] {
        want.extend_from_slice(reply.as_bytes())?;
        want.extend_from_slice(count.to_string(alloc)?.as_bytes())?;
        want.extend_from_slice(b" 1 0\n")?;
    }
    shows(&rt, &answer, want.as_slice(), 0);
    Ok(())
}

#[test]
fn other_words_leave_all_as_it_was(rt: HostRuntime) -> Result<(), NoMemory> {
    let alloc = rt.alloc();
    for words in [
        "run x",
        "",
        "stop",
        "init 1 2",
        "init 0 2 1",
        "init 65537 2 1",
        "init 1 1 1",
        "init 1 6 1",
        "init 1 2 0",
        "init 1 2 513",
        "init 01 2 1",
        "init +1 2 1",
    ] {
        let mut device = Steady::new(alloc, BLOCKS)?;
        let mut source = SteadySource::new(owned(alloc, &["put a 1\n"])?);
        let mut sink = MemSink::new(alloc, 9, 9, Vec::new(alloc))?;
        let status = run_over(alloc, words, &mut source, &mut sink, &mut device)?;
        same(&rt, (words, status), (words, 1));
        same(&rt, sink.taken(), b"".as_slice());
        same(&rt, source.read(&mut Page::new(alloc)?), Ok(8));
        same(&rt, device.reads(), 0);
    }
    Ok(())
}

#[test]
fn a_store_is_made_where_there_is_room_and_nothing_else(rt: HostRuntime) -> Result<(), NoMemory> {
    let alloc = rt.alloc();
    let mut device = made(alloc)?;
    let answer = run_words(alloc, &mut device, "init 1 2 1", &[])?;
    shows(&rt, &answer, b"OCCUPIED\n", 6);
    for (blocks, want) in [(936, "TOO SMALL 937 936\n"), (0, "TOO SMALL 937 0\n")] {
        let mut device = Steady::new(alloc, blocks)?;
        let answer = run_words(alloc, &mut device, "init 1 2 1", &[])?;
        shows(&rt, &answer, want.as_bytes(), 6);
        let answer = run(alloc, &mut device, &["get a\n"])?;
        shows(&rt, &answer, b"DAMAGED 0\n", 5);
    }
    Ok(())
}

#[test]
fn a_write_under_way_is_there_whole_or_not_at_all(rt: HostRuntime) -> Result<(), NoMemory> {
    let alloc = rt.alloc();
    let first = made_by(alloc, "init 4 2 64", 1384)?;
    // Each put writes its content, syncs, writes its gate and syncs.
    let opening = opening_reads(alloc, &first)?;
    let stop = Some(opening.saturating_add(7));
    let mut device = first.crash(alloc, &[], CALLS, Vec::new(alloc), stop)?;
    let answer = run(alloc, &mut device, &["put a 1\n", "put b 2\n"])?;
    shows(&rt, &answer, b"OK\n", 4);
    let rows = [
        (1, "VALUE 1\nVALUE 2\n"),
        (0, "VALUE 1\nNONE\n"),
        (2, "VALUE 1\nNONE\n"),
    ];
    for (byte, want) in rows {
        let mut left = device.crash(alloc, &[Pick::Filled(byte)], CALLS, Vec::new(alloc), None)?;
        let answer = run(alloc, &mut left, &["get a\nget b\n"])?;
        shows(&rt, &answer, want.as_bytes(), 0);
    }
    Ok(())
}

/// A manifest with one write and one table in the root, which lies in extent 1.
const TABLE_IN_EXTENT_1: [u8; 59] = [
    1, 0, 0, 0, 0, 0, 0, 1, 0, 0, 0, 0, 0, 0, 0, 1, 0, 0, 0, 1, 0, 0, 0, 59, 0, 0, 0, 0, 0, 0, 0,
    0, 0, 0, 0, 0, 0, 0, 0, 0, 0, 0, 0, 0, 0, 0, 0, 0, 0, 0, 1, 0, 0, 0, 0, 0, 0, 0, 1,
];

#[test]
fn a_manifest_that_does_not_stand_is_named(rt: HostRuntime) -> Result<(), NoMemory> {
    let alloc = rt.alloc();
    // There is extent 0 alone.
    let mut device = made(alloc)?;
    spoil(alloc, &mut device, 2, 0, &[0; Page::LEN])?;
    spoil(alloc, &mut device, 2, 0, &TABLE_IN_EXTENT_1)?;
    let answer = run(alloc, &mut device, &["get a\n"])?;
    shows(&rt, &answer, b"DAMAGED 2\n", 5);

    // A store of more blocks than the device has.
    let whole = made(alloc)?;
    let mut short = MemDevice::new(alloc, BLOCKS - 1, CALLS, Vec::new(alloc), None)?;
    for block in 0..BLOCKS {
        if block < whole.blocks() && block < short.blocks() && short.is_synced() {
            short.patch(block, whole.page(block));
        }
    }
    let answer = run(alloc, &mut short, &["get a\n"])?;
    shows(&rt, &answer, b"DAMAGED 2\n", 5);
    Ok(())
}

#[test]
fn replies_before_a_damaged_bucket_are_shown(rt: HostRuntime) -> Result<(), NoMemory> {
    let alloc = rt.alloc();
    let rows: [(&str, &[u64], &str); 3] = [
        ("get b\nget a\nget b\n", &[], "VALUE 2\nDAMAGED 929\n"),
        // A sink that fails leaves the status.
        ("get b\nget a\nget b\n", &[1], "VALUE 2\n"),
        ("get a\n", &[1], "DAMAGED"),
    ];
    for (piece, failing, want) in rows {
        let mut device = made_full(alloc)?;
        spoil(alloc, &mut device, HOME_OF_A, 0, &[255; Page::LEN])?;
        let failing = failing.to_vec(alloc)?;
        let answer = run_failing(alloc, &mut device, &[piece], Vec::new(alloc), failing)?;
        shows(&rt, &answer, want.as_bytes(), 5);
    }
    Ok(())
}

#[test]
fn replies_before_a_read_that_fails_are_shown(rt: HostRuntime) -> Result<(), NoMemory> {
    let alloc = rt.alloc();
    let device = made_full(alloc)?;
    let failing = vec![in alloc; opening_reads(alloc, &device)?]?;
    let mut failing = device.crash(alloc, &[], CALLS, failing, None)?;
    let answer = run(alloc, &mut failing, &["get b\nget a\n"])?;
    shows(&rt, &answer, b"VALUE 2\n", 4);
    let mut again = failing.crash(alloc, &[], CALLS, Vec::new(alloc), None)?;
    let answer = run(alloc, &mut again, &["get b\nget a\n"])?;
    shows(&rt, &answer, b"VALUE 2\nVALUE 1\n", 0);
    Ok(())
}

#[test]
fn the_last_number_of_writes_is_a_limit(rt: HostRuntime) -> Result<(), NoMemory> {
    let alloc = rt.alloc();
    let mut device = made(alloc)?;
    spoil(alloc, &mut device, 2, 8, &[255; 8])?;
    let answer = run(alloc, &mut device, &["put k v\nget k\n"])?;
    shows(&rt, &answer, b"LIMIT\nNONE\n", 0);
    Ok(())
}

#[test]
fn a_source_or_a_sink_that_fails_ends_the_run(rt: HostRuntime) -> Result<(), NoMemory> {
    let alloc = rt.alloc();
    let rows: [(&[u64], &[u64], &str, u8); 2] = [(&[1], &[], "OK\n", 2), (&[], &[0], "", 3)];
    for (reads, writes, want, status) in rows {
        let mut device = made_by(alloc, "init 4 2 64", 1384)?;
        let (reads, writes) = (reads.to_vec(alloc)?, writes.to_vec(alloc)?);
        let answer = run_failing(alloc, &mut device, &["put a 1\n"], reads, writes)?;
        shows(&rt, &answer, want.as_bytes(), status);
        let answer = run(alloc, &mut device, &["get a\n"])?;
        shows(&rt, &answer, b"VALUE 1\n", 0);
    }
    Ok(())
}

/// The replies to `get a`, `get b` and `get c` after none to all of their puts.
const KEPT: [&str; 4] = [
    "NONE\nNONE\nNONE\n",
    "VALUE 1\nNONE\nNONE\n",
    "VALUE 1\nVALUE 2\nNONE\n",
    "VALUE 1\nVALUE 2\nVALUE 3\n",
];

/// Whether these are the replies after so many puts, or after one more.
fn are_kept(values: &[u8], puts: usize) -> bool {
    KEPT.iter()
        .skip(puts)
        .take(2)
        .any(|kept| values == kept.as_bytes())
}

#[test]
fn each_crash_keeps_what_was_acknowledged(rt: HostRuntime) -> Result<(), NoMemory> {
    let alloc = rt.alloc();
    let first = made_by(alloc, "init 2 2 1", BLOCKS + 65)?;
    // The second put and the third flush the one before.
    let pieces = ["put a 1\n", "put b 2\n", "put c 3\n"];
    for stop in 0..60 {
        let mut device = first.crash(alloc, &[], CALLS, Vec::new(alloc), Some(stop * 6))?;
        let (shown, _) = run(alloc, &mut device, &pieces)?;
        let acknowledged = shown.len() / 3;
        for pick in [Pick::Stable, Pick::Written, Pick::Filled(1)] {
            let picks = vec![in alloc; pick; 200]?;
            let mut left = device.crash(alloc, &picks, CALLS, Vec::new(alloc), None)?;
            let (values, status) = run(alloc, &mut left, &["get a\nget b\nget c\n"])?;
            let kept = are_kept(&values, acknowledged);
            same(&rt, (stop, pick, status, kept), (stop, pick, 0, true));
        }
    }
    Ok(())
}
