ghost use Rattle.std.specs.Prelude.{◌≡◌, ◌≤◌, true, IfSome, IsTrue};
ghost use Rattle.lt_store.specs.Acting.{MayAct};
ghost use Rattle.lt_store.specs.Open.{blocks_of};
ghost use Rattle.lt_store.specs.View.{view_of};

use lt_device::{Device, MemDevice, Pick, Steady};
use lt_htable::LookFault;
use lt_item::{ItemView, Kind, parts_of};
use lt_page::Page;
use lt_store::{EventView, Outcome, Stat, Store, Taken, init};
use std::alloc::Global;
use std::fmt::Debug;
use std::process::Abort;
use std::test::Fail;

/// A store of 1 extent, 2 levels and 1 slot has so many blocks, and its extent begins at block 872.
const BLOCKS: u64 = 937;

const EXTENT: u64 = 872;

/// Fails the test unless both are the same.
fn same<T: PartialEq + Debug + Drop>(rt: &impl Abort, got: T, want: T) {
    assert_eq!(rt; got, want);
}

/// Opens the store, puts a value and commits. Answers what became of the put, or `None` where a call
/// failed.
fn put<D: Device>(alloc: Global, device: &mut D, key: &[u8], value: &[u8]) -> Option<Taken> {
    let Ok(mut store) = Store::open(alloc, device) else {
        return None;
    };
    let item = ItemView {
        kind: Kind::Put,
        key,
        value,
    };
    if !item.is_valid() {
        return None;
    }
    let Ok(taken) = store.put(alloc, device, key, value) else {
        return None;
    };
    if !store.is_up() || store.commit(device).is_err() {
        return None;
    }
    Some(taken)
}

/// The first byte of a value.
fn first<D: Device>(
    store: &mut Store,
    device: &mut D,
    key: &[u8],
    out: &mut Page,
) -> Result<Option<u8>, LookFault>
    requires up { store.old.is_up ≡ true }
    requires within { blocks_of (view_of store.old) ≤ D.blocks device.old }
    ensures up { store.new.is_up ≡ true }
    ensures within { blocks_of (view_of store.new) ≤ D.blocks device.new }
    ensures later { D.reads device.old ≤ D.reads device.new }
{
    let found = store.get(device, key, out)?;
    Ok(found.map(|_| out.byte(0)))
}

/// Opens the store and gets the first byte of a value. Answers also how many blocks the get read.
fn get<D: Device>(
    alloc: Global,
    device: &mut D,
    key: &[u8],
) -> Result<(Option<u8>, u64), LookFault> {
    let (Ok(mut store), Ok(mut out)) = (Store::open(alloc, device), Page::new(alloc)) else {
        return Err(LookFault::Device);
    };
    let before = device.reads();
    let value = first(&mut store, device, key, &mut out)?;
    Ok((value, device.reads() - before))
}

/// Opens the store and gets the first bytes of the values of a and b.
fn both<D: Device>(alloc: Global, device: &mut D) -> Result<(Option<u8>, Option<u8>), LookFault> {
    let (Ok(mut store), Ok(mut out)) = (Store::open(alloc, device), Page::new(alloc)) else {
        return Err(LookFault::Device);
    };
    let a = first(&mut store, device, b"a", &mut out)?;
    let b = first(&mut store, device, b"b", &mut out)?;
    Ok((a, b))
}

#[test]
fn a_put_is_refused_once_no_extent_is_free(rt: HostRuntime) -> Result<(), Fail> {
    let alloc = rt.alloc();
    let mut device = Steady::new(alloc, BLOCKS)?;
    same(&rt, init(alloc, &mut device, 1, 2, 1), Ok(()));
    let full = Taken::Full { needed: 1, free: 0 };
    for (key, value, taken) in [
        (b"a", b"1", Taken::Ok),
        (b"b", b"2", Taken::Ok),
        (b"c", b"3", full),
    ] {
        same(&rt, put(alloc, &mut device, key, value), Some(taken));
    }

    // In one store too, a second time.
    let refused = Outcome::Taken(full);
    let answers = put_c_twice(alloc, &mut device);
    same(&rt, answers, Some([refused, refused]));

    // The table has a and the log b.
    same(&rt, get(alloc, &mut device, b"a"), Ok((Some(b'1'), 1)));
    same(&rt, get(alloc, &mut device, b"b"), Ok((Some(b'2'), 0)));
    same(&rt, get(alloc, &mut device, b"c"), Ok((None, 0)));
    Ok(())
}

/// Opens the store, and puts c twice.
fn put_c_twice<D: Device>(alloc: Global, device: &mut D) -> Option<[Outcome; 2]> {
    let Ok(mut store) = Store::open(alloc, device) else {
        return None;
    };
    let mut out = Page::new(alloc).ok()?;
    let put_c = EventView::Put {
        key: b"c",
        value: b"3",
    };
    Some([
        act(alloc, &mut store, device, put_c, &mut out)?,
        act(alloc, &mut store, device, put_c, &mut out)?,
    ])
}

#[test]
fn a_crash_in_a_flush_keeps_what_was_committed(rt: HostRuntime) -> Result<(), Fail> {
    let alloc = rt.alloc();
    let mut first = MemDevice::new(alloc, BLOCKS, 999, Vec::new(alloc), None)?;
    same(&rt, init(alloc, &mut first, 1, 2, 1), Ok(()));
    same(&rt, put(alloc, &mut first, b"a", b"1"), Some(Taken::Ok));

    // To open the store, to flush a and to commit b takes 144 calls.
    for stop in 0..145 {
        let mut device = first.crash(alloc, &[], 999, Vec::new(alloc), Some(stop))?;
        let taken = put(alloc, &mut device, b"b", b"2");
        same(&rt, taken, if stop < 144 { None } else { Some(Taken::Ok) });
        for pick in [Pick::Stable, Pick::Written, Pick::Filled(1)] {
            let picks = vec![in alloc; pick; 200]?;
            let mut left = device.crash(alloc, &picks, 0, Vec::new(alloc), None)?;
            let values = both(alloc, &mut left);
            let whole = values == Ok((Some(b'1'), Some(b'2')));
            let without = taken.is_none() && values == Ok((Some(b'1'), None));
            same(&rt, (stop, pick, whole || without), (stop, pick, true));
        }
    }
    Ok(())
}

/// Makes the call of an event.
fn act<D: Device>(
    alloc: Global,
    store: &mut Store,
    device: &mut D,
    event: EventView<'_>,
    out: &mut Page,
) -> Option<Outcome>
    requires { blocks_of (view_of store.old) ≤ D.blocks device.old }
    ensures { IfSome result (λ _. blocks_of (view_of store.new) ≤ D.blocks device.new) }
{
    if !store.is_up() || !is_valid(&event) {
        return None;
    }
    match store.act(alloc, device, event, out) {
        Ok(outcome) if store.is_up() => Some(outcome),
        _ => None,
    }
}

fn is_valid(event: &EventView<'_>) -> bool
    ensures { IsTrue result → MayAct event.now }
{
    match *event {
        EventView::Put { key, value } => ItemView {
            kind: Kind::Put,
            key,
            value,
        }
        .is_valid(),
        EventView::Delete { key } => !key.is_empty() && key.len() < 256,
        _ => true,
    }
}

/// Flushes twice, and answers what the events came to and the first byte of the value of a.
fn flush_twice<D: Device>(alloc: Global, device: &mut D) -> Option<(Vec<Outcome>, u8)> {
    let Ok(mut store) = Store::open(alloc, device) else {
        return None;
    };
    let mut out = Page::new(alloc).ok()?;
    let put_a = EventView::Put {
        key: b"a",
        value: b"1",
    };
    let put_a_again = EventView::Put {
        key: b"a",
        value: b"2",
    };
    let put_b = EventView::Put {
        key: b"b",
        value: b"3",
    };
    let get_a = EventView::Get { key: b"a" };
    let get_b = EventView::Get { key: b"b" };
    let delete_b = EventView::Delete { key: b"b" };
    let commit = EventView::Commit;
    let stat = EventView::Stat;
    let mut outcomes = Vec::new(alloc);
    for event in [
        put_a,
        commit,
        put_a_again,
        commit,
        put_b,
        get_a,
        delete_b,
        get_b,
        stat,
    ] {
        let outcome = act(alloc, &mut store, device, event, &mut out)?;
        outcomes.push(outcome).ok()?;
    }
    Some((outcomes, out.byte(0)))
}

#[test]
fn events_come_to_their_outcomes(rt: HostRuntime) -> Result<(), Fail> {
    let alloc = rt.alloc();
    let mut device = Steady::new(alloc, BLOCKS + 65)?;
    same(&rt, init(alloc, &mut device, 2, 2, 1), Ok(()));
    let answer = flush_twice(alloc, &mut device).ok_or("each event is acted")?;
    let taken = Outcome::Taken(Taken::Ok);
    let stat = Stat {
        writes: 4,
        reads: device.reads(),
        tables: 2,
        free: 0,
    };
    let outcomes = [
        taken,
        Outcome::Committed,
        taken,
        Outcome::Committed,
        taken,
        Outcome::Value(1),
        taken,
        Outcome::Missing,
        Outcome::Stat(stat),
    ];
    same(&rt, answer.0.as_slice(), outcomes.as_slice());
    same(&rt, answer.1, b'2');
    Ok(())
}

/// Fills a block with a byte.
fn fill<D: Device>(alloc: Global, device: &mut D, block: u64, byte: u8) -> Option<()> {
    let mut page = Page::new(alloc).ok()?;
    page.fill_from(0, &[byte; Page::LEN]);
    if block < device.blocks() && device.write(block, &page).is_ok() {
        Some(())
    } else {
        None
    }
}

#[test]
fn a_get_tells_the_bucket_that_is_damaged(rt: HostRuntime) -> Result<(), Fail> {
    let alloc = rt.alloc();
    let mut device = Steady::new(alloc, BLOCKS)?;
    same(&rt, init(alloc, &mut device, 1, 2, 1), Ok(()));
    same(&rt, put(alloc, &mut device, b"a", b"1"), Some(Taken::Ok));
    same(&rt, put(alloc, &mut device, b"b", b"2"), Some(Taken::Ok));

    let block = EXTENT + u64::from(parts_of(b"a").column);
    same(&rt, fill(alloc, &mut device, block, 0xff), Some(()));
    same(
        &rt,
        get(alloc, &mut device, b"a"),
        Err(LookFault::Damaged(block)),
    );
    same(&rt, get(alloc, &mut device, b"b"), Ok((Some(b'2'), 0)));
    Ok(())
}
