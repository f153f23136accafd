//! Times calls beside plain programs of the same rules, as ratios within one run. Without a word it
//! prints nothing.
#![tactic(auto)]

mod jobs;
mod memory;
mod plain;
mod plain_look;
#[cfg(test)]
mod plain_place;
mod sample;
mod stored;

use jobs::{Deal, EXTENTS, GEOMETRY, TABLES, copies, full_items};
use lt_balance::{are_entries, cut};
use lt_device::{Device, Steady};
use lt_htable::build;
use lt_mem::MemTable;
use lt_page::{NoMemory, Page};
use memory::{found_in_map, found_in_table};
use plain::plain_cut;
use sample::sample_entries;
use std::collections::HashMap;
use std::rt::Clock;
use std::time::Instant;
use std::{env, io};
use stored::{
    decoded, found_stored, may_build, plain_decoded, plain_found_stored, store, stored_items,
};

/// As many items as a memory table holds at most.
const ENTRIES: u32 = 40_000;

/// As many items with keys of two bytes as a memory table holds.
const KEYS: u16 = 34_000;

/// How many bytes an item takes, in the tables that are dealt.
const SIZES: [u8; 3] = [64, 100, 200];

/// So many times the tables are written and dealt.
const ROUNDS: u32 = 20;

fn main(rt: HostRuntime) -> io::Result<()> {
    for word in env::args(&rt)? {
        match word.as_str() {
            "cut" => time_cut(&rt)?,
            "memory" => time_memory(&rt)?,
            "decode" => time_decode(&rt)?,
            "get" => time_get(&rt)?,
            "jobs" => time_jobs(&rt)?,
            _ => (),
        }
    }
    Ok(())
}

/// Prints how many times as long a test of every front takes as `cut`.
fn time_cut<R: Clock + Print + AllocGlobal>(rt: &R) -> io::Result<()> {
    let entries = sample_entries(rt.alloc(), ENTRIES).map_err(no_memory)?;
    if !are_entries(&entries) {
        return Ok(());
    }
    let start = Instant::now(rt)?;
    let counts = cut(rt.alloc(), &entries).map_err(no_memory)?;
    let cut_time = start.elapsed(rt)?;

    let start = Instant::now(rt)?;
    let plain_counts = plain_cut(rt.alloc(), &entries).map_err(no_memory)?;
    let plain_time = start.elapsed(rt)?;

    if counts.as_slice() != plain_counts.as_slice() {
        return println!(rt; "cut: the counts differ");
    }
    let ratio = plain_time.as_nanos() / cut_time.as_nanos().max(1);
    let tables = counts.len();
    println!(rt; "cut: {tables} tables, a test of every front takes {ratio} times as long")
}

/// Prints how long puts and gets in the memory table take, in hundredths of what they take in std's map.
fn time_memory<R: Clock + Print + AllocGlobal>(rt: &R) -> io::Result<()> {
    let mut table = MemTable::new(rt.alloc()).map_err(no_memory)?;
    let mut map = HashMap::new(rt.alloc());

    let start = Instant::now(rt)?;
    let found = found_in_table(&mut table, KEYS);
    let table_time = start.elapsed(rt)?;

    let start = Instant::now(rt)?;
    let plain_found = found_in_map(rt.alloc(), &mut map, KEYS).map_err(no_memory)?;
    let map_time = start.elapsed(rt)?;

    if found != plain_found {
        return println!(rt; "memory: the finds differ");
    }
    let percent = table_time.as_nanos() * 100 / map_time.as_nanos().max(1);
    println!(rt; "memory: {found} keys, the table takes {percent} hundredths of the map's time")
}

/// Prints how many times as long it takes to decode a half-empty bucket with its zeros tested byte by byte.
fn time_decode<R: Clock + Print + AllocGlobal>(rt: &R) -> io::Result<()> {
    let mut device = Steady::new(rt.alloc(), 65).map_err(no_memory)?;
    let mut page = Page::new(rt.alloc()).map_err(no_memory)?;
    let items = stored_items(rt.alloc()).map_err(no_memory)?;
    if store(rt.alloc(), &mut device, &items).is_err() || device.blocks() == 0 {
        return println!(rt; "decode: no table");
    }
    if device.read(0, &mut page).is_err() {
        return println!(rt; "decode: no bucket");
    }

    let start = Instant::now(rt)?;
    let spelled = decoded(&page);
    let time = start.elapsed(rt)?;

    let start = Instant::now(rt)?;
    let plain_spelled = plain_decoded(&page);
    let plain_time = start.elapsed(rt)?;

    if spelled != plain_spelled {
        return println!(rt; "decode: the answers differ");
    }
    let percent = plain_time.as_nanos() * 100 / time.as_nanos().max(1);
    println!(rt; "decode: {spelled} buckets, byte by byte takes {percent} hundredths of the time")
}

/// Prints how many times as long gets of stored keys take where a key is hashed and its bucket decoded twice.
fn time_get<R: Clock + Print + AllocGlobal>(rt: &R) -> io::Result<()> {
    let memory = MemTable::new(rt.alloc()).map_err(no_memory)?;
    let mut device = Steady::new(rt.alloc(), 65).map_err(no_memory)?;
    let mut page = Page::new(rt.alloc()).map_err(no_memory)?;
    let items = stored_items(rt.alloc()).map_err(no_memory)?;
    let Ok(filters) = store(rt.alloc(), &mut device, &items) else {
        return println!(rt; "get: no table");
    };

    let start = Instant::now(rt)?;
    let found = found_stored(&memory, &filters, &mut device, &mut page);
    let time = start.elapsed(rt)?;

    let start = Instant::now(rt)?;
    let plain_found = plain_found_stored(&memory, &filters, &mut device, &mut page);
    let plain_time = start.elapsed(rt)?;

    if found != plain_found {
        return println!(rt; "get: the finds differ");
    }
    let percent = plain_time.as_nanos() * 100 / time.as_nanos().max(1);
    println!(rt; "get: {found} found, the form before takes {percent} hundredths of the time")
}

/// Prints for items of each size how long a deal of eight full tables takes, in hundredths of what it takes to
/// write these from lists in hand; and of that with the lists' items copied and their keys hashed first, as a
/// scan does.
fn time_jobs<R: Clock + Print + AllocGlobal>(rt: &R) -> io::Result<()> {
    for size in SIZES {
        match least_times(rt, size)? {
            Some((steps, times)) => {
                let percent = times.deal.saturating_mul(100) / times.writing.max(1);
                let both = times.writing.saturating_add(times.copying);
                let with_copies = times.deal.saturating_mul(100) / both.max(1);
                println!(rt;
                    "jobs: items of {size} bytes, {steps} steps, {percent} hundredths of writing the tables, {with_copies} with copies"
                )?;
            }
            None => println!(rt; "jobs: no deal of items of {size} bytes")?,
        }
    }
    Ok(())
}

/// What one round took, in nanoseconds.
#[derive(Clone, Copy)]
struct Times {
    copying: u128,
    writing: u128,
    deal: u128,
}

/// How many steps the deal takes, and the least that each part took in some rounds: what else the machine does
/// makes a round longer, and never shorter.
fn least_times<R: Clock + AllocGlobal>(rt: &R, size: u8) -> io::Result<Option<(u32, Times)>> {
    let mut device = Steady::new(rt.alloc(), GEOMETRY.needed(EXTENTS)).map_err(no_memory)?;
    let mut least = None;
    for _ in 0..ROUNDS {
        let Some((steps, times)) = round(rt, &mut device, size)? else {
            return Ok(None);
        };
        least = match least {
            None => Some((steps, times)),
            Some((_, before)) => Some((steps, least_of(before, times))),
        };
    }
    Ok(least)
}

/// The least of each part.
fn least_of(a: Times, b: Times) -> Times {
    Times {
        copying: a.copying.min(b.copying),
        writing: a.writing.min(b.writing),
        deal: a.deal.min(b.deal),
    }
}

/// Writes the tables and deals them: the steps and the times.
fn round<R: Clock + AllocGlobal, D: Device>(
    rt: &R,
    device: &mut D,
    size: u8,
) -> io::Result<Option<(u32, Times)>> {
    let mut copying = 0;
    let mut writing = 0;
    for table in TABLES {
        let Some((copied, written)) = time_table(rt, device, table, size)? else {
            return Ok(None);
        };
        copying = u128::saturating_add(copying, copied);
        writing = u128::saturating_add(writing, written);
    }
    let Some(mut deal) = Deal::begin(rt.alloc()).map_err(no_memory)? else {
        return Ok(None);
    };

    let start = Instant::now(rt)?;
    let steps = deal.run(rt.alloc(), device);
    let time = start.elapsed(rt)?;

    let Some(steps) = steps else {
        return Ok(None);
    };
    let times = Times {
        copying,
        writing,
        deal: time.as_nanos(),
    };
    Ok(Some((steps, times)))
}

/// How long it takes to copy the items of a full table, and to write the table.
fn time_table<R: Clock + AllocGlobal, D: Device>(
    rt: &R,
    device: &mut D,
    table: u32,
    size: u8,
) -> io::Result<Option<(u128, u128)>> {
    let items = full_items(rt.alloc(), table, size).map_err(no_memory)?;
    let first = GEOMETRY.extent(table);
    let placed = may_build(rt.alloc(), &items).map_err(no_memory)?;
    if !placed || device.blocks() < first + 65 {
        return Ok(None);
    }

    let start = Instant::now(rt)?;
    let copies = copies(rt.alloc(), &items).map_err(no_memory)?;
    let copied = start.elapsed(rt)?;

    let start = Instant::now(rt)?;
    let built = build(rt.alloc(), device, first, &items);
    let written = start.elapsed(rt)?;

    if built.is_err() || copies.len() != items.len() {
        return Ok(None);
    }
    Ok(Some((copied.as_nanos(), written.as_nanos())))
}

fn no_memory(_: NoMemory) -> io::Error {
    io::Error::from(io::ErrorKind::OutOfMemory)
}

#[cfg(test)]
mod tests;
