use crate::checks::{check, same};
use lt_balance::{ColumnPlan, Entry, Placement, are_entries, cut, place};
use std::alloc::Global;
use std::process::Abort;
use std::test::Fail;

fn entry(column: u8, suffix: u32, cost: u16) -> Entry {
    Entry {
        column,
        suffix,
        cost,
    }
}

/// The placement of entries, with ample memory.
fn placement(rt: &impl Abort, alloc: Global, entries: &[Entry]) -> Result<Option<Placement>, Fail> {
    assert!(rt; are_entries(entries));
    Ok(place(alloc, entries)?)
}

/// The counts of the tables, with ample memory.
fn counts(rt: &impl Abort, alloc: Global, entries: &[Entry]) -> Result<Vec<usize>, Fail> {
    assert!(rt; are_entries(entries));
    Ok(cut(alloc, entries)?)
}

#[test]
fn nothing_and_full_columns_send_nothing(rt: HostRuntime) -> Result<(), Fail> {
    let full = [entry(3, 10, 2000), entry(3, 20, 2080)];
    for entries in [&full[..], &full[..0], &full[1..]] {
        let plans = placement(&rt, rt.alloc(), entries)?.ok_or("a placement")?;
        for column in 0..64 {
            check(&rt, !plans.plan(column).sends);
        }
    }
    Ok(())
}

#[test]
fn one_more_is_sent_to_the_first_empty_column(rt: HostRuntime) -> Result<(), Fail> {
    let entries = [entry(3, 10, 2000), entry(3, 20, 2080), entry(3, 30, 5)];
    let plans = placement(&rt, rt.alloc(), &entries)?.ok_or("a placement")?;
    for column in 0..64 {
        let sends = column == 3;
        let mark = if sends { 30 } else { 0 };
        let want = ColumnPlan {
            sends,
            target: 0,
            mark,
        };
        same(&rt, (column, *plans.plan(column)), (column, want));
    }
    Ok(())
}

#[test]
fn one_suffix_is_not_split(rt: HostRuntime) -> Result<(), Fail> {
    let entries = [entry(3, 10, 2000), entry(3, 10, 2000), entry(3, 10, 2000)];
    check(&rt, placement(&rt, rt.alloc(), &entries)?.is_none());
    let tables = counts(&rt, rt.alloc(), &entries)?;
    same(&rt, tables.as_slice(), [2, 1].as_slice());
    Ok(())
}

#[test]
fn the_fuller_column_chooses_first(rt: HostRuntime) -> Result<(), Fail> {
    let entries = [
        entry(1, 5, 3000),
        entry(2, 5, 3000),
        entry(1, 9, 2000),
        entry(2, 9, 3000),
    ];
    let plans = placement(&rt, rt.alloc(), &entries)?.ok_or("a placement")?;
    same(
        &rt,
        *plans.plan(2),
        ColumnPlan {
            sends: true,
            target: 0,
            mark: 9,
        },
    );
    same(
        &rt,
        *plans.plan(1),
        ColumnPlan {
            sends: true,
            target: 3,
            mark: 9,
        },
    );
    check(&rt, !plans.plan(0).sends);
    Ok(())
}

#[test]
fn entries_out_of_form_are_told(rt: HostRuntime) {
    check(&rt, are_entries(&[entry(63, 7, 4080), entry(0, 7, 5)]));
    for (name, entries) in [
        ("column", [entry(0, 1, 5), entry(64, 1, 5)]),
        ("cost", [entry(0, 1, 4081), entry(0, 1, 5)]),
        ("suffix", [entry(0, 2, 5), entry(0, 1, 5)]),
    ] {
        same(&rt, (name, are_entries(&entries)), (name, false));
    }
}
