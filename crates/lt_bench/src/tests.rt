use crate::plain::plain_cut;
use crate::plain_place::plain_place;
use lt_balance::{Entry, are_entries, cut, place};
use lt_page::NoMemory;
use std::alloc::Global;

/// Sixty entries of four columns, so many bytes that some are sent and the list is cut.
fn crowded_entries(alloc: Global, seed: u32) -> Result<Vec<Entry>, NoMemory> {
    let mut entries = Vec::with_capacity(alloc, 60)?;
    let mut draw = seed;
    for i in 0..60u32 {
        draw = draw.wrapping_mul(1_664_525).wrapping_add(1_013_904_223);
        entries.push(Entry {
            column: (draw >> 30) as u8,
            suffix: i / 2,
            cost: 5 + (draw >> 8 & 2047) as u16,
        })?;
    }
    Ok(entries)
}

/// How many tables both make of the list, where they agree.
fn agreed_tables(alloc: Global, seed: u32) -> Result<Option<usize>, NoMemory> {
    let entries = crowded_entries(alloc, seed)?;
    if !are_entries(&entries) {
        return Ok(None);
    }
    let counts = cut(alloc, &entries)?;
    let plain_counts = plain_cut(alloc, &entries)?;
    match counts.as_slice() == plain_counts.as_slice() {
        true => Ok(Some(counts.len())),
        false => Ok(None),
    }
}

#[test]
fn generated_lists_are_cut_as_the_rule_says(rt: HostRuntime) -> Result<(), NoMemory> {
    for seed in 0..300 {
        let tables = agreed_tables(rt.alloc(), seed)?;
        assert!(rt; tables.is_some(), "of {seed}");
        assert!(rt; tables > Some(1), "of {seed}");
    }
    Ok(())
}

/// Whether both make the same plans of a front of the list, or both none.
fn is_placed_alike(alloc: Global, seed: u32, front: usize) -> Result<bool, NoMemory> {
    let entries = crowded_entries(alloc, seed)?;
    let Some((front, _)) = entries.split_at_checked(front) else {
        return Ok(false);
    };
    if !are_entries(front) {
        return Ok(false);
    }
    let placement = place(alloc, front)?;
    match (placement, plain_place(front)) {
        (Some(placement), Some(plans)) => {
            Ok((0..64u8).all(|column| placement.plan(column) == &plans[column as usize]))
        }
        (None, None) => Ok(true),
        _ => Ok(false),
    }
}

#[test]
fn generated_lists_are_placed_as_the_rule_says(rt: HostRuntime) -> Result<(), NoMemory> {
    for seed in 0..300 {
        for front in [20, 25, 30, 35, 60] {
            assert!(rt;
                is_placed_alike(rt.alloc(), seed, front)?,
                "{front} of {seed}"
            );
        }
    }
    Ok(())
}
