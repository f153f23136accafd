//! The placement as its rule says it, one step after another.

use lt_balance::{ColumnPlan, Entry};

/// What the items of a bucket cost at most.
const CAPACITY: u32 = 4080;

/// What each of the 64 columns does, or None where there is no placement. It goes through all entries
/// for each load and each mark.
pub fn plain_place(entries: &[Entry]) -> Option<[ColumnPlan; 64]> {
    let stays = ColumnPlan {
        sends: false,
        target: 0,
        mark: 0,
    };
    let mut plans = [stays; 64];
    let mut received = [0u32; 64];
    for _ in 0..64 {
        let Some(sender) = next_sender(entries, &plans) else {
            break;
        };
        let mark = mark(entries, sender);
        let sent = load(entries, sender).saturating_sub(cost_below(entries, sender, mark));
        let target = receiver(entries, &received)?;
        if sent > room(entries, &received, target) {
            return None;
        }
        let sum = received.get_mut(target as usize)?;
        *sum = sum.saturating_add(sent);
        *plans.get_mut(sender as usize)? = ColumnPlan {
            sends: true,
            target,
            mark,
        };
    }
    Some(plans)
}

/// What the entries of a column cost.
fn load(entries: &[Entry], column: u8) -> u32 {
    let mut load = 0u32;
    for entry in entries {
        if entry.column == column {
            load = load.saturating_add(u32::from(entry.cost));
        }
    }
    load
}

/// What the entries of a column below a suffix cost.
fn cost_below(entries: &[Entry], column: u8, suffix: u32) -> u32 {
    let mut cost = 0u32;
    for entry in entries {
        if entry.column == column && entry.suffix < suffix {
            cost = cost.saturating_add(u32::from(entry.cost));
        }
    }
    cost
}

/// The greatest suffix of a column below which its entries fit in a bucket.
fn mark(entries: &[Entry], column: u8) -> u32 {
    let mut mark = 0;
    for entry in entries {
        if entry.column == column && cost_below(entries, column, entry.suffix) <= CAPACITY {
            mark = entry.suffix.max(mark);
        }
    }
    mark
}

/// The column of the greatest load that has not yet sent and has to, the lowest one at equal loads.
fn next_sender(entries: &[Entry], plans: &[ColumnPlan; 64]) -> Option<u8> {
    let mut greatest = CAPACITY;
    let mut sender = None;
    for column in 0..64u8 {
        let load = load(entries, column);
        if !plans[column as usize].sends && load > greatest {
            greatest = load;
            sender = Some(column);
        }
    }
    sender
}

/// What a column has room for that received so much.
fn room(entries: &[Entry], received: &[u32; 64], column: u8) -> u32 {
    let received = received.get(column as usize).copied().unwrap_or(CAPACITY);
    CAPACITY
        .saturating_sub(load(entries, column))
        .saturating_sub(received)
}

/// The column with the most room of those that keep their entries, the lowest one at equal rooms.
fn receiver(entries: &[Entry], received: &[u32; 64]) -> Option<u8> {
    let mut receiver = None;
    for column in 0..64u8 {
        if load(entries, column) > CAPACITY {
            continue;
        }
        let more = match receiver {
            Some(best) => room(entries, received, column) > room(entries, received, best),
            None => true,
        };
        if more {
            receiver = Some(column);
        }
    }
    receiver
}
