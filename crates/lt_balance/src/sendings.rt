//! Where each column that sends finds a receiver.

ghost use Rattle.std.specs.Prelude.{◌≡◌, ◌+◌, ◌-◌, ◌<◌, ◌≤◌, ℕ, List, [], length, All, MatchOption, insert};
ghost use Rattle.std.specs.Prelude.{slice_index};
ghost use Rattle.std.specs.Option.{ForSome};
ghost use Rattle.lt_tables.specs.declared.Entry.{Entry};
ghost use Rattle.lt_tables.specs.declared.Sending.{Sending};
ghost use Rattle.lt_tables.specs.Placement.{put_by_load, senders, receivers, better, best, room, sendings};
ghost use Rattle.lt_balance.specs.Columns.{AreColumns, AreRooms};

use super::columns::{CAPACITY, COLUMNS, Column};
use arrayvec::ArrayVec;
use lt_tables::Sending;

/// Where a column stands among others that are in order of load: before the first that has no more.
fn place_by_load(columns: &[Column; COLUMNS], order: &[u8], column: u8) -> usize
    requires column { column < 64 }
    requires order { All (λ c. c < 64) order.now }
    ensures within { result ≤ length order.now }
    ensures place { (es : List Entry) → AreColumns es columns.now
        → insert order.now result column ≡ put_by_load es column order.now }
{
    let load = columns[column as usize].load;
    for (at, other) in order.iter().enumerate() {
        if columns[*other as usize].load <= load {
            return at;
        }
    }
    order.len()
}

/// The columns that send, in the order in which they choose.
fn senders_of(columns: &[Column; COLUMNS]) -> ArrayVec<u8, COLUMNS>
    ensures order { (es : List Entry) → AreColumns es columns.now → result.items ≡ senders es }
    ensures columns { All (λ c. c < 64) result.items }
{
    let mut order = ArrayVec::new();
    for column in (0..64u8).rev() {
        if columns[column as usize].load > CAPACITY {
            let at = place_by_load(columns, order.as_slice(), column);
            order.insert(at, column);
        }
    }
    order
}

/// The room of each column before anything is sent.
fn first_rooms(columns: &[Column; COLUMNS]) -> [u64; COLUMNS]
    ensures len { length result ≡ 64 }
    ensures rooms { (es : List Entry) → AreColumns es columns.now → AreRooms es [] result }
{
    let mut rooms = [0; COLUMNS];
    for (c, column) in columns.iter().enumerate() {
        rooms[c] = CAPACITY.saturating_sub(column.load);
    }
    rooms
}

/// The column, where it has as much room as the other, if there is one; else the other.
fn roomier(rooms: &[u64; COLUMNS], column: u8, other: Option<u8>) -> u8
    requires column { column < 64 }
    requires other { ForSome other (λ c. c < 64) }
    ensures better { Some result ≡ better (λ c. slice_index rooms.now c) column other }
    ensures column { result < 64 }
{
    match other {
        Some(other) if rooms[other as usize] > rooms[column as usize] => other,
        _ => column,
    }
}

/// The column with the most room among those that may receive, the first one at ties.
fn receiver(columns: &[Column; COLUMNS], rooms: &[u64; COLUMNS]) -> Option<u8>
    ensures best { (es : List Entry) (made : List Sending) → AreColumns es columns.now → AreRooms es made rooms.now
        → result ≡ best (room es made) (receivers es) }
    ensures column { ForSome result (λ c. c < 64) }
{
    let mut found = None;
    for column in (0..64u8).rev() {
        if columns[column as usize].load <= CAPACITY {
            found = Some(roomier(rooms, column, found));
        }
    }
    found
}

/// Where each column that sends sends to, in the order in which they choose. None where one finds
/// no room.
pub(crate) fn sendings_of(columns: &[Column; COLUMNS]) -> Option<ArrayVec<Sending, COLUMNS>>
    ensures { (es : List Entry) → AreColumns es columns.now
        → MatchOption result (sendings es (senders es) [] ≡ None)
        (λ made. sendings es (senders es) [] ≡ Some made.items) }
{
    let order = senders_of(columns);
    let mut rooms = first_rooms(columns);
    let mut made = ArrayVec::new();
    for from in order.as_slice() {
        let to = receiver(columns, &rooms)?;
        let sent = columns[*from as usize].sent;
        if sent > rooms[to as usize] {
            return None;
        }
        rooms[to as usize] -= sent;
        made.push(Sending { from: *from, to });
    }
    Some(made)
}
