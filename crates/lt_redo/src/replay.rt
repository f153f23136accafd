//! The items of a log, as its groups are read one after another.

ghost use Rattle.std.specs.Prelude.{◌≡◌, ◌+◌, ◌^◌, ◌<◌, ◌≤◌, ◌++◌, [], length, IfOk, IfSome, IsTrue};
ghost use Rattle.std.specs.List.{list_all};
ghost use Rattle.std.specs.Option.{option_map};
ghost use Rattle.lt_terms.specs.Items.{is_valid, total_cost};
ghost use Rattle.lt_format.specs.Log.{group_on, log_room};

use crate::group::group_on;
use lt_bucket::{Item, push_all};
use lt_page::{NoMemory, Page};
use std::alloc::Global;

/// What the items of a log cost at most.
const LOG_ROOM: u32 = 204_092;

/// The items that were read so far of a log that began at this number of writes, and what they cost.
#[derive(Drop)]
pub struct Replay {
    pub writes: u64,
    pub items: Vec<Item>,
    cost: u32,
    ghost valid: { IsTrue (list_all is_valid items.items) },
    ghost cost_is: { cost ≡ total_cost items.items },
    ghost room: { total_cost items.items ≤ log_room },
    ghost number: { writes + length items.items < 2 ^ 64 },
}

impl Replay {
    ghost use Rattle.lt_redo.specs.Opening.{GoesOn, items_with};

    /// Nothing was read yet.
    pub fn start(alloc: Global, writes: u64) -> Replay
        ensures writes { result.writes ≡ writes }
        ensures items { result.items.items ≡ [] }
    {
        Replay {
            writes,
            items: Vec::new(alloc),
            cost: 0,
        }
    }

    /// Adds the items of the group that the page spells. `None` exactly where it spells none, or the log
    /// with it would cost more than 204,092 bytes or pass the greatest number of writes.
    pub fn with_group(self, alloc: Global, page: &Page) -> Result<Option<Replay>, NoMemory>
        ensures goes_on { IfOk result (λ more. IfSome more (GoesOn self)) }
        ensures items { IfOk result (λ more. option_map (λ replay. replay.items.items) more
            ≡ items_with self.writes self.items.items (group_on page.now)) }
    {
        let Some((group, cost)) = group_on(page) else {
            return Ok(None);
        };
        let cost = self.cost + cost as u32;
        if cost > LOG_ROOM
            || group.len() as u64 > u64::MAX - self.writes - self.items.len() as u64
        {
            return Ok(None);
        }
        let Replay {
            writes,
            mut items,
            cost: _,
        } = self;
        push_all(alloc, &mut items, group)?;
        Ok(Some(Replay {
            writes,
            items,
            cost,
        }))
    }
}
