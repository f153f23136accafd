//! The placement of a list: what each column does.

ghost use Rattle.std.specs.Prelude.{◌≡◌, ◌==◌, ◌<◌, List, IfOk, map, find};
ghost use Rattle.std.specs.Option.{option_map};
ghost use Rattle.lt_tables.specs.declared.Entry.{Entry};
ghost use Rattle.lt_tables.specs.declared.Sending.{Sending};
ghost use Rattle.lt_tables.specs.Placement.{columns as the_columns, placement, plan_at, plan_of};
ghost use Rattle.lt_balance.specs.Columns.{AreColumns};
ghost use Rattle.lt_balance.specs.Entries.{AreEntries};

use super::columns::{COLUMNS, Column, columns_of};
use super::sendings::sendings_of;
use lt_page::NoMemory;
use lt_tables::{ColumnPlan, Entry, Sending};
use std::alloc::Global;
use std::marker::Model;

/// The plans of the 64 columns, in order. The target and the mark of a column that does not send
/// are 0.
#[derive(Debug, Drop)]
pub struct Placement {
    plans: Vec<ColumnPlan>,
}

impl Model for Placement {
    ghost use Rattle.std.specs.Prelude.{◌≡◌, List, length};
    ghost use Rattle.lt_tables.specs.declared.ColumnPlan.{ColumnPlan};

    ghost Value = { List ColumnPlan };

    ghost view = { λ placement. placement.plans.items };

    ghost invariant = { λ placement. length placement.plans.items ≡ 64 };
}

impl Placement {
    /// The plan of a column below 64.
    pub fn plan(&self, column: u8) -> &ColumnPlan
        requires { column < 64 }
        ensures { result.now ≡ plan_at self.now column }
    {
        &self.plans[column as usize]
    }
}

/// The placement of a list. None where a column that sends finds no column with room for what it
/// sends.
///
/// It takes one step for each entry and then at most 64 for each column that sends.
pub fn place(alloc: Global, entries: &[Entry]) -> Result<Option<Placement>, NoMemory>
    requires { AreEntries entries.now }
    ensures { IfOk result (λ found. found ≡ placement entries.now) }
{
    let columns = columns_of(entries);
    match sendings_of(&columns) {
        None => Ok(None),
        Some(made) => Ok(Some(placed(alloc, &columns, made.as_slice())?)),
    }
}

/// The plans of columns that send so.
fn placed(
    alloc: Global,
    columns: &[Column; COLUMNS],
    made: &[Sending],
) -> Result<Placement, NoMemory>
    ensures { IfOk result (λ plans. (es : List Entry) → AreColumns es columns.now
        → plans ≡ map (plan_of es made.now) the_columns) }
{
    let mut plans = Vec::with_capacity(alloc, COLUMNS)?;
    for column in 0..64u8 {
        plans.push(plan(columns, made, column))?;
    }
    Ok(Placement { plans })
}

/// What a column does where these sendings are made.
fn plan(columns: &[Column; COLUMNS], made: &[Sending], column: u8) -> ColumnPlan
    requires { column < 64 }
    ensures { (es : List Entry) → AreColumns es columns.now → result ≡ plan_of es made.now column }
{
    match target(made, column) {
        Some(target) => ColumnPlan {
            sends: true,
            target,
            mark: columns[column as usize].mark,
        },
        None => ColumnPlan {
            sends: false,
            target: 0,
            mark: 0,
        },
    }
}

/// The column that a column sends to.
fn target(made: &[Sending], column: u8) -> Option<u8>
    ensures { result ≡ option_map (λ (s : Sending). s.to) (find (λ (s : Sending). s.from == column) made.now) }
{
    made.iter()
        .find(|sending| sending.from == column)
        .map(|sending| sending.to)
}
