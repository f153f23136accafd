//! One bucket of a table.

ghost use Rattle.std.specs.Prelude.{◌≡◌, ◌<◌, Some, IsTrue};
ghost use Rattle.lt_terms.specs.Bytes.{IsBlock};
ghost use Rattle.lt_tables.specs.Bucket.{bucket_of, fits_bucket};
ghost use Rattle.lt_tables.specs.Table.{newest, bucket_in, place_of, sends_in};
ghost use Rattle.lt_tables.specs.Placement.{plan_at};

use lt_balance::{ColumnPlan, Placement};
use lt_bucket::{BucketBuilder, Item, Sends};
use lt_page::Page;

/// Makes the page a column's bucket in the table of these items.
pub(super) fn fill_bucket(page: &mut Page, items: &[Item], placement: &Placement, column: u8)
    requires column { column < 64 }
    requires ranked { newest items.now ≡ items.now }
    requires fits { IsTrue (fits_bucket (bucket_in placement.now items.now column)) }
    ensures bucket { bucket_of page.new ≡ Some (bucket_in placement.now items.now column) }
    ensures block { IsBlock page.new }
{
    let mut builder = BucketBuilder::start(page);
    for item in items {
        if place_of(placement, item) == column {
            builder.add(&item.view());
        }
    }
    builder.finish(sends_in(placement.plan(column)));
}

/// The column whose bucket holds the item.
#[tactic(auto, unfolding(lt_item::specs::Parts::parts_of))]
pub fn place_of(placement: &Placement, item: &Item) -> u8
    ensures { result ≡ place_of placement.now item.now }
{
    let parts = item.parts();
    let plan = placement.plan(parts.column);
    if plan.sends && plan.mark <= parts.suffix {
        plan.target
    } else {
        parts.column
    }
}

/// Where a column's bucket says that it sends.
pub fn sends_in(plan: &ColumnPlan) -> Option<Sends>
    ensures { result ≡ sends_in plan.now }
{
    if plan.sends {
        Some(Sends {
            target: plan.target,
            mark: plan.mark,
        })
    } else {
        None
    }
}
