//! Asking the tables of a pile one after another.

ghost use Rattle.std.specs.Prelude.{◌≡◌, ℕ, ◌+◌, ◌*◌, ◌<◌, ◌≤◌, List, Some, IsErrOf, count_by};
ghost use Rattle.lt_terms.specs.Bytes.{Image};
ghost use Rattle.lt_item.specs.Parts.{IsInRange, parts_of};
ghost use Rattle.lt_device.specs.Calls.{OnlyReads};
ghost use Rattle.lt_device.specs.Reads.{CountsAtMost};
ghost use Rattle.lt_format.specs.declared.node_id.NodeId.{NodeId};
ghost use Rattle.lt_search.specs.Asking.{asks_of, is_answered, may_ask};
ghost use Rattle.lt_search.specs.Reads.{bucket_reads, look_reads};
ghost use Rattle.lt_search.specs.Searched.{AreWithin, EndsSearch, Searched};
ghost use Rattle.lt_search.specs.Seen.{IsBucketOf, IsSeen, pile_stops, seen_in};

use crate::kept::InnerFilters;
use crate::version::{Version, show};
use lt_bloom::covers_at;
use lt_device::Device;
use lt_format::Geometry;
use lt_htable::{LookFault, look};
use lt_item::Parts;
use lt_page::Page;

/// The filters that are asked for the tables of a pile.
#[derive(Clone, Copy)]
pub(super) enum Filters<'a> {
    /// Those that are kept of inner tables.
    Kept(&'a InnerFilters),
    /// The block of the key's column in the tables' group.
    Column(&'a Page),
}

impl Filters<'_> {
    /// Whether the table at a place of its pile, and in this extent, may hold the key of these parts.
    #[tactic(auto, unfolding(lt_item::specs::Parts::parts_of))]
    fn cover(&self, place: usize, extent: u32, parts: &Parts) -> bool
        requires { IsInRange parts.now }
        ensures { (key : List ℕ) → parts.now ≡ parts_of key
            → result ≡ is_answered self.now key place extent }
    {
        match self {
            Filters::Kept(filters) => filters.may_hold(extent, parts),
            Filters::Column(page) => covers_at(page, (place % 64) as u8, parts),
        }
    }
}

/// The newest version of a key in a pile, or in the tables of one group of it. It asks the newest table
/// first, and passes over those whose filter does not cover the key.
pub(super) fn search_tables<D: Device>(
    device: &mut D,
    geometry: &Geometry,
    tables: &[u32],
    filters: &Filters<'_>,
    key: &[u8],
    parts: &Parts,
    page: &mut Page,
    out: &mut Page,
) -> Result<Option<Version>, LookFault>
    requires within { AreWithin geometry.now (D.blocks device.old) tables.now }
    requires parts { parts.now ≡ parts_of key.now }
    requires range { IsInRange parts.now }

    // Of these tables, as the stops of any node and from the first place of any group on.
    ensures searched { (image : Image) (id : NodeId) (group : ℕ)
        → (D.state device.old).shown ≡ Some image
        → Searched (asks_of filters.now key.now) bucket_reads geometry.now image key.now
        (pile_stops id (64 * group) tables.now) result out.old out.new (D.reads device.old)
        (D.reads device.new) }
    ensures ends { EndsSearch (IsBucketOf geometry.now tables.now) (D.state device.old).shown
        result out.old out.new }
    ensures calls { OnlyReads D.Device (2 * count_by (may_ask filters.now key.now) tables.now)
        (IsErrOf result LookFault.Device) device.old device.new }
{
    for i in (0..tables.len()).rev() {
        let extent = tables[i];
        if filters.cover(i, extent, parts) {
            let first = geometry.extent(extent);
            let version = look_into(device, first, key, parts, page, out)?;
            if version.is_some() {
                return Ok(version);
            }
        }
    }
    Ok(None)
}

/// What the table whose extent begins at block `first` has of a key.
fn look_into<D: Device>(
    device: &mut D,
    first: u64,
    key: &[u8],
    parts: &Parts,
    page: &mut Page,
    out: &mut Page,
) -> Result<Option<Version>, LookFault>
    requires within { first + 65 ≤ D.blocks device.old }
    requires parts { parts.now ≡ parts_of key.now }
    ensures seen { (image : Image) → (D.state device.old).shown ≡ Some image
        → IsSeen (seen_in image first key.now) result out.old out.new }
    ensures reads { (image : Image) → (D.state device.old).shown ≡ Some image
        → CountsAtMost (look_reads image first key.now) (D.reads device.old) (D.reads device.new) }
    ensures ends { EndsSearch (λ b. (column : ℕ) × (column < 64) × (b ≡ first + column)) (D.state device.old).shown
        result out.old out.new }
    ensures calls { OnlyReads D.Device 2 (IsErrOf result LookFault.Device) device.old device.new }
{
    match look(device, first, key, parts, page) {
        Ok(Some(item)) => Ok(Some(show(&item, out))),
        Ok(None) => Ok(None),
        Err(fault) => Err(fault),
    }
}
