//! Asking the tables of a last-level pile, group after group.

ghost use Rattle.std.specs.Prelude.{◌≡◌, ◌+◌, ◌*◌, ◌^◌, ◌<◌, Some, IsErrOf, IsTrue, drop};
ghost use Rattle.std.specs.Prelude.{length, take};
ghost use Rattle.lt_terms.specs.Bytes.{Image};
ghost use Rattle.lt_item.specs.Parts.{IsInRange, parts_of};
ghost use Rattle.lt_device.specs.Calls.{OnlyReads};
ghost use Rattle.lt_format.specs.declared.node_id.NodeId.{NodeId};
ghost use Rattle.lt_format.specs.Trie.{groups_for, is_last_level};
ghost use Rattle.lt_search.specs.Seen.{asks_group};
ghost use Rattle.lt_search.specs.Reads.{path_reads};
ghost use Rattle.lt_search.specs.Searched.{AreWithin, EndsSearch, Searched};
ghost use Rattle.lt_search.specs.Seen.{IsBucketOf, pile_stops};

use crate::tables::{Filters, search_tables};
use crate::version::Version;
use lt_container::read_column;
use lt_device::Device;
use lt_format::Geometry;
use lt_htable::LookFault;
use lt_item::Parts;
use lt_page::Page;

/// The newest version of a key in a last-level pile. Of each group, the last one first, it reads the
/// block of the key's column, and asks that for the group's tables.
pub(super) fn search_groups<D: Device>(
    device: &mut D,
    geometry: &Geometry,
    tables: &[u32],
    groups: &[u32],
    key: &[u8],
    parts: &Parts,
    column: &mut Page,
    page: &mut Page,
    out: &mut Page,
) -> Result<Option<Version>, LookFault>
    requires within { AreWithin geometry.now (D.blocks device.old) tables.now }
    requires groups_within { AreWithin geometry.now (D.blocks device.old) groups.now }
    requires groups { length groups.now ≡ groups_for (length tables.now) }
    requires parts { parts.now ≡ parts_of key.now }
    requires range { IsInRange parts.now }
    ensures searched { (image : Image) (id : NodeId) → (D.state device.old).shown ≡ Some image
        → IsTrue (is_last_level geometry.now.levels id)
        → Searched (asks_group geometry.now groups.now image key.now) path_reads geometry.now image
        key.now (pile_stops id 0 tables.now) result out.old out.new (D.reads device.old)
        (D.reads device.new) }
    ensures ends { EndsSearch (IsBucketOf geometry.now tables.now) (D.state device.old).shown
        result out.old out.new }
    ensures calls { OnlyReads D.Device (2 * length tables.now + length groups.now)
        (IsErrOf result LookFault.Device) device.old device.new }
{
    for group in (0..groups.len()).rev() {
        let first = geometry.extent(groups[group]);
        read_column(device, first, parts.column, column)?;
        let part = part_of(tables, group);
        let filters = Filters::Column(column);
        let version = search_tables(device, geometry, part, &filters, key, parts, page, out)?;
        if version.is_some() {
            return Ok(version);
        }
    }
    Ok(None)
}

/// The tables of a group of a pile.
fn part_of(tables: &[u32], group: usize) -> &[u32]
    requires { 64 * group < 2 ^ 64 }
    ensures { result.now ≡ take 64 (drop (64 * group) tables.now) }
{
    front(behind(tables, 64 * group), 64)
}

/// The first numbers of a list, as many as are wanted or there are.
fn front(list: &[u32], count: usize) -> &[u32]
    ensures { result.now ≡ take count list.now }
{
    if count < list.len() {
        &list[..count]
    } else {
        list
    }
}

/// A list without its first numbers.
fn behind(list: &[u32], count: usize) -> &[u32]
    ensures { result.now ≡ drop count list.now }
{
    if count < list.len() {
        &list[count..]
    } else {
        &[]
    }
}
