//! Searching along a key's path.

ghost use Rattle.std.specs.Prelude.{◌≡◌, ◌-◌, ◌*◌, ◌<◌, Some, IsErrOf};
ghost use Rattle.lt_terms.specs.Bytes.{Image};
ghost use Rattle.lt_item.specs.Parts.{IsInRange, parts_of};
ghost use Rattle.lt_device.specs.Calls.{OnlyReads};
ghost use Rattle.lt_device.specs.Reads.{CountsAtMost};
ghost use Rattle.lt_format.specs.Trie.{named};
ghost use Rattle.lt_image.specs.Bound.{met, reads_of};
ghost use Rattle.lt_image.specs.Versions.{at_stops, stops, items_at};
ghost use Rattle.lt_search.specs.Asking.{asks_kept, inner_asked, is_asked, most_reads};
ghost use Rattle.lt_search.specs.Found.{IsAnswer};
ghost use Rattle.lt_search.specs.Kept.{IsSoundWith};
ghost use Rattle.lt_search.specs.Reads.{bucket_reads, path_reads};
ghost use Rattle.lt_search.specs.Searched.{AreWithin, EndsSearch, Searched, reads_on_path, seen_on_path};
ghost use Rattle.lt_search.specs.Seen.{IsBucketOnPath, IsSeen};

use crate::groups::search_groups;
use crate::kept::InnerFilters;
use crate::tables::{Filters, search_tables};
use crate::version::Version;
use lt_device::Device;
use lt_format::Geometry;
use lt_htable::LookFault;
use lt_item::Parts;
use lt_node::{Trie, path};
use lt_page::Page;

/// The newest version of a key in the tables on its path: from the root down, the newest table first in
/// each pile, up to the first that holds the key. Its value comes to the front of the page `out`.
///
/// It takes no memory, and reads a bucket only of tables whose filter covers the key: at inner levels the
/// filter that is kept, at the last one that in the block of the group, which it reads once for up to 64
/// tables. `column` and `page` hold what it reads.
pub fn search<D: Device>(
    device: &mut D,
    geometry: &Geometry,
    trie: &Trie,
    filters: &InnerFilters,
    key: &[u8],
    parts: &Parts,
    column: &mut Page,
    page: &mut Page,
    out: &mut Page,
) -> Result<Option<Version>, LookFault>
    requires levels { trie.now.levels ≡ geometry.now.levels }
    requires within { AreWithin geometry.now (D.blocks device.old) (named trie.now.nodes) }
    requires parts { parts.now ≡ parts_of key.now }
    requires range { IsInRange parts.now }

    // On a sound image it is the newest version of the key, within the bound of reads.
    ensures answer { (image : Image) → (D.state device.old).shown ≡ Some image
        → IsSoundWith geometry.now filters.now image trie.now.nodes
        → IsAnswer (at_stops (items_at geometry.now image) geometry.now.levels trie.now.nodes key.now)
        result out.old out.new }
    ensures bound { (image : Image) → (D.state device.old).shown ≡ Some image
        → IsSoundWith geometry.now filters.now image trie.now.nodes
        → CountsAtMost
        (reads_of geometry.now image key.now (met geometry.now image trie.now.nodes key.now))
        (D.reads device.old) (D.reads device.new) }

    // Whatever the blocks hold, it is what they tell, or the block that spells no bucket.
    ensures seen { (image : Image) → (D.state device.old).shown ≡ Some image
        → IsSeen (seen_on_path geometry.now filters.now image trie.now.nodes key.now)
        result out.old out.new }
    ensures reads { (image : Image) → (D.state device.old).shown ≡ Some image
        → CountsAtMost (reads_on_path geometry.now filters.now image trie.now.nodes key.now)
        (D.reads device.old) (D.reads device.new) }

    ensures ends { EndsSearch (IsBucketOnPath geometry.now trie.now.nodes key.now) (D.state device.old).shown
        result out.old out.new }
    ensures calls { OnlyReads D.Device
        (most_reads geometry.now.levels filters.now trie.now.nodes key.now)
        (IsErrOf result LookFault.Device) device.old device.new }
{
    walk(
        device, geometry, trie, filters, key, parts, column, page, out,
    )
}

/// The newest version of a key: that of the inner levels, and else that of the last pile.
fn walk<D: Device>(
    device: &mut D,
    geometry: &Geometry,
    trie: &Trie,
    filters: &InnerFilters,
    key: &[u8],
    parts: &Parts,
    column: &mut Page,
    page: &mut Page,
    out: &mut Page,
) -> Result<Option<Version>, LookFault>
    requires levels { trie.now.levels ≡ geometry.now.levels }
    requires within { AreWithin geometry.now (D.blocks device.old) (named trie.now.nodes) }
    requires parts { parts.now ≡ parts_of key.now }
    requires range { IsInRange parts.now }
    ensures searched { (image : Image) → (D.state device.old).shown ≡ Some image
        → Searched (is_asked geometry.now filters.now image trie.now.nodes key.now) path_reads
        geometry.now image key.now (stops geometry.now.levels trie.now.nodes key.now) result out.old
        out.new (D.reads device.old) (D.reads device.new) }
    ensures ends { EndsSearch (IsBucketOnPath geometry.now trie.now.nodes key.now) (D.state device.old).shown
        result out.old out.new }
    ensures calls { OnlyReads D.Device
        (most_reads geometry.now.levels filters.now trie.now.nodes key.now)
        (IsErrOf result LookFault.Device) device.old device.new }
{
    let last = path(parts, trie.levels() - 1);
    let found = search_inner(device, geometry, trie, filters, key, parts, page, out)?;
    if found.is_some() {
        return Ok(found);
    }
    let tables = trie.pile(last);
    let groups = trie.groups(last);
    search_groups(
        device, geometry, tables, groups, key, parts, column, page, out,
    )
}

/// The newest version of a key above the last level.
fn search_inner<D: Device>(
    device: &mut D,
    geometry: &Geometry,
    trie: &Trie,
    filters: &InnerFilters,
    key: &[u8],
    parts: &Parts,
    page: &mut Page,
    out: &mut Page,
) -> Result<Option<Version>, LookFault>
    requires levels { trie.now.levels ≡ geometry.now.levels }
    requires within { AreWithin geometry.now (D.blocks device.old) (named trie.now.nodes) }
    requires parts { parts.now ≡ parts_of key.now }
    requires range { IsInRange parts.now }
    ensures searched { (image : Image) → (D.state device.old).shown ≡ Some image
        → Searched (asks_kept filters.now key.now) bucket_reads geometry.now image key.now
        (stops (geometry.now.levels - 1) trie.now.nodes key.now) result out.old out.new
        (D.reads device.old) (D.reads device.new) }
    ensures ends { EndsSearch (IsBucketOnPath geometry.now trie.now.nodes key.now) (D.state device.old).shown
        result out.old out.new }
    ensures calls { OnlyReads D.Device
        (2 * inner_asked filters.now trie.now.nodes key.now (geometry.now.levels - 1))
        (IsErrOf result LookFault.Device) device.old device.new }
{
    let levels = trie.levels();
    for level in 0..levels - 1 {
        let tables = trie.pile(path(parts, level));
        let asked = Filters::Kept(filters);
        let version = search_tables(device, geometry, tables, &asked, key, parts, page, out)?;
        if version.is_some() {
            return Ok(version);
        }
    }
    Ok(None)
}
