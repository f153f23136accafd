//! The extent numbers of a node.

ghost use Rattle.std.specs.Prelude.{◌≡◌, ℕ, ◌++◌, ◌∷◌, ◌&&◌, ◌<◌, ◌≤◌, List, not, nat_lt, length, IfOk, slice_index};
ghost use Rattle.std.specs.Int.{w32};
ghost use Rattle.lt_terms.specs.Bytes.{is_in};
ghost use Rattle.lt_format.specs.Snapshot.{extents_at};
ghost use Rattle.lt_manifest.specs.Area.{IsReadAs, field_at};
ghost use Rattle.lt_node.specs.Marks.{AreMarks};

use crate::fault::ReadFault;
use crate::snapshot::fields::number_u32;
use std::alloc::Global;

/// Reads as many extent numbers as wanted. Each of them is below the number of extents and not marked
/// yet, and is marked.
pub fn read_extents(
    alloc: Global,
    bytes: &[u8],
    extents: u32,
    count: u32,
    at: usize,
    marks: &mut [bool],
) -> Result<(Vec<u32>, usize), ReadFault>
    requires { extents ≤ length marks.old }
    ensures read { (before : List ℕ) → AreMarks marks.old before
        → IsReadAs result (λ read. (read.0.items, read.1))
        (extents_at (slice_index bytes.now) (length bytes.now) extents count before at) }
    ensures marked { IfOk result (λ read. (before : List ℕ) → AreMarks marks.old before
        → AreMarks marks.new (read.0.items ++ before)) }
{
    let mut list = Vec::new(alloc);
    let mut place = at;
    for _ in 0..count {
        let (extent, next) = read_extent(bytes, extents, place, marks)?;
        list.push(extent)?;
        place = next;
    }
    Ok((list, place))
}

/// Reads and marks an extent number, which is not marked yet.
fn read_extent(
    bytes: &[u8],
    extents: u32,
    at: usize,
    marks: &mut [bool],
) -> Result<(u32, usize), usize>
    requires { extents ≤ length marks.old }
    ensures read { (before : List ℕ) → AreMarks marks.old before
        → result ≡ field_at bytes.now w32 (λ x. nat_lt x extents && not (is_in x before)) at }
    ensures marked { IfOk result (λ read. (before : List ℕ) → AreMarks marks.old before
        → AreMarks marks.new (read.0 ∷ before)) }
{
    match number_u32(bytes, at) {
        Some(extent) if extent < extents && !marks[extent as usize] => {
            marks[extent as usize] = true;
            Ok((extent, at + 4))
        }
        _ => Err(at),
    }
}
