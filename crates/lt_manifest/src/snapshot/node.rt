//! A node of a snapshot: its fields, and then its extent numbers.

ghost use Rattle.std.specs.Prelude.{◌≡◌, ℕ, ◌+◌, ◌<◌, ◌^◌, ◌++◌, ◌≤◌, ◌==◌, ◌&&◌, List, length, nat_le, nat_lt};
ghost use Rattle.std.specs.Prelude.{Ok, Err, IfOk, IsTrue, MatchResult, slice_index, if◌then◌else◌};
ghost use Rattle.std.specs.Int.{w8, w16, w32};
ghost use Rattle.lt_format.specs.Layout.{is_geometry};
ghost use Rattle.lt_format.specs.Trie.{groups_for, IsTrie};
ghost use Rattle.lt_format.specs.Snapshot.{node_read, extents_of, follows};
ghost use Rattle.lt_node.specs.Marks.{AreMarks};
ghost use Rattle.lt_manifest.specs.Area.{IsReadAs, after_front, field_at, front_of};
ghost use Rattle.lt_manifest.specs.Shape.{entry_of, shape_of, shape_read};

use crate::fault::ReadFault;
use crate::snapshot::extents::read_extents;
use crate::snapshot::fields::{number_u8, number_u16, number_u32};
use crate::snapshot::header::Front;
use lt_format::{Geometry, NodeId};
use lt_node::{Numbers, Trie};
use std::alloc::Global;

/// A node with its name.
#[derive(Drop)]
pub struct NodeRead {
    pub id: NodeId,
    pub base: u32,
    pub tables: Vec<u32>,
    pub groups: Vec<u32>,
}

/// The nodes that the bytes of a snapshot spell behind its header, which they begin with.
pub fn read_trie(
    alloc: Global,
    geometry: &Geometry,
    front: &Front,
    bytes: &[u8],
) -> Result<Trie, ReadFault>
    requires valid { IsTrue (is_geometry geometry.now) }
    requires extents { front.now.header.extents ≤ 65536 }
    requires total { length bytes.now ≡ front.now.total }
    ensures read { IsReadAs result
        (λ trie. record { header = front.now.header; trie = trie.nodes })
        (after_front geometry.now (slice_index bytes.now) (front_of front.now)) }
    ensures levels { IfOk result (λ trie. trie.levels ≡ geometry.now.levels) }
    ensures trie { IfOk result (λ trie.
        IsTrie geometry.now.levels front.now.header.extents trie.nodes) }
{
    let extents = front.header.extents;
    let mut flags = vec![in alloc; false; extents as usize]?;
    let marks = flags.as_mut_slice();
    let mut trie = Trie::new(alloc, geometry.levels)?;
    let mut last = None;
    let mut place = 40;
    for _ in 0..front.nodes {
        let (node, next) = read_node(alloc, geometry.levels, extents, last, bytes, place, marks)?;
        last = Some(node.id);
        place = next;
        trie.set_node(
            alloc,
            node.id,
            node.base,
            Numbers::of(node.tables),
            Numbers::of(node.groups),
        )?;
    }
    if place == bytes.len() {
        Ok(trie)
    } else {
        Err(ReadFault::Field(20))
    }
}

/// Reads a node that comes after the last one, and marks its extents, which are not marked yet.
fn read_node(
    alloc: Global,
    levels: u8,
    extents: u32,
    last: Option<NodeId>,
    bytes: &[u8],
    at: usize,
    marks: &mut [bool],
) -> Result<(NodeRead, usize), ReadFault>
    requires levels { levels ≤ 5 }
    requires marks { extents ≤ length marks.old }
    ensures read { (before : List ℕ) → AreMarks marks.old before
        → IsReadAs result (λ read. (entry_of read.0, read.1))
        (node_read (slice_index bytes.now) (length bytes.now) levels extents last before at) }
    ensures marked { IfOk result (λ read. (before : List ℕ) → AreMarks marks.old before
        → AreMarks marks.new (extents_of (entry_of read.0) ++ before)) }
{
    let (shape, at_tables) = read_shape(levels, extents, last, bytes, at)?;
    let (tables, at_groups) = read_extents(alloc, bytes, extents, shape.tables, at_tables, marks)?;
    let (groups, next) = read_extents(alloc, bytes, extents, shape.groups, at_groups, marks)?;
    Ok((
        NodeRead {
            id: shape.id,
            base: shape.base,
            tables,
            groups,
        },
        next,
    ))
}

/// A node's name and base, and how many tables and groups it has.
#[derive(Clone, Copy)]
pub struct Shape {
    pub id: NodeId,
    pub base: u32,
    pub tables: u32,
    pub groups: u32,
}

/// Reads the fields of a node that comes after the last one, up to its extent numbers, or answers the
/// place of the first field that does not stand.
#[tactic(auto, unfolding(crate::specs::Shape::shape_read))]
pub fn read_shape(
    levels: u8,
    extents: u32,
    last: Option<NodeId>,
    bytes: &[u8],
    at: usize,
) -> Result<(Shape, usize), usize>
    requires { levels ≤ 5 }
    ensures { MatchResult result
        (λ read. shape_read (slice_index bytes.now) (length bytes.now) levels extents last at
        ≡ Ok (shape_of read.0, read.1))
        (λ e. shape_read (slice_index bytes.now) (length bytes.now) levels extents last at ≡ Err e) }
{
    let (level, at_number) = level_field(levels, bytes, at)?;
    let (number, at_base) = number_field(level, last, bytes, at_number)?;
    let is_last = level + 1 == levels;
    let (base, at_tables) = base_field(is_last, extents, bytes, at_base)?;
    let (tables, at_groups) = tables_field(extents, bytes, at_tables)?;
    let (groups, next) = groups_field(is_last, tables, bytes, at_groups)?;
    let id = NodeId { level, number };
    Ok((
        Shape {
            id,
            base,
            tables,
            groups,
        },
        next,
    ))
}

fn level_field(levels: u8, bytes: &[u8], at: usize) -> Result<(u8, usize), usize>
    ensures read { result ≡ field_at bytes.now w8 (λ l. nat_lt l levels) at }
    ensures small { IfOk result (λ read. read.0 < levels) }
{
    match number_u8(bytes, at) {
        Some(level) if level < levels => Ok((level, at + 1)),
        _ => Err(at),
    }
}

fn number_field(
    level: u8,
    last: Option<NodeId>,
    bytes: &[u8],
    at: usize,
) -> Result<(u16, usize), usize>
    requires { level ≤ 4 }
    ensures { result ≡ field_at bytes.now w16
        (λ n. nat_lt n (8 ^ level) && follows last (record { level = level; number = n })) at }
{
    match number_u16(bytes, at) {
        Some(number) if is_next(level, number, last) => Ok((number, at + 2)),
        _ => Err(at),
    }
}

/// Whether there is such a node at the level, and it comes after the last one.
fn is_next(level: u8, number: u16, last: Option<NodeId>) -> bool
    requires { level ≤ 4 }
    ensures { result ≡ (nat_lt number (8 ^ level)
        && follows last (record { level = level; number = number })) }
{
    (number as u32) < 8u32.pow(level as u32) && follows(last, level, number)
}

fn follows(last: Option<NodeId>, level: u8, number: u16) -> bool
    ensures { result ≡ follows last (record { level = level; number = number }) }
{
    match last {
        Some(last) => {
            last.level
                .cmp(&level)
                .then(last.number.cmp(&number))
                .is_lt()
        }
        None => true,
    }
}

/// The base, which is 0 above the last level.
fn base_field(is_last: bool, extents: u32, bytes: &[u8], at: usize) -> Result<(u32, usize), usize>
    ensures { result ≡ field_at bytes.now w32
        (λ m. nat_le m (if is_last then extents else 0)) at }
{
    let most = if is_last { extents } else { 0 };
    match number_u32(bytes, at) {
        Some(base) if base <= most => Ok((base, at + 4)),
        _ => Err(at),
    }
}

fn tables_field(extents: u32, bytes: &[u8], at: usize) -> Result<(u32, usize), usize>
    ensures { result ≡ field_at bytes.now w32 (λ t. nat_le 1 t && nat_le t extents) at }
{
    match number_u32(bytes, at) {
        Some(tables) if 1 <= tables && tables <= extents => Ok((tables, at + 4)),
        _ => Err(at),
    }
}

/// The number of groups, which is 0 above the last level.
fn groups_field(is_last: bool, tables: u32, bytes: &[u8], at: usize) -> Result<(u32, usize), usize>
    ensures { result ≡ field_at bytes.now w32
        (λ g. g == (if is_last then groups_for tables else 0)) at }
{
    let wanted = if is_last { tables.div_ceil(64) } else { 0 };
    match number_u32(bytes, at) {
        Some(groups) if groups == wanted => Ok((groups, at + 4)),
        _ => Err(at),
    }
}
