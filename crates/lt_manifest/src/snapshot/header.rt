//! The header of a snapshot: its first 40 bytes.

ghost use Rattle.std.specs.Prelude.{◌≡◌, ◌+◌, ◌*◌, ◌^◌, ◌<◌, ◌≤◌, ◌==◌, ◌&&◌, length, nat_le, Ok, Err, IfOk, IfErr};
ghost use Rattle.std.specs.Prelude.{MatchResult, slice_index};
ghost use Rattle.std.specs.Int.{w8, w16, w32, w64};
ghost use Rattle.lt_manifest.specs.Area.{field_at, front_of};
ghost use Rattle.lt_format.specs.Snapshot.{front_read, is_zero, extents_stand, always};

use crate::snapshot::fields::{number_u8, number_u16, number_u32, number_u64};
use lt_format::{Geometry, Header};

/// What the header of a snapshot says: the manifest's header, how many nodes follow, and the length of
/// the whole in bytes.
#[derive(Clone, Copy)]
pub struct Front {
    pub header: Header,
    pub nodes: u32,
    pub total: u32,
}

/// The header that these 40 bytes spell, on a device of so many blocks, or the place of the first field
/// that does not stand.
#[tactic(auto, unfolding(lt_format::specs::Snapshot::front_read))]
pub fn read_front(geometry: &Geometry, blocks: u64, bytes: &[u8]) -> Result<Front, usize>
    requires { length bytes.now ≡ 40 }
    ensures read { MatchResult result
        (λ front. front_read geometry.now blocks (slice_index bytes.now) ≡ Ok (front_of front))
        (λ at. front_read geometry.now blocks (slice_index bytes.now) ≡ Err at) }
    ensures writes { IfOk result (λ front. front.header.writes < 2 ^ 64) }
    ensures least { IfOk result (λ front. 40 ≤ front.total) }
    ensures fault_place { IfErr result (λ at. at < 40) }
{
    format_field(bytes)?;
    let (log_area, _) = log_area_field(bytes)?;
    zero_field_u16(bytes, 2)?;
    let (extents, _) = extents_field(geometry, blocks, bytes)?;
    let (writes, _) = writes_field(bytes)?;
    let (nodes, _) = nodes_field(bytes, extents)?;
    let (total, _) = total_field(bytes, extents)?;
    zero_field_u64(bytes, 24)?;
    zero_field_u64(bytes, 32)?;
    Ok(Front {
        header: Header {
            log_area,
            extents,
            writes,
        },
        nodes,
        total,
    })
}

fn format_field(bytes: &[u8]) -> Result<(u8, usize), usize>
    ensures { result ≡ field_at bytes.now w8 (λ n. n == 1) 0 }
{
    match number_u8(bytes, 0) {
        Some(format) if format == 1 => Ok((format, 1)),
        _ => Err(0),
    }
}

fn log_area_field(bytes: &[u8]) -> Result<(u8, usize), usize>
    ensures { result ≡ field_at bytes.now w8 (λ n. nat_le n 1) 1 }
{
    match number_u8(bytes, 1) {
        Some(area) if area <= 1 => Ok((area, 2)),
        _ => Err(1),
    }
}

fn extents_field(geometry: &Geometry, blocks: u64, bytes: &[u8]) -> Result<(u32, usize), usize>
    ensures { result ≡ field_at bytes.now w32 (extents_stand geometry.now blocks) 4 }
{
    match number_u32(bytes, 4) {
        Some(extents) if has_room(geometry, blocks, extents) => Ok((extents, 8)),
        _ => Err(4),
    }
}

/// Whether a device of so many blocks has room for so many extents.
pub fn has_room(geometry: &Geometry, blocks: u64, extents: u32) -> bool
    ensures { result ≡ extents_stand geometry.now blocks extents }
{
    1 <= extents && extents <= 65_536 && geometry.needed(extents) <= blocks
}

fn writes_field(bytes: &[u8]) -> Result<(u64, usize), usize>
    ensures read { result ≡ field_at bytes.now w64 always 8 }
    ensures small { IfOk result (λ read. read.0 < 2 ^ 64) }
{
    match number_u64(bytes, 8) {
        Some(writes) => Ok((writes, 16)),
        None => Err(8),
    }
}

fn nodes_field(bytes: &[u8], extents: u32) -> Result<(u32, usize), usize>
    ensures { result ≡ field_at bytes.now w32 (λ n. nat_le n extents) 16 }
{
    match number_u32(bytes, 16) {
        Some(nodes) if nodes <= extents => Ok((nodes, 20)),
        _ => Err(16),
    }
}

fn total_field(bytes: &[u8], extents: u32) -> Result<(u32, usize), usize>
    ensures read { result ≡ field_at bytes.now w32
        (λ n. nat_le 40 n && nat_le n (40 + 19 * extents)) 20 }
    ensures least { IfOk result (λ read. 40 ≤ read.0) }
{
    match number_u32(bytes, 20) {
        Some(total) if 40 <= total && total as u64 <= 40 + 19 * extents as u64 => Ok((total, 24)),
        _ => Err(20),
    }
}

fn zero_field_u16(bytes: &[u8], at: usize) -> Result<(u16, usize), usize>
    requires { at + 2 ≤ length bytes.now }
    ensures { result ≡ field_at bytes.now w16 is_zero at }
{
    match number_u16(bytes, at) {
        Some(number) if number == 0 => Ok((number, at + 2)),
        _ => Err(at),
    }
}

fn zero_field_u64(bytes: &[u8], at: usize) -> Result<(u64, usize), usize>
    requires { at + 8 ≤ length bytes.now }
    ensures { result ≡ field_at bytes.now w64 is_zero at }
{
    match number_u64(bytes, at) {
        Some(number) if number == 0 => Ok((number, at + 8)),
        _ => Err(at),
    }
}
