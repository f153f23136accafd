//! A page of 4,096 bytes. All numbers in it are big-endian.

ghost use Rattle.std.specs.Prelude.{◌≡◌, ◌+◌, ◌<◌, ◌≤◌, ◌↔◌, length, IfOk, IsTrue, slice_index, slice_set};
ghost use Rattle.lt_terms.specs.Bytes.{IsBlock, zero_block, u16_at, u32_at, filled};

use super::block::{Block, Vacant};
use super::bytes::all_zero;
use super::errors::NoMemory;
use std::alloc::Global;
use std::marker::Model;

/// 4,096 bytes, all zeros at first.
#[derive(Drop)]
pub struct Page {
    block: Block<[u8; Page::LEN], Global>,
}

impl Model for Page {
    ghost use Rattle.std.specs.Prelude.{List, ℕ};
    ghost use Rattle.lt_terms.specs.Bytes.{IsBlock};

    ghost Value = { List ℕ };

    ghost view = { λ page. page.block.value };

    ghost invariant = { λ page. IsBlock page.block.value };
}

impl Page {
    /// How many bytes a page has.
    pub const LEN: usize = 4096;

    /// A page of zeros.
    pub fn new(alloc: Global) -> Result<Page, NoMemory>
        ensures zeros { IfOk result (λ page. page ≡ zero_block) }
        ensures block { IfOk result IsBlock }
    {
        match Vacant::take(alloc) {
            Ok(room) => Ok(Page {
                block: room.fill([0; Page::LEN]),
            }),
            Err(_) => Err(NoMemory),
        }
    }

    /// The byte at a place below 4,096.
    pub fn byte(&self, at: usize) -> u8
        requires { at < 4096 }
        ensures byte { result ≡ slice_index self.now at }
        ensures block { IsBlock self.now }
    {
        self.block.as_ref()[at]
    }

    /// All 4,096 bytes. While they are lent the compiler refuses each call that changes the page.
    pub fn bytes(&self) -> &[u8]
        ensures bytes { result.now ≡ self.now }
        ensures block { IsBlock self.now }
    {
        self.block.as_ref()
    }

    /// Sets the byte at a place below 4,096.
    pub fn set(&mut self, at: usize, value: u8)
        requires { at < 4096 }
        ensures set { self.new ≡ slice_set self.old at value }
        ensures block { IsBlock self.new }
    {
        self.block.as_mut()[at] = value;
    }

    /// Puts the bytes, which fit from this place on.
    pub fn fill_from(&mut self, at: usize, bytes: &[u8])
        requires { at + length bytes.now ≤ 4096 }
        ensures filled { self.new ≡ filled self.old at bytes.now }
        ensures block { IsBlock self.new }
    {
        self.block.as_mut()[at..at + bytes.len()].copy_from_slice(bytes);
    }

    /// The number in the two bytes from this place on.
    pub fn number_u16(&self, at: usize) -> u16
        requires { at + 2 ≤ 4096 }
        ensures number { result ≡ u16_at self.now at }
        ensures block { IsBlock self.now }
    {
        let bytes = self.block.as_ref();
        u16::from_be_bytes([bytes[at], bytes[at + 1]])
    }

    /// The number in the four bytes from this place on.
    pub fn number_u32(&self, at: usize) -> u32
        requires { at + 4 ≤ 4096 }
        ensures number { result ≡ u32_at self.now at }
        ensures block { IsBlock self.now }
    {
        let bytes = self.block.as_ref();
        u32::from_be_bytes([bytes[at], bytes[at + 1], bytes[at + 2], bytes[at + 3]])
    }

    /// Makes this page the same as another.
    pub fn copy_from(&mut self, other: &Page)
        ensures same { self.new ≡ other.now }
        ensures block { IsBlock self.new }
    {
        *self.block.as_mut() = *other.block.as_ref();
    }

    /// Makes all bytes 0.
    pub fn clear(&mut self)
        ensures zeros { self.new ≡ zero_block }
        ensures block { IsBlock self.new }
    {
        *self.block.as_mut() = [0; Page::LEN];
    }

    /// Whether all bytes are 0.
    pub fn is_zero(&self) -> bool
        ensures zeros { IsTrue result ↔ (self.now ≡ zero_block) }
        ensures block { IsBlock self.now }
    {
        all_zero(self.block.as_ref())
    }
}

#[cfg(test)]
mod tests {
    use super::*;

    #[test]
    fn pages_start_as_zeros_and_hold_what_is_put_into_them(
        rt: HostRuntime,
    ) -> Result<(), NoMemory> {
        let mut page = Page::new(rt.alloc())?;
        assert!(rt; page.is_zero());
        assert_eq!(rt; page.bytes().len(), Page::LEN);

        page.fill_from(4092, &[0x12, 0x34, 0x56, 0x78]);
        page.set(0, 7);
        assert!(rt; !page.is_zero());
        assert_eq!(rt; page.byte(0), 7);
        assert_eq!(rt; page.number_u16(4093), 0x3456);
        assert_eq!(rt; page.number_u32(4092), 0x1234_5678);

        let mut other = Page::new(rt.alloc())?;
        other.copy_from(&page);
        page.clear();
        assert!(rt; page.is_zero());
        assert_eq!(rt; other.byte(4095), 0x78);
        Ok(())
    }
}
