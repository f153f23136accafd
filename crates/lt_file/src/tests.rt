use super::file_device::read_block;
use super::*;
use lt_device::Device;
use lt_io::{Sink, Source};
use lt_page::{Failed, Page};
use std::fs::{File, OpenOptions};
use std::os::unix::fs::FileExt;
use std::rt::Files;
use std::test::Fail;
use std::{fs, io};

/// A new file, open for reading and writing.
fn make_file<R: Files>(rt: &R, path: &str) -> io::Result<R::File> {
    OpenOptions::new()
        .read(true)
        .write(true)
        .create(true)
        .truncate(true)
        .open(rt, path)
}

/// Whether all bytes of a block are this one.
fn is_filled<D: Device>(
    device: &mut D,
    page: &mut Page,
    block: u64,
    byte: u8,
) -> Result<bool, Failed> {
    if block < device.blocks() {
        device.read(block, page)?;
    }
    Ok(page.bytes().iter().all(|other| *other == byte))
}

#[test]
fn a_file_keeps_blocks_and_has_zeros_past_its_end(rt: HostRuntime) -> Result<(), Fail> {
    let file = make_file(&rt, "lt_file_device")?;
    file.set_len(3 * 4096 + 5)?;
    let mut device = FileDevice::new(file);
    let mut page = Page::new(rt.alloc())?;
    page.fill_from(0, &[7; Page::LEN]);
    device.write(1, &page)?;
    device.sync()?;
    for (block, byte) in [(0, 0), (1, 7), (2, 0), (3, 0), (9, 0), ((1 << 24) - 1, 0)] {
        page.fill_from(0, &[1; Page::LEN]);
        assert!(rt;
            is_filled(&mut device, &mut page, block, byte)?,
            "block {block}"
        );
    }
    assert_eq!(rt; device.reads(), 6);
    fs::remove_file(&rt, "lt_file_device")?;
    Ok(())
}

/// A file that hands over at most 1,000 bytes a call.
#[derive(Drop)]
struct Slow<'a> {
    bytes: &'a [u8],
}

impl FileExt for Slow<'_> {
    fn read_at(&self, buf: &mut [u8], offset: u64) -> io::Result<usize> {
        let rest = self.bytes.get(offset as usize..).unwrap_or(&[]);
        let count = rest.len().min(buf.len()).min(1000);
        buf[..count].copy_from_slice(&rest[..count]);
        Ok(count)
    }

    fn write_at(&self, _: &[u8], _: u64) -> io::Result<usize> {
        Ok(0)
    }
}

#[test]
fn a_block_is_read_to_its_end(rt: HostRuntime) -> Result<(), Fail> {
    let mut bytes = [0; 6596];
    for at in 0..6596 {
        bytes[at] = (at % 251) as u8 + 1;
    }
    let file = Slow { bytes: &bytes };
    let mut page = Page::new(rt.alloc())?;
    read_block(&file, 0, &mut page)?;
    assert_eq!(rt; page.bytes(), &bytes[..4096]);
    read_block(&file, 1, &mut page)?;
    let (read, rest) = page.bytes().split_at(2500);
    assert_eq!(rt; read, &bytes[4096..]);
    assert!(rt; rest.iter().all(|byte| *byte == 0));
    Ok(())
}

#[test]
fn streams_pass_on_what_the_system_gives_and_takes(rt: HostRuntime) -> Result<(), Fail> {
    let path = "lt_file_streams";
    let mut page = Page::new(rt.alloc())?;
    let mut sink = StdSink::new(make_file(&rt, path)?);
    assert_eq!(rt; sink.write(b"ab"), Ok(2));
    assert_eq!(rt; sink.write(b""), Ok(0));

    let mut source = StdSource::new(File::open(&rt, path)?);
    assert_eq!(rt; source.read(&mut page), Ok(2));
    assert_eq!(rt; &page.bytes()[..2], b"ab".as_slice());
    assert_eq!(rt; source.read(&mut page), Ok(0));

    // Files that are open for the other direction alone.
    let mut read_only = StdSink::new(File::open(&rt, path)?);
    assert_eq!(rt; read_only.write(b"ab"), Err(Failed));
    let mut write_only = StdSource::new(OpenOptions::new().write(true).open(&rt, path)?);
    assert_eq!(rt; write_only.read(&mut page), Err(Failed));
    fs::remove_file(&rt, path)?;
    Ok(())
}
