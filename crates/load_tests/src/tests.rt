use lt_io::{Sink, Source};
use lt_line::{GenSource, Summary, Tally};
use lt_page::{NoMemory, Page};
use std::process::Abort;

fn same(rt: &impl Abort, found: usize, want: usize) {
    assert_eq!(rt; found, want);
}

fn read(source: &mut GenSource, page: &mut Page) -> usize {
    match source.read(page) {
        Ok(n) => n,
        Err(_) => 9999,
    }
}

fn front(page: &Page, count: usize) -> &[u8] {
    page.bytes().get(..count).unwrap_or(&[])
}

#[test]
fn a_stream_of_one_write_is_spelled(rt: HostRuntime) -> Result<(), NoMemory> {
    let mut source = GenSource::new(7, 1);
    let mut page = Page::new(rt.alloc())?;
    same(&rt, read(&mut source, &mut page), 114);
    let shown = front(&page, 114);
    assert!(rt; shown.starts_with(b"put key0000000 aaaaaaa"));
    assert!(rt; shown.ends_with(b"aaaaaaa\nget key0000000\n"));
    same(&rt, read(&mut source, &mut page), 0);
    Ok(())
}

#[test]
fn every_piece_but_the_last_is_a_whole_page(rt: HostRuntime) -> Result<(), NoMemory> {
    let mut source = GenSource::new(7, 100);
    let mut page = Page::new(rt.alloc())?;
    same(&rt, read(&mut source, &mut page), 4096);
    same(&rt, read(&mut source, &mut page), 4096);
    Ok(())
}

#[test]
fn a_tally_counts_lines_that_come_in_pieces(rt: HostRuntime) -> Result<(), NoMemory> {
    let mut tally = Tally::new();
    for piece in [
        b"OK\nVALUE abc\nVAL".as_slice(),
        b"UE \nNONE\nFULL 3 1\nLI",
        b"MIT\nBAD VALUE \nOKAY\nOK",
    ] {
        let _taken = tally.write(piece);
    }
    let want = Summary {
        ok: 1,
        refused: 2,
        values: 2,
        nones: 1,
        bytes: 3,
    };
    assert!(rt; tally.summary() == want);
    Ok(())
}
