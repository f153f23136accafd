use lt_io::{MemSink, MemSource, Sink, Source, SteadySource, write_all};
use lt_page::{Failed, NoMemory, Page};
use std::alloc::{AllocError, Global};

fn pieces_of(alloc: Global, lens: &[usize]) -> Result<Vec<Vec<u8>>, AllocError> {
    let mut pieces = Vec::new(alloc);
    for &len in lens {
        pieces.push(vec![in alloc; 7; len]?)?;
    }
    Ok(pieces)
}

#[test]
fn a_source_in_memory_hands_out_pieces_and_fails_where_told(
    rt: HostRuntime,
) -> Result<(), NoMemory> {
    let pieces = pieces_of(rt.alloc(), &[0, 2, 5000, 0])?;
    let mut source = MemSource::new(pieces, vec![in rt.alloc(); 1]?);
    let mut page = Page::new(rt.alloc())?;
    for want in [Ok(2), Err(Failed), Ok(4096), Ok(904), Ok(0), Ok(0)] {
        assert_eq!(rt; source.read(&mut page), want);
    }
    assert_eq!(rt; page.byte(4095), 7);
    Ok(())
}

#[test]
fn a_steady_source_hands_out_pieces(rt: HostRuntime) -> Result<(), NoMemory> {
    let mut source = SteadySource::new(pieces_of(rt.alloc(), &[1, 0, 3])?);
    let mut page = Page::new(rt.alloc())?;
    for want in [1, 3, 0] {
        assert_eq!(rt; source.read(&mut page), Ok(want));
    }
    Ok(())
}

#[test]
fn a_sink_in_memory_takes_steps_and_fails_where_told(rt: HostRuntime) -> Result<(), NoMemory> {
    let mut sink = MemSink::new(rt.alloc(), 5, 2, vec![in rt.alloc(); 1]?)?;
    for want in [Ok(2), Err(Failed), Ok(2), Ok(1), Err(Failed)] {
        assert_eq!(rt; sink.write(b"abc"), want);
    }
    assert_eq!(rt; sink.taken(), b"ababa".as_slice());
    Ok(())
}

#[test]
fn all_is_written_in_several_steps(rt: HostRuntime) -> Result<(), NoMemory> {
    let mut sink = MemSink::new(rt.alloc(), 8, 3, Vec::new(rt.alloc()))?;
    assert_eq!(rt; write_all(&mut sink, b"abcdefg"), Ok(()));
    assert_eq!(rt; write_all(&mut sink, b"hij"), Err(Failed));
    assert_eq!(rt; sink.taken(), b"abcdefgh".as_slice());
    Ok(())
}
