use lt_layout::{Geometry, gate_open, read_super, selected, write_gate, write_super};
use lt_page::{NoMemory, Page};

#[test]
fn a_superblock_is_read_as_it_was_written(rt: HostRuntime) -> Result<(), NoMemory> {
    let geometry = Geometry {
        levels: 2,
        slots: 1,
    };
    let mut page = Page::new(rt.alloc())?;
    assert_eq!(rt; read_super(&page), None);
    write_super(&mut page, &geometry);
    let first = [0x4c, 0x53, 0x4d, 0x54, 0x52, 0x49, 0x45, 0x31, 2, 0, 1, 0];
    assert_eq!(rt; &page.bytes()[..12], first.as_slice());
    assert_eq!(rt; read_super(&page), Some(geometry));
    page.set(8, 6);
    assert_eq!(rt; read_super(&page), None);
    page.set(8, 2);
    page.set(4095, 1);
    assert_eq!(rt; read_super(&page), None);
    Ok(())
}

#[test]
fn a_gate_is_open_where_its_first_byte_is_1(rt: HostRuntime) -> Result<(), NoMemory> {
    let mut page = Page::new(rt.alloc())?;
    for (is_open, byte) in [(true, 1), (false, 0)] {
        write_gate(&mut page, is_open);
        assert_eq!(rt; gate_open(&page), is_open);
        assert_eq!(rt; page.byte(0), byte);
    }
    page.fill_from(0, &[0xff; 4096]);
    assert!(rt; !gate_open(&page));
    assert_eq!(rt; selected(&page), 1);
    Ok(())
}
