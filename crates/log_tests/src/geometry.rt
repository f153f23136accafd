use lt_format::Geometry;

#[test]
fn one_extent_and_one_slot_take_937_blocks(rt: HostRuntime) {
    let geometry = Geometry {
        levels: 2,
        slots: 1,
    };
    assert_eq!(rt; geometry.needed(1), 937);
    assert_eq!(rt; [geometry.area(0), geometry.area(1)], [2, 435]);
    assert_eq!(rt;
        [geometry.edit_gate(0, 0), geometry.edit_gate(1, 63)],
        [307, 866]
    );
    assert_eq!(rt;
        [geometry.log_gate(0, 0), geometry.log_gate(1, 0)],
        [868, 870]
    );
    assert_eq!(rt; geometry.extent(0), 872);
}

#[test]
fn the_largest_store_takes_4_262_756_blocks(rt: HostRuntime) {
    let geometry = Geometry {
        levels: 5,
        slots: 512,
    };
    assert_eq!(rt; geometry.needed(65_536), 4_262_756);
    assert_eq!(rt; geometry.log_gate(1, 511), 2914);
}
