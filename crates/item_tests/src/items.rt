use crate::checks::{check, same};
use lt_item::{ItemView, Kind, Rank, cost, parts_of, rank_less, read_item, write_item};
use std::test::Fail;

#[test]
fn parts_of_known_hashes(rt: HostRuntime) {
    let abc = parts_of(b"abc");
    same(
        &rt,
        abc.hash,
        *b"\xa9\x99\x3e\x36\x47\x06\x81\x6a\xba\x3e\x25\x71\x78\x50\xc2\x6c\x9c\xd0\xd8\x9d",
    );
    same(&rt, abc.digits, [5, 2, 3, 1]);
    same(&rt, abc.column, 15);
    same(&rt, abc.suffix, 1191608682);
    same(&rt, abc.positions, [62, 369, 80, 108, 208, 157]);

    let empty = parts_of(b"");
    same(
        &rt,
        empty.hash,
        *b"\xda\x39\xa3\xee\x5e\x6b\x4b\x0d\x32\x55\xbf\xef\x95\x60\x18\x90\xaf\xd8\x07\x09",
    );
    same(&rt, empty.digits, [6, 6, 4, 3]);
    same(&rt, empty.column, 40);
    same(&rt, empty.suffix, 1584089869);
    same(&rt, empty.positions, [85, 495, 352, 144, 472, 265]);
}

#[test]
fn ranks_by_suffix(rt: HostRuntime) {
    let abc = parts_of(b"abc");
    let empty = parts_of(b"");
    check(&rt, Rank::of(b"abc", &abc) < Rank::of(b"", &empty));
    check(&rt, Rank::of(b"", &empty) > Rank::of(b"abc", &abc));
    check(&rt, Rank::of(b"abc", &abc) == Rank::of(b"abc", &abc));
    check(&rt, rank_less(&abc, b"abc", &empty, b""));
    check(&rt, !rank_less(&empty, b"", &abc, b"abc"));
    check(&rt, !rank_less(&abc, b"abc", &abc, b"abc"));
}

#[test]
fn spelled_and_read_again(rt: HostRuntime) {
    let put = ItemView {
        kind: Kind::Put,
        key: b"k",
        value: b"v",
    };
    let delete = ItemView {
        kind: Kind::Delete,
        key: b"k",
        value: b"",
    };
    check(&rt, put.is_valid());
    check(&rt, delete.is_valid());
    same(&rt, cost(&put), 6);
    same(&rt, cost(&delete), 5);

    let mut bytes = [0xff; 13];
    let behind = write_item(&mut bytes, 1, &put);
    same(&rt, behind, 7);
    same(&rt, write_item(&mut bytes, 7, &delete), 12);
    same(&rt, bytes, *b"\xff\x01\x01\x00\x01kv\x02\x01\x00\x00k\xff");
    same(&rt, read_item(&bytes, 1), Some((put, 7)));
    same(&rt, read_item(&bytes, 7), Some((delete, 12)));
}

#[test]
fn no_item_is_spelled(rt: HostRuntime) {
    let refused: [&[u8]; 8] = [
        b"",
        b"\x01\x01\x00",
        b"\x00\x01\x00\x01kv",
        b"\x03\x01\x00\x01kv",
        b"\x01\x00\x00\x01v",
        b"\x01\x01\x00\x02kv",
        b"\x02\x01\x00\x01kv",
        b"\x01\x02\x00\x00k",
    ];
    for bytes in refused {
        same(&rt, (bytes, read_item(bytes, 0)), (bytes, None));
    }
    check(&rt, read_item(b"\x01\x01\x00\x00k", 1).is_none());
    check(&rt, read_item(b"\x01\x01\x00\x00k", 6).is_none());
}

#[test]
fn valid_within_the_limits(rt: HostRuntime) -> Result<(), Fail> {
    let bytes = [b'x'; 3001];
    let rows = [
        (Kind::Put, 0, 0, false),
        (Kind::Put, 1, 0, true),
        (Kind::Put, 255, 3000, true),
        (Kind::Put, 256, 0, false),
        (Kind::Put, 1, 3001, false),
        (Kind::Delete, 255, 0, true),
        (Kind::Delete, 1, 1, false),
    ];
    for (kind, key_len, value_len, valid) in rows {
        let key = bytes.get(..key_len).ok_or("too long a key")?;
        let value = bytes.get(..value_len).ok_or("too long a value")?;
        let item = ItemView { kind, key, value };
        same(
            &rt,
            (key_len, value_len, item.is_valid()),
            (key_len, value_len, valid),
        );
    }
    Ok(())
}
