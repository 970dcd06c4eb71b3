use rg_base::field::{get_u16, get_u32, get_u64, put_u16, put_u32, put_u64};
use rg_base::no_memory::NoMemory;
use rg_base::number::read_number;
use rg_base::row::Row;
use rg_base::row_bytes::{read_row, write_row};
use rg_base::text::{Text, is_dashes};
use std::alloc::Global;
use std::test::Fail;

#[test]
fn says_what_was_wanting(rt: HostRuntime) -> Result<(), Fail> {
    let text = format!(in rt.alloc(); "{NoMemory}")?;
    assert_eq!(rt; text.as_str(), "out of memory");
    Ok(())
}

#[test]
fn tells_dashes(rt: HostRuntime) {
    for (bytes, want) in [
        (b"".as_slice(), true),
        (b"-".as_slice(), true),
        (b"--".as_slice(), true),
        (b"-a".as_slice(), false),
        (b"a-".as_slice(), false),
    ] {
        assert_eq!(rt; is_dashes(bytes), want);
    }
}

#[test]
fn reads_numbers(rt: HostRuntime) {
    for (word, want) in [
        ("0", Some(0)),
        ("7", Some(7)),
        ("10", Some(10)),
        ("18446744073709551615", Some(u64::MAX)),
        ("18446744073709551616", None),
        ("", None),
        ("00", None),
        ("07", None),
        ("+7", None),
        ("-7", None),
        ("7 ", None),
        ("7a", None),
    ] {
        assert_eq!(rt; read_number(word), want, "at {word:?}");
    }
}

// Key 5, clus 50, cat 1 and the text abc.
const FIRST: [u8; 29] = [
    0, 0, 0, 0, 0, 0, 0, 5, 0, 0, 0, 0, 0, 0, 0, 50, 0, 0, 0, 0, 0, 0, 0, 1, 0, 3, 97, 98, 99,
];

// 24 bytes, all of them the same, a length, and so many letters before the last bytes.
fn bytes_of(
    alloc: Global,
    head: u8,
    length: u16,
    letters: usize,
    last: &[u8],
) -> Result<Vec<u8>, Fail> {
    let mut bytes = Vec::new(alloc);
    bytes.extend_from_slice(&[head; 24])?;
    bytes.extend_from_slice(&length.to_be_bytes())?;
    for _ in 0..letters {
        bytes.push(b'~')?;
    }
    bytes.extend_from_slice(last)?;
    Ok(bytes)
}

#[test]
fn spells_rows(rt: HostRuntime) -> Result<(), Fail> {
    let row = read_row(rt.alloc(), &FIRST)?;
    assert_eq!(rt; (row.key, row.clus, row.cat, row.size()), (5, 50, 1, 29));
    assert_eq!(rt; row.text.as_slice(), b"abc".as_slice());
    let spelled = Row {
        key: 5,
        clus: 50,
        cat: 1,
        text: Text::new(b"abc".to_vec(rt.alloc())?),
    };
    assert_eq!(rt;
        write_row(rt.alloc(), &spelled)?.as_slice(),
        FIRST.as_slice()
    );
    let mut room = [7; 31];
    spelled.write_into(&mut room);
    assert_eq!(rt; room.as_slice().get(..29), Some(FIRST.as_slice()));
    assert_eq!(rt; (room[29], room[30]), (7, 7));
    Ok(())
}

#[test]
fn spells_longest_rows(rt: HostRuntime) -> Result<(), Fail> {
    let bytes = bytes_of(rt.alloc(), 255, 800, 800, &[])?;
    let row = read_row(rt.alloc(), &bytes)?;
    assert_eq!(rt;
        (row.key, row.clus, row.cat),
        (u64::MAX, u64::MAX, u64::MAX)
    );
    assert_eq!(rt; (row.size(), row.text.as_slice().len()), (826, 800));
    assert_eq!(rt; write_row(rt.alloc(), &row)?.as_slice(), bytes.as_slice());
    let bytes = bytes_of(rt.alloc(), 0, 0, 0, &[])?;
    let row = read_row(rt.alloc(), &bytes)?;
    assert_eq!(rt; (row.key, row.clus, row.cat, row.size()), (0, 0, 0, 26));
    assert_eq!(rt; write_row(rt.alloc(), &row)?.as_slice(), bytes.as_slice());
    Ok(())
}

#[test]
fn refuses_rows(rt: HostRuntime) -> Result<(), Fail> {
    let length = "a wrong length of the text";
    for (field, letters, last, want) in [
        (0, 0, b"".as_slice(), "a row"),
        (2, 0, b"!~".as_slice(), "a row"),
        (0, 0, b"a".as_slice(), length),
        (1, 0, b"".as_slice(), length),
        (3, 2, b"".as_slice(), length),
        (3, 4, b"".as_slice(), length),
        (800, 801, b"".as_slice(), length),
        (801, 801, b"".as_slice(), length),
        (801, 1, b"".as_slice(), length),
        (256, 1, b"".as_slice(), length),
        (2, 0, b" ".as_slice(), length),
        (1, 0, b" ".as_slice(), "byte 26 is no byte of a text"),
        (1, 0, b"\x7f".as_slice(), "byte 26 is no byte of a text"),
        (2, 0, b"!\x7f".as_slice(), "byte 27 is no byte of a text"),
        (4, 1, b"! ~".as_slice(), "byte 28 is no byte of a text"),
        (3, 0, b"~\x7f ".as_slice(), "byte 27 is no byte of a text"),
        (3, 2, b"\xff".as_slice(), "byte 28 is no byte of a text"),
        (
            800,
            799,
            b"\x00".as_slice(),
            "byte 825 is no byte of a text",
        ),
    ] {
        let bytes = bytes_of(rt.alloc(), 1, field, letters, last)?;
        let said = match read_row(rt.alloc(), &bytes) {
            Ok(_) => format!(in rt.alloc(); "a row")?,
            Err(fault) => format!(in rt.alloc(); "{fault}")?,
        };
        assert_eq!(rt; said.as_str(), want, "{field}, {letters} and {last:?}");
    }
    for count in [0, 1, 24, 25] {
        let bytes = vec![in rt.alloc(); 0u8; count]?;
        match read_row(rt.alloc(), &bytes) {
            Ok(_) => assert!(rt; false, "{count} bytes"),
            Err(fault) => {
                let said = format!(in rt.alloc(); "{fault}")?;
                assert_eq!(rt; said.as_str(), "fewer than 26 bytes", "{count} bytes");
            }
        }
    }
    Ok(())
}

#[test]
fn puts_fields(rt: HostRuntime) {
    let mut bytes = [9; 16];
    put_u16(&mut bytes, 1, 0x0102);
    put_u32(&mut bytes, 3, 0x03040506);
    put_u64(&mut bytes, 7, 0x0708090a0b0c0d0e);
    assert_eq!(rt;
        bytes,
        [9, 1, 2, 3, 4, 5, 6, 7, 8, 9, 10, 11, 12, 13, 14, 9]
    );
    assert_eq!(rt; get_u16(&bytes, 14), 0x0e09);
    assert_eq!(rt; get_u32(&bytes, 1), 0x01020304);
    assert_eq!(rt; get_u64(&bytes, 2), 0x0203040506070809);
}
