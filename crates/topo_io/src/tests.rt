use crate::{
    MemSink, MemSource, ReadEnd, Source, number, push_count, push_number, read_all, write_all,
};
use std::test::Fail;
use topo_base::Text;

const TEXT: &[u8] = b"addedge 1 2 0 0 5 5\n";

#[test]
fn a_source_is_read_whole(rt: HostRuntime) -> Result<(), Fail> {
    let alloc = rt.alloc();
    for cap in [20, 21, 1 << 40] {
        let mut short = MemSource::of(alloc, TEXT.to_vec(alloc)?, Vec::new(alloc));
        let mut plain = MemSource::plain(alloc, TEXT.to_vec(alloc)?);
        assert_eq!(rt; read_all(alloc, &mut short, cap)?.as_slice(), TEXT);
        assert_eq!(rt; read_all(alloc, &mut plain, cap)?.as_slice(), TEXT);
    }
    let mut long = MemSource::plain(alloc, vec![in alloc; 7; 10_000]?);
    assert_eq!(rt; read_all(alloc, &mut long, 10_000)?.len(), 10_000);
    Ok(())
}

#[test]
fn a_source_may_be_too_long(rt: HostRuntime) -> Result<(), Fail> {
    let alloc = rt.alloc();
    for cap in [0, 1, 18, 19] {
        let mut short = MemSource::of(alloc, TEXT.to_vec(alloc)?, Vec::new(alloc));
        let mut plain = MemSource::plain(alloc, TEXT.to_vec(alloc)?);
        assert!(rt; matches!(read_all(alloc, &mut short, cap), Err(ReadEnd::TooLong)));
        assert!(rt; matches!(read_all(alloc, &mut plain, cap), Err(ReadEnd::TooLong)));
    }
    let mut empty = MemSource::plain(alloc, Vec::new(alloc));
    assert!(rt; read_all(alloc, &mut empty, 0)?.is_empty());
    Ok(())
}

#[test]
fn a_listed_read_fails(rt: HostRuntime) -> Result<(), Fail> {
    let alloc = rt.alloc();
    // The pieces are of 1, 2 and 3 bytes in turn, so the twelfth call sees the end.
    for call in 1..13 {
        let mut source = MemSource::of(alloc, TEXT.to_vec(alloc)?, vec![in alloc; call]?);
        assert!(rt;
            matches!(read_all(alloc, &mut source, 100), Err(ReadEnd::Fault)),
            "at {call}"
        );
    }
    let mut source = MemSource::of(alloc, TEXT.to_vec(alloc)?, vec![in alloc; 13]?);
    assert_eq!(rt; read_all(alloc, &mut source, 100)?.as_slice(), TEXT);
    Ok(())
}

#[test]
fn a_failed_read_takes_nothing(rt: HostRuntime) -> Result<(), Fail> {
    let alloc = rt.alloc();
    let mut source = MemSource::of(alloc, TEXT.to_vec(alloc)?, vec![in alloc; 2]?);
    let mut into = [0; 8];
    let mut got = Vec::new(alloc);
    for call in 1..5 {
        match source.read(&mut into) {
            Ok(count) => got.extend_from_slice(&into[..count])?,
            Err(_) => assert_eq!(rt; call, 2),
        }
    }
    assert_eq!(rt; got.as_slice(), b"added".as_slice());
    Ok(())
}

#[test]
fn a_listed_write_leaves_a_front(rt: HostRuntime) -> Result<(), Fail> {
    let alloc = rt.alloc();
    let mut plain = MemSink::plain(alloc);
    let mut short = MemSink::of(alloc, Vec::new(alloc));
    assert!(rt; write_all(&mut plain, TEXT).is_ok());
    assert!(rt; write_all(&mut short, TEXT).is_ok());
    assert!(rt; write_all(&mut short, b"").is_ok());
    assert_eq!(rt; plain.bytes(), TEXT);
    assert_eq!(rt; short.bytes(), TEXT);
    let fronts = [(1, 0), (2, 1), (3, 3), (4, 6), (5, 7), (10, 18)];
    for (call, length) in fronts {
        let mut sink = MemSink::of(alloc, vec![in alloc; call]?);
        assert!(rt; write_all(&mut sink, TEXT).is_err());
        assert_eq!(rt; sink.bytes(), &TEXT[..length], "at {call}");
    }
    Ok(())
}

#[test]
fn numbers_are_strict(rt: HostRuntime) -> Result<(), Fail> {
    let rows = [
        ("0", Some(0)),
        ("-1", Some(-1)),
        ("1099511627776", Some(1 << 40)),
        ("9223372036854775807", Some(i64::MAX)),
        ("-9223372036854775808", Some(i64::MIN)),
        ("9223372036854775808", None),
        ("-9223372036854775809", None),
        ("-0", None),
        ("+1", None),
        ("01", None),
        ("", None),
        ("-", None),
        (" 1", None),
        ("1a", None),
    ];
    for (text, want) in rows {
        assert_eq!(rt; number(text.as_bytes()), want, "at {text:?}");
    }
    assert_eq!(rt; number(b"\xff"), None);
    Ok(())
}

#[test]
fn numbers_are_printed(rt: HostRuntime) -> Result<(), Fail> {
    let mut text = Text::new(rt.alloc());
    push_number(&mut text, i64::MIN)?;
    text.push(b' ')?;
    push_number(&mut text, 40)?;
    text.push(b' ')?;
    push_count(&mut text, u64::MAX)?;
    text.push(b' ')?;
    push_count(&mut text, 0)?;
    assert_eq!(rt;
        text.as_bytes(),
        b"-9223372036854775808 40 18446744073709551615 0".as_slice()
    );
    Ok(())
}
