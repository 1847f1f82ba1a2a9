use crate::{CodecEnd, decode, encode, framed};
use std::alloc::Global;
use std::test::Fail;
use topo_base::{Edit, Entry, NodeId};

/// The body of `addisonode - 0 0`, made by editor 1.
const NODE: [u8; 22] = [
    0, 0, 0, 1, 1, 0, 0, 0, 0, 0, 0, 0, 0, 0, 0, 0, 0, 0, 0, 0, 0, 0,
];

/// Whether the bytes begin with no entry.
fn is_none(alloc: Global, bytes: &[u8]) -> bool {
    matches!(decode(alloc, bytes), Err(CodecEnd::NoEntry))
}

fn are_none(alloc: Global, rows: &[&[u8]]) -> bool {
    for bytes in rows {
        if !is_none(alloc, bytes) {
            return false;
        }
    }
    true
}

/// Whether the bytes, with two others behind them, begin with an entry that has all of them, and are
/// its spelling.
fn is_entry(alloc: Global, bytes: &[u8]) -> Result<bool, Fail> {
    let mut longer = Vec::from_slice(alloc, bytes)?;
    longer.push(1)?;
    longer.push(0)?;
    match decode(alloc, &longer) {
        Ok((entry, size)) => {
            let again = encode(alloc, &entry)?;
            Ok(size == bytes.len() && again.as_slice() == bytes)
        }
        Err(_) => Ok(false),
    }
}

fn are_entries(alloc: Global, rows: &[&[u8]]) -> Result<bool, Fail> {
    for bytes in rows {
        if !is_entry(alloc, bytes)? {
            return Ok(false);
        }
    }
    Ok(true)
}

/// Whether it is a node at the origin, in any face, that editor 1 adds.
fn is_origin(entry: &Entry) -> bool {
    match &entry.edit {
        Edit::AddIsoNode { face, geom } => {
            entry.editor == 1 && face.is_none() && geom.x() == 0 && geom.y() == 0
        }
        _ => false,
    }
}

#[test]
fn a_node_at_the_origin(rt: HostRuntime) -> Result<(), Fail> {
    let (entry, size) = decode(rt.alloc(), &NODE)?;
    assert!(rt; size == 22 && is_origin(&entry));
    Ok(())
}

#[test]
fn a_body_that_is_cut_short_is_no_entry(rt: HostRuntime) {
    for size in 0..22 {
        assert!(rt; is_none(rt.alloc(), &NODE[..size]), "{size} bytes");
    }
}

#[test]
fn a_frame_has_its_length_and_a_closed_gate(rt: HostRuntime) -> Result<(), Fail> {
    let edit = Edit::RemoveIsoNode { node: NodeId(7) };
    let frame = framed(rt.alloc(), &Entry { editor: 1, edit })?;
    assert_eq!(rt;
        frame.as_slice(),
        [0, 0, 0, 9, 0, 0, 0, 1, 3, 0, 0, 0, 7, 0].as_slice()
    );
    Ok(())
}

/// A line of so many vertices from node 1 to node 1, all at the origin.
fn line_of(alloc: Global, high: u8, low: u8) -> Result<Vec<u8>, Fail> {
    let mut bytes = Vec::from_slice(alloc, b"\0\0\0\x01\x04\0\0\0\x01\0\0\0\x01\0\0".as_slice())?;
    bytes.push(high)?;
    bytes.push(low)?;
    for _ in 0..16 * (256 * high as usize + low as usize) {
        bytes.push(0)?;
    }
    Ok(bytes)
}

#[test]
fn a_line_has_at_most_4096_vertices(rt: HostRuntime) -> Result<(), Fail> {
    let longest = line_of(rt.alloc(), 16, 0)?;
    let longer = line_of(rt.alloc(), 16, 1)?;
    assert!(rt; is_entry(rt.alloc(), &longest)? && is_none(rt.alloc(), &longer));
    Ok(())
}

#[test]
fn each_edit_is_read_and_written(rt: HostRuntime) -> Result<(), Fail> {
    let rows: [&[u8]; 20] = [
        b"\0\0\0\x40\x01\x01\0\0\0\x03\xff\xff\xff\xff\xff\xff\xff\xff\0\0\0\0\0\0\0\x05",
        b"\0\0\0\x01\x02\0\0\0\x07\0\0\x01\0\0\0\0\0\xff\xff\xff\0\0\0\0\0",
        b"\0\0\0\x01\x03\xff\xff\xff\xff",
        b"\0\0\0\x02\x04\0\0\0\x01\0\0\0\x02\0\0\0\x02\xff\xff\xff\xff\xff\xff\xff\xff\0\0\x01\0\0\0\0\0\0\0\0\0\0\0\0\0\xff\xff\xff\0\0\0\0\0",
        b"\0\0\0\x01\x05\0\0\0\x04",
        b"\0\0\0\x01\x06\0\0\0\x03\0\0\0\x03\0\0\0\x02\xff\xff\xff\xff\xff\xff\xff\xff\0\0\x01\0\0\0\0\0\0\0\0\0\0\0\0\0\xff\xff\xff\0\0\0\0\0",
        b"\0\0\0\x01\x07\0\0\0\x03\0\0\0\x05\0\0\0\x02\xff\xff\xff\xff\xff\xff\xff\xff\0\0\x01\0\0\0\0\0\0\0\0\0\0\0\0\0\xff\xff\xff\0\0\0\0\0",
        b"\0\0\0\x01\x08\0\0\0\x09",
        b"\0\0\0\x01\x09\0\0\0\x09",
        b"\0\0\0\x01\x0a\0\0\0\x02\0\0\0\0\0\0\0\0\0\0\0\0\0\0\0\x01",
        b"\0\0\0\x01\x0b\0\0\0\x02\0\0\0\0\0\0\0\x01\0\0\0\0\0\0\0\0",
        b"\0\0\0\x01\x0c\0\0\0\x01\0\0\0\x02",
        b"\0\0\0\x01\x0d\0\0\0\x02\0\0\0\x01",
        b"\0\0\0\x01\x0e\x05roads\x02\0",
        b"\0\0\0\x01\x0f\0\0\0\x01\0\0\0\x02\0\0\0\x04\0\0\0\x02\0\0\0\x05\0\0\0\x02",
        b"\0\0\0\x01\x10\0\0\0\x01\0\0\0\x04\0\0\0\x02",
        b"\0\0\0\x01\x11\0\0\0\x01\0\0\0\x04\0\0\0\x02",
        b"\0\0\0\x01\x12\0\0\0\x06",
        b"\0\0\0\x01\x0e\x01a\x03\x01\0\0\0\x01",
        b"\0\0\0\x01\x0f\0\0\0\x01\0\0\0\0",
    ];
    assert!(rt; are_entries(rt.alloc(), rows.as_slice())?);
    Ok(())
}

#[test]
fn other_bytes_are_no_entry(rt: HostRuntime) {
    let rows: [&[u8]; 13] = [
        // the tag 0
        b"\0\0\0\x01\0\0\0\0\x07",
        // the tag 19
        b"\0\0\0\x01\x13\0\0\0\x07",
        // a line of one vertex
        b"\0\0\0\x01\x04\0\0\0\x01\0\0\0\x02\0\0\0\x01\0\0\0\0\0\0\0\0\0\0\0\0\0\0\0\0",
        // x past 2^40
        b"\0\0\0\x01\x02\0\0\0\x07\0\0\x01\0\0\0\0\x01\0\0\0\0\0\0\0\0",
        // y below -2^40
        b"\0\0\0\x01\x02\0\0\0\x07\0\0\0\0\0\0\0\0\xff\xff\xfe\xff\xff\xff\xff\xff",
        // the option byte 2
        b"\0\0\0\x01\x01\x02\0\0\0\x01\0\0\0\0\0\0\0\0\0\0\0\0\0\0\0\0",
        // the type 0
        b"\0\0\0\x01\x0e\x01a\0\0",
        // the type 4
        b"\0\0\0\x01\x0e\x01a\x04\0",
        // editor 0
        b"\0\0\0\0\x03\0\0\0\x07",
        // editor 65
        b"\0\0\0\x41\x03\0\0\0\x07",
        // an empty name
        b"\0\0\0\x01\x0e\0\x01\0",
        // a capital letter
        b"\0\0\0\x01\x0e\x01A\x01\0",
        // a name of 64 bytes
        b"\0\0\0\x01\x0e\x40aaaaaaaaaaaaaaaaaaaaaaaaaaaaaaaaaaaaaaaaaaaaaaaaaaaaaaaaaaaaaaaa\x01\0",
    ];
    assert!(rt; are_none(rt.alloc(), rows.as_slice()));
}
