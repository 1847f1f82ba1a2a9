use crate::end::{DrawEnd, TableEnd};
use crate::flaw::Flaw;
use crate::marks::Marks;
use crate::read::read_tables;
use crate::rings::{rings_of, rings_of_face};
use crate::run::run;
use std::alloc::Global;
use std::test::Fail;
use topo_io::{MemSink, MemSource};

/// A square, face 1, with an island that is closed by one edge, face 2; the island is a feature, and a feature of it.
const ISLAND: &[u8] = b"next 3 3 3 3 3
node 1 - 0 0
node 2 - 4 4
edge 1 1 1 1 -1 1 0 5 0 0 9 0 9 9 0 9 0 0
edge 2 2 2 2 -2 2 1 4 4 4 5 4 5 5 4 4
face 0 -
face 1 0 0 9 9
face 2 4 4 5 5
layer 1 0 - 3 isles
layer 2 1 1 3 groups
feature 1 1
feature 2 2
relation 1 1 2 3
relation 2 2 1 1
";

fn flaw_of(alloc: Global, text: &[u8]) -> Option<(u64, Flaw)> {
    match read_tables(alloc, text) {
        Err(TableEnd::BadLine { line, flaw }) => Some((line, flaw)),
        _ => None,
    }
}

#[test]
fn a_bad_line_is_named(rt: HostRuntime) {
    let alloc = rt.alloc();
    let texts = [
        (b"".as_slice(), 1, Flaw::NoNext),
        (b"node 1 - 0 0\n".as_slice(), 1, Flaw::NoNext),
        (b"next 1 1 1 1 1\n".as_slice(), 2, Flaw::NoFaceZero),
        (b"next 1 1 1 1 1\nface 0 -\n\n".as_slice(), 3, Flaw::Word),
        (b"next 1 1 1 1\n".as_slice(), 1, Flaw::Short),
        (b"next 1 1 1 1 1 1\n".as_slice(), 1, Flaw::Long),
        (
            b"next 2 1 1 1 1\nnode 1 - 0 1e3\n".as_slice(),
            2,
            Flaw::Number,
        ),
        (
            b"next 1 1 1 1 1\nface 0 -\nnode 1 - 0 0\n".as_slice(),
            3,
            Flaw::Order,
        ),
    ];
    for (text, line, flaw) in texts {
        assert!(&rt; flaw_of(alloc, text) == Some((line, flaw)), "at {line}");
    }
}

#[test]
fn rings_are_walked(rt: HostRuntime) -> Result<(), Fail> {
    let alloc = rt.alloc();
    let tables = read_tables(alloc, ISLAND)?;
    let rings = rings_of(alloc, &tables)?;
    assert_eq!(rt; rings.len(), 4);
    for (face, count) in [(0, 1), (1, 2), (2, 1), (3, 0)] {
        assert_eq!(rt; rings_of_face(&rings, face).len(), count);
    }
    Ok(())
}

#[test]
fn a_feature_descends(rt: HostRuntime) -> Result<(), Fail> {
    let alloc = rt.alloc();
    let tables = read_tables(alloc, ISLAND)?;
    for (name, owner) in [(b"isles".as_slice(), 1), (b"groups".as_slice(), 2)] {
        let layer = tables.layer_named(name).ok_or("no layer")?;
        let marks = Marks::of(alloc, &tables, layer.layer_id.0)?;
        assert!(&rt; marks.faces.as_slice() == [None, None, Some(owner)].as_slice());
        assert!(&rt; marks.edges.as_slice() == [None, None].as_slice());
    }
    Ok(())
}

#[test]
fn a_drawing_is_written_or_not(rt: HostRuntime) -> Result<(), Fail> {
    let alloc = rt.alloc();
    let words = Vec::new(alloc);
    let mut sink = MemSink::plain(alloc);
    let mut source = MemSource::plain(alloc, ISLAND.to_vec(alloc)?);
    assert!(&rt; run(alloc, &words, &mut source, &mut sink).is_ok());
    let written = sink.bytes().len();
    assert!(&rt; 1000 < written);
    let mut source = MemSource::plain(alloc, b"next".to_vec(alloc)?);
    assert!(&rt;
        matches!(
            run(alloc, &words, &mut source, &mut sink),
            Err(DrawEnd::Tables(_))
        )
    );
    assert_eq!(rt; sink.bytes().len(), written);
    Ok(())
}
