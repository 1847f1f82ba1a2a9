//! Printed tables that read back as the rows, and printed features that list features.

ghost use Rattle.std.specs.Prelude.{◌≡◌, ◌<◌, ◌∷◌, ◌++◌, [], Some, None, OnOk, true, false};

use crate::reader::{Lines, Unread};
use crate::{features_text, tables_text};
use std::alloc::Global;
use std::marker::Brand;
use std::process::Abort;
use std::sync::ledger::{Blank, Ledger};
use std::test::Fail;
use topo_base::{
    Box4, FaceId, FaceRow, Grid, Hand, Kind, Line, Memory, Name, RowDart, RowId, RowWrite, Steps,
};
use topo_tables::{Tables, Writes};

fn grid(rt: &impl Abort, x: i64, y: i64) -> Grid {
    Grid::of(x, y).expect(rt, "off the grid")
}

fn line(rt: &impl Abort, alloc: Global, points: &[(i64, i64)]) -> Result<Line, Fail> {
    let mut vertices = Vec::new(alloc);
    for (x, y) in points {
        vertices.push(grid(rt, *x, *y))?;
    }
    Ok(Line::of(vertices).expect(rt, "too few vertices"))
}

fn name_of(rt: &impl Abort, alloc: Global, bytes: &[u8]) -> Result<Name, Fail> {
    Ok(Name::of(Vec::from_slice(alloc, bytes)?).expect(rt, "no name"))
}

/// A node in face 0.
fn island(node: u32, geom: Grid) -> RowWrite
    ensures { result ≡ RowWrite.AddNode (RowId.Old node) (Some (RowId.Old 0)) geom }
{
    RowWrite::AddNode {
        node: RowId::Old(node),
        face: Some(RowId::Old(0)),
        geom,
    }
}

/// A node with edges.
fn crossing(node: u32, geom: Grid) -> RowWrite
    ensures { result ≡ RowWrite.AddNode (RowId.Old node) None geom }
{
    RowWrite::AddNode {
        node: RowId::Old(node),
        face: None,
        geom,
    }
}

/// Four nodes come, and the first goes.
fn push_nodes(writes: &mut Writes, apart: Grid, middle: Grid, far: Grid) -> Result<(), Memory>
    ensures { OnOk result (writes.new ≡ writes.old ++ RowWrite.AddNode (RowId.Old 1) (Some (RowId.Old 0)) middle
        ∷ RowWrite.DropNode (RowId.Old 1) ∷ RowWrite.AddNode (RowId.Old 2) (Some (RowId.Old 0)) apart
        ∷ RowWrite.AddNode (RowId.Old 3) None middle ∷ RowWrite.AddNode (RowId.Old 4) None far ∷ []) }
{
    writes.push(island(1, middle))?;
    writes.push(RowWrite::DropNode {
        node: RowId::Old(1),
    })?;
    writes.push(island(2, apart))?;
    writes.push(crossing(3, middle))?;
    writes.push(crossing(4, far))
}

fn dart(edge: u32, forward: bool) -> RowDart
    ensures { result ≡ record { edge = RowId.Old edge; forward = forward } }
{
    RowDart {
        edge: RowId::Old(edge),
        forward,
    }
}

/// A closed edge at node 3, with face 1 within it, comes.
fn push_ring(writes: &mut Writes, mbr: Box4, geom: Line) -> Result<(), Memory>
    ensures { OnOk result (writes.new ≡ writes.old ++ RowWrite.AddFace (RowId.Old 1) (Some mbr)
        ∷ RowWrite.AddEdge (RowId.Old 1) (RowId.Old 3) (RowId.Old 3) (record { edge = RowId.Old 1; forward = true }) (record { edge = RowId.Old 1; forward = false })
        (RowId.Old 1) (RowId.Old 0) geom ∷ []) }
{
    writes.push(RowWrite::AddFace {
        face: RowId::Old(1),
        mbr: Some(mbr),
    })?;
    writes.push(RowWrite::AddEdge {
        edge: RowId::Old(1),
        start: RowId::Old(3),
        end: RowId::Old(3),
        next_left: dart(1, true),
        next_right: dart(1, false),
        left: RowId::Old(1),
        right: RowId::Old(0),
        geom,
    })
}

/// An edge from node 3 to node 4, in face 0, comes.
fn push_way(writes: &mut Writes, geom: Line) -> Result<(), Memory>
    ensures { OnOk result (writes.new ≡ writes.old ++ RowWrite.AddEdge (RowId.Old 2) (RowId.Old 3) (RowId.Old 4)
        (record { edge = RowId.Old 2; forward = false }) (record { edge = RowId.Old 1; forward = false }) (RowId.Old 0) (RowId.Old 0) geom
        ∷ RowWrite.SetNext (RowId.Old 1) Hand.Right (record { edge = RowId.Old 2; forward = true }) ∷ []) }
{
    writes.push(RowWrite::AddEdge {
        edge: RowId::Old(2),
        start: RowId::Old(3),
        end: RowId::Old(4),
        next_left: dart(2, false),
        next_right: dart(1, false),
        left: RowId::Old(0),
        right: RowId::Old(0),
        geom,
    })?;
    writes.push(RowWrite::SetNext {
        edge: RowId::Old(1),
        hand: Hand::Right,
        next: dart(2, true),
    })
}

/// A layer of nodes, and one upon it.
fn push_layers(writes: &mut Writes, lower: Name, upper: Name) -> Result<(), Memory>
    ensures { OnOk result (writes.new ≡ writes.old ++ RowWrite.AddLayer (RowId.Old 1) 0 None Kind.Puntal lower
        ∷ RowWrite.AddLayer (RowId.Old 2) 1 (Some (RowId.Old 1)) Kind.Puntal upper ∷ []) }
{
    writes.push(RowWrite::AddLayer {
        layer: RowId::Old(1),
        level: 0,
        child: None,
        kind: Kind::Puntal,
        name: lower,
    })?;
    writes.push(RowWrite::AddLayer {
        layer: RowId::Old(2),
        level: 1,
        child: Some(RowId::Old(1)),
        kind: Kind::Puntal,
        name: upper,
    })
}

fn feature_comes(feature: u32, layer: u32) -> RowWrite
    ensures { result ≡ RowWrite.AddFeature (RowId.Old feature) (RowId.Old layer) }
{
    RowWrite::AddFeature {
        feature: RowId::Old(feature),
        layer: RowId::Old(layer),
    }
}

/// Two features of the lower layer, and one of the upper.
fn push_features(writes: &mut Writes) -> Result<(), Memory>
    ensures { OnOk result (writes.new ≡ writes.old ++ RowWrite.AddFeature (RowId.Old 1) (RowId.Old 1) ∷ RowWrite.AddFeature (RowId.Old 2) (RowId.Old 1)
        ∷ RowWrite.AddFeature (RowId.Old 3) (RowId.Old 2) ∷ []) }
{
    writes.push(feature_comes(1, 1))?;
    writes.push(feature_comes(2, 1))?;
    writes.push(feature_comes(3, 2))
}

fn row_comes(feature: u32, layer: u32, element: u32) -> RowWrite
    ensures { result ≡ RowWrite.AddRow (RowId.Old feature) (RowId.Old layer) (RowId.Old element) 1 }
{
    RowWrite::AddRow {
        feature: RowId::Old(feature),
        layer: RowId::Old(layer),
        element: RowId::Old(element),
        element_type: 1,
    }
}

/// The rows of the lower features.
fn push_lower(writes: &mut Writes) -> Result<(), Memory>
    ensures { OnOk result (writes.new ≡ writes.old ++ RowWrite.AddRow (RowId.Old 1) (RowId.Old 1) (RowId.Old 4) 1
        ∷ RowWrite.AddRow (RowId.Old 2) (RowId.Old 1) (RowId.Old 2) 1 ∷ RowWrite.AddRow (RowId.Old 2) (RowId.Old 1) (RowId.Old 4) 1 ∷ []) }
{
    writes.push(row_comes(1, 1, 4))?;
    writes.push(row_comes(2, 1, 2))?;
    writes.push(row_comes(2, 1, 4))
}

/// The rows of the upper feature.
fn push_upper(writes: &mut Writes) -> Result<(), Memory>
    ensures { OnOk result (writes.new ≡ writes.old ++ RowWrite.AddRow (RowId.Old 3) (RowId.Old 2) (RowId.Old 1) 1
        ∷ RowWrite.AddRow (RowId.Old 3) (RowId.Old 2) (RowId.Old 2) 1 ∷ []) }
{
    writes.push(row_comes(3, 2, 1))?;
    writes.push(row_comes(3, 2, 2))
}

/// The points and lines of a town.
#[derive(Drop)]
struct Places {
    apart: Grid,
    middle: Grid,
    far: Grid,
    mbr: Box4,
    ring: Line,
    way: Line,
}

/// The names of its layers.
#[derive(Drop)]
struct Names {
    lower: Name,
    upper: Name,
}

fn places_of_town(rt: &impl Abort, alloc: Global) -> Result<Places, Fail> {
    Ok(Places {
        apart: grid(rt, -9, 1 << 40),
        middle: grid(rt, 0, 0),
        far: grid(rt, 5, 0),
        mbr: Box4 {
            min_x: -4,
            min_y: 0,
            max_x: 0,
            max_y: 4,
        },
        ring: line(rt, alloc, [(0, 0), (0, 4), (-4, 4), (0, 0)].as_slice())?,
        way: line(rt, alloc, [(0, 0), (2, -1), (5, 0)].as_slice())?,
    })
}

fn names_of_layers(rt: &impl Abort, alloc: Global) -> Result<Names, Fail> {
    Ok(Names {
        lower: name_of(rt, alloc, b"stops".as_slice())?,
        upper: name_of(rt, alloc, b"lines_2".as_slice())?,
    })
}

/// The tables of the town.
fn town<L: Ledger>(
    alloc: Global,
    places: Places,
    names: Names,
    steps: &mut Steps<L>,
) -> Result<Tables, Memory> {
    let mut writes = Writes::new(alloc);
    push_nodes(&mut writes, places.apart, places.middle, places.far)?;
    push_ring(&mut writes, places.mbr, places.ring)?;
    push_way(&mut writes, places.way)?;
    push_layers(&mut writes, names.lower, names.upper)?;
    push_features(&mut writes)?;
    push_lower(&mut writes)?;
    push_upper(&mut writes)?;
    let mut tables = Tables::empty(alloc);
    tables.reserve(&writes)?;
    tables.write_all(writes, steps);
    Ok(tables)
}

/// Face 0, and behind it the other faces.
fn are_faces(alloc: Global, lines: &mut Lines<'_>, tables: &Tables) -> Result<bool, Unread> {
    let universe = FaceRow {
        face_id: FaceId(0),
        mbr: None,
    };
    Ok(lines.is_row(alloc, &universe)? && lines.are_rows(alloc, tables.faces())?)
}

/// Whether the next lines are those of the next ids, the nodes, the edges and the faces.
fn is_drawing(alloc: Global, lines: &mut Lines<'_>, tables: &Tables) -> Result<bool, Unread> {
    Ok(
        lines.is_row(alloc, &tables.counters())?
            && lines.are_rows(alloc, tables.nodes())?
            && lines.are_rows(alloc, tables.edges())?
            && are_faces(alloc, lines, tables)?,
    )
}

fn are_relations(alloc: Global, lines: &mut Lines<'_>, tables: &Tables) -> Result<bool, Unread> {
    for row in tables.relations() {
        if !lines.is_row(alloc, row)? {
            return Ok(false);
        }
    }
    Ok(true)
}

/// Whether the next lines are those of the layers, the features and the relation rows.
fn is_tree(alloc: Global, lines: &mut Lines<'_>, tables: &Tables) -> Result<bool, Unread> {
    Ok(
        lines.are_rows(alloc, tables.layers())?
            && lines.are_rows(alloc, tables.features())?
            && are_relations(alloc, lines, tables)?,
    )
}

fn reads_back(rt: &impl Abort, alloc: Global, tables: &Tables) -> Result<(), Fail> {
    let text = tables_text(alloc, tables)?;
    let mut lines = Lines::of(text.as_bytes());
    assert!(rt; is_drawing(alloc, &mut lines, tables)?);
    assert!(rt; is_tree(alloc, &mut lines, tables)?);
    assert!(rt; lines.is_end());
    Ok(())
}

fn rows_read_back<L: Ledger>(rt: &impl Abort, alloc: Global, blank: Blank) -> Result<(), Fail>
    requires name { blank.name ≡ L.name }
    requires parts { blank.parts ≡ L.parts }
    requires some { 0 < blank.parts }
{
    let mut steps = Steps::<L>::new(blank);
    let places = places_of_town(rt, alloc)?;
    let tables = town(alloc, places, names_of_layers(rt, alloc)?, &mut steps)?;
    reads_back(rt, alloc, &tables)
}

/// Each printed line is read back as the row of its place, and no line is left over.
#[test]
fn tables_read_back(rt: HostRuntime) -> Result<(), Fail> {
    rows_read_back::<Brand>(&rt, rt.alloc(), Blank::new(1))
}

const FEATURES: &[u8] = b"feature 1 1 1 1 4\nfeature 2 1 1 2 2 4\nfeature 3 2 1 2 2 4\n";

fn features_are_printed<L: Ledger>(rt: &impl Abort, alloc: Global, blank: Blank) -> Result<(), Fail>
    requires name { blank.name ≡ L.name }
    requires parts { blank.parts ≡ L.parts }
    requires some { 0 < blank.parts }
{
    let mut steps = Steps::<L>::new(blank);
    let places = places_of_town(rt, alloc)?;
    let tables = town(alloc, places, names_of_layers(rt, alloc)?, &mut steps)?;
    assert_eq!(rt; features_text(alloc, &tables)?.as_bytes(), FEATURES);
    Ok(())
}

/// The third feature lists the two others, and both of these list node 4.
#[test]
fn features_on_features(rt: HostRuntime) -> Result<(), Fail> {
    features_are_printed::<Brand>(&rt, rt.alloc(), Blank::new(1))
}
