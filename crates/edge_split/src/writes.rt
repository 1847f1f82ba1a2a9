// The row writes by which an edge is split.
ghost use Rattle.std.specs.Prelude.{◌≡◌, ◌∷◌, ◌++◌, [], false, true, IfOk, OnOk, IsTrue, None};
ghost use Rattle.topo_base.specs.Point.{Point};
ghost use Rattle.edge_links.specs.Links.{row_dart};
ghost use Rattle.edge_split.specs.Renamed.{renamed};
ghost use Rattle.plane.specs.Line.{is_inside_line, is_simple, line_from, line_up_to};
ghost use Rattle.edge_split.specs.Writes.{dart_named, first_write, last_writes, mod_writes, new_writes, second_write};

use crate::links::{Parts, relink_rows, renamed, row_dart};
use grid_lines::split_at;
use std::alloc::Global;
use topo_base::{EdgeId, EdgeRow, Grid, Hand, Line, Memory, RowDart, RowId, RowWrite};
use topo_tables::{Tables, Writes};

/// The parts of the line of an edge.
struct Lines {
    up_to: Line,
    from: Line,
}

/// The parts of a line up to a point inside it, and from it on.
fn lines_of(alloc: Global, line: &Line, point: Grid) -> Result<Lines, Memory>
    requires simple { IsTrue (is_simple line.now) }
    requires inside { IsTrue (is_inside_line point line.now) }
    ensures first { IfOk result (λ lines. lines.up_to ≡ line_up_to point line.now) }
    ensures second { IfOk result (λ lines. lines.from ≡ line_from point line.now) }
{
    match split_at(alloc, line, point)? {
        Some((up_to, from)) => Ok(Lines { up_to, from }),
        None => unreachable!(),
    }
}

/// A dart as a row write names it.
fn dart_named(edge: EdgeId, forward: bool) -> RowDart
    ensures { result ≡ dart_named edge forward }
{
    RowDart {
        edge: RowId::Old(edge.0),
        forward,
    }
}

/// The write of the node between the parts, which has edges.
fn node_write(parts: &Parts, point: Grid) -> RowWrite
    ensures { result ≡ RowWrite.AddNode (RowId.Old parts.now.node) None point }
{
    RowWrite::AddNode {
        node: RowId::Old(parts.node.0),
        face: None,
        geom: point,
    }
}

/// The write of the first part as a new edge, whose links are its own darts until they are set.
fn first_write(row: &EdgeRow, parts: &Parts, line: Line) -> RowWrite
    ensures { (p : Point) → line ≡ line_up_to p row.now.geom → result ≡ first_write row.now p parts.now.node parts.now.first }
{
    RowWrite::AddEdge {
        edge: RowId::Old(parts.first.0),
        start: RowId::Old(row.start_node.0),
        end: RowId::Old(parts.node.0),
        next_left: dart_named(parts.first, true),
        next_right: dart_named(parts.first, false),
        left: RowId::Old(row.left_face.0),
        right: RowId::Old(row.right_face.0),
        geom: line,
    }
}

/// The write of the second part, which goes on as the edge did.
fn second_write(row: &EdgeRow, parts: &Parts, line: Line) -> RowWrite
    requires { parts.now.edge ≡ row.now.edge_id }
    ensures { (p : Point) → line ≡ line_from p row.now.geom → result ≡ second_write row.now p parts.now.node parts.now.first parts.now.second }
{
    RowWrite::AddEdge {
        edge: RowId::Old(parts.second.0),
        start: RowId::Old(parts.node.0),
        end: RowId::Old(row.end_node.0),
        next_left: row_dart(&renamed(parts, &row.next_left_edge)),
        next_right: dart_named(parts.first, false),
        left: RowId::Old(row.left_face.0),
        right: RowId::Old(row.right_face.0),
        geom: line,
    }
}

/// The write by which the edge becomes its first part.
fn line_write(row: &EdgeRow, parts: &Parts, line: Line) -> RowWrite
    ensures { result ≡ RowWrite.SetLine (RowId.Old row.now.edge_id) (RowId.Old row.now.start_node) (RowId.Old parts.now.node) line }
{
    RowWrite::SetLine {
        edge: RowId::Old(row.edge_id.0),
        start: RowId::Old(row.start_node.0),
        end: RowId::Old(parts.node.0),
        geom: line,
    }
}

/// The write after which the second part follows the first.
fn goes_on(parts: &Parts) -> RowWrite
    ensures { result ≡ RowWrite.SetNext (RowId.Old parts.now.first) Hand.Left (dart_named parts.now.second true) }
{
    RowWrite::SetNext {
        edge: RowId::Old(parts.first.0),
        hand: Hand::Left,
        next: dart_named(parts.second, true),
    }
}

/// The write after which the first part, walked back, goes on as the edge did.
fn goes_back(row: &EdgeRow, parts: &Parts) -> RowWrite
    requires { parts.now.edge ≡ row.now.edge_id }
    ensures { result ≡ RowWrite.SetNext (RowId.Old parts.now.first) Hand.Right (row_dart (renamed row.now.edge_id parts.now.first parts.now.second row.now.next_right_edge)) }
{
    RowWrite::SetNext {
        edge: RowId::Old(parts.first.0),
        hand: Hand::Right,
        next: row_dart(&renamed(parts, &row.next_right_edge)),
    }
}

/// The writes by which the node and the second part come.
fn second_writes(
    alloc: Global,
    row: &EdgeRow,
    parts: &Parts,
    point: Grid,
    line: Line,
) -> Result<Writes, Memory>
    requires edge { parts.now.edge ≡ row.now.edge_id }
    requires line { line ≡ line_from point row.now.geom }
    ensures { IfOk result (λ ws. ws ≡ RowWrite.AddNode (RowId.Old parts.now.node) None point
        ∷ second_write row.now point parts.now.node parts.now.first parts.now.second ∷ []) }
{
    let mut writes = Writes::new(alloc);
    writes.push(node_write(parts, point))?;
    writes.push(second_write(row, parts, line))?;
    Ok(writes)
}

/// Puts the writes behind others by which the edge becomes its first part.
fn push_line(writes: &mut Writes, row: &EdgeRow, parts: &Parts, line: Line) -> Result<(), Memory>
    ensures { OnOk result (writes.new ≡ writes.old
        ++ RowWrite.SetLine (RowId.Old row.now.edge_id) (RowId.Old row.now.start_node) (RowId.Old parts.now.node) line
        ∷ RowWrite.SetNext (RowId.Old parts.now.first) Hand.Left (dart_named parts.now.second true) ∷ []) }
{
    writes.push(line_write(row, parts, line))?;
    writes.push(goes_on(parts))
}

/// The row writes by which an edge becomes its first part: the node, the second part, the links of other
/// edges, the line, and the link to the second part.
pub fn mod_writes(
    alloc: Global,
    tables: &Tables,
    row: &EdgeRow,
    parts: &Parts,
    point: Grid,
) -> Result<Writes, Memory>
    requires simple { IsTrue (is_simple row.now.geom) }
    requires inside { IsTrue (is_inside_line point row.now.geom) }
    requires edge { parts.now.edge ≡ row.now.edge_id }
    requires first { parts.now.first ≡ row.now.edge_id }
    ensures { IfOk result (λ ws. ws ≡ mod_writes tables.now.rows.edges row.now point parts.now.node parts.now.second) }
{
    let Lines { up_to, from } = lines_of(alloc, &row.geom, point)?;
    let mut writes = second_writes(alloc, row, parts, point, from)?;
    relink_rows(&mut writes, parts, tables.edges())?;
    push_line(&mut writes, row, parts, up_to)?;
    Ok(writes)
}

/// The writes by which the node and both parts come.
fn parts_writes(alloc: Global, row: &EdgeRow, parts: &Parts, point: Grid) -> Result<Writes, Memory>
    requires simple { IsTrue (is_simple row.now.geom) }
    requires inside { IsTrue (is_inside_line point row.now.geom) }
    requires edge { parts.now.edge ≡ row.now.edge_id }
    ensures { IfOk result (λ ws. ws ≡ RowWrite.AddNode (RowId.Old parts.now.node) None point
        ∷ first_write row.now point parts.now.node parts.now.first ∷ second_write row.now point parts.now.node parts.now.first parts.now.second ∷ []) }
{
    let Lines { up_to, from } = lines_of(alloc, &row.geom, point)?;
    let mut writes = Writes::new(alloc);
    writes.push(node_write(parts, point))?;
    writes.push(first_write(row, parts, up_to))?;
    writes.push(second_write(row, parts, from))?;
    Ok(writes)
}

/// Puts the writes behind others by which the links of the first part are set, and the edge goes.
fn push_last(writes: &mut Writes, row: &EdgeRow, parts: &Parts) -> Result<(), Memory>
    requires { parts.now.edge ≡ row.now.edge_id }
    ensures { OnOk result (writes.new ≡ writes.old ++ last_writes row.now parts.now.first parts.now.second) }
{
    writes.push(goes_on(parts))?;
    writes.push(goes_back(row, parts))?;
    writes.push(RowWrite::DropEdge {
        edge: RowId::Old(row.edge_id.0),
    })
}

/// The row writes by which an edge goes, and its parts come: the node, both parts, the links of other
/// edges and of the first part, and the edge.
pub fn new_writes(
    alloc: Global,
    tables: &Tables,
    row: &EdgeRow,
    parts: &Parts,
    point: Grid,
) -> Result<Writes, Memory>
    requires simple { IsTrue (is_simple row.now.geom) }
    requires inside { IsTrue (is_inside_line point row.now.geom) }
    requires edge { parts.now.edge ≡ row.now.edge_id }
    ensures { IfOk result (λ ws. ws ≡ new_writes tables.now.rows.edges row.now point parts.now.node parts.now.first parts.now.second) }
{
    let mut writes = parts_writes(alloc, row, parts, point)?;
    relink_rows(&mut writes, parts, tables.edges())?;
    push_last(&mut writes, row, parts)?;
    Ok(writes)
}
