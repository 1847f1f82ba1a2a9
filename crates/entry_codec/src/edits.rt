// The tag of an edit and its fields, appended to its bytes. What is appended is in range, since its type is.
ghost use Rattle.std.specs.Prelude.{◌≡◌, ◌++◌, ◌∷◌, ◌&&◌, OnOk, IsTrue};
ghost use Rattle.std.specs.List.{list_all};
ghost use Rattle.topo_base.specs.Names.{is_name};
ghost use Rattle.topo_base.specs.Kinds.{kind_number};
ghost use Rattle.drawing.specs.Accepted.{is_line_short, keeps_limits};
ghost use Rattle.drawing.specs.InRange.{is_id, is_option_id, is_grid_point, is_pair, is_in_range};
ghost use Rattle.history_model.specs.Spelling.{number_bytes, point_bytes, option_bytes, line_bytes, pairs_bytes, name_bytes, edit_bytes};

use crate::fields::{put_line, put_name, put_number, put_option, put_pairs, put_point};
use topo_base::{Edit, Grid, Kind, Line, Memory, Name, NodeId, PairList};

/// An edit of one number.
fn put_one(out: &mut Vec<u8>, tag: u8, number: u32) -> Result<(), Memory>
    ensures bytes { OnOk result (out.new.items ≡ out.old.items ++ tag ∷ number_bytes number) }
    ensures good { OnOk result (IsTrue (is_id number)) }
{
    out.push(tag)?;
    put_number(out, number)
}

/// An edit of two numbers.
fn put_two(out: &mut Vec<u8>, tag: u8, first: u32, second: u32) -> Result<(), Memory>
    ensures bytes { OnOk result (out.new.items ≡ out.old.items ++ tag ∷ (number_bytes first ++ number_bytes second)) }
    ensures good { OnOk result (IsTrue (is_id first && is_id second)) }
{
    put_one(out, tag, first)?;
    put_number(out, second)
}

/// An edit of three numbers.
fn put_three(out: &mut Vec<u8>, tag: u8, first: u32, second: u32, third: u32) -> Result<(), Memory>
    ensures bytes { OnOk result (out.new.items ≡ out.old.items ++ tag ∷ (number_bytes first ++ number_bytes second ++ number_bytes third)) }
    ensures good { OnOk result (IsTrue (is_id first && is_id second && is_id third)) }
{
    put_two(out, tag, first, second)?;
    put_number(out, third)
}

/// An edit of a number at a point.
fn put_place(out: &mut Vec<u8>, tag: u8, number: u32, point: &Grid) -> Result<(), Memory>
    ensures bytes { OnOk result (out.new.items ≡ out.old.items ++ tag ∷ (number_bytes number ++ point_bytes point.now)) }
    ensures good { OnOk result (IsTrue (is_id number && is_grid_point point.now)) }
{
    put_one(out, tag, number)?;
    put_point(out, point)
}

/// An edit that adds an edge with this line.
fn put_edge(
    out: &mut Vec<u8>,
    tag: u8,
    start: NodeId,
    end: NodeId,
    line: &Line,
) -> Result<(), Memory>
    requires { IsTrue (is_line_short line.now) }
    ensures bytes { OnOk result (out.new.items ≡ out.old.items ++ tag ∷ (number_bytes start ++ number_bytes end ++ line_bytes line.now)) }
    ensures good { OnOk result (IsTrue (is_id start && is_id end && list_all is_grid_point line.now)) }
{
    put_two(out, tag, start.0, end.0)?;
    put_line(out, line)
}

/// The edit that adds an isolated node.
fn put_node(out: &mut Vec<u8>, face: Option<u32>, point: &Grid) -> Result<(), Memory>
    ensures bytes { OnOk result (out.new.items ≡ out.old.items ++ 1 ∷ (option_bytes face ++ point_bytes point.now)) }
    ensures good { OnOk result (IsTrue (is_option_id face && is_grid_point point.now)) }
{
    out.push(1)?;
    put_option(out, face)?;
    put_point(out, point)
}

/// The edit that adds a layer.
fn put_layer(out: &mut Vec<u8>, name: &Name, kind: Kind, child: Option<u32>) -> Result<(), Memory>
    ensures bytes { OnOk result (out.new.items ≡ out.old.items ++ 14 ∷ (name_bytes name.now ++ kind_number kind ∷ option_bytes child)) }
    ensures good { OnOk result (IsTrue (is_name name.now && is_option_id child)) }
{
    out.push(14)?;
    put_name(out, name)?;
    out.push(kind.number() as u8)?;
    put_option(out, child)
}

/// The edit that makes a feature.
fn put_feature(out: &mut Vec<u8>, layer: u32, elements: &PairList) -> Result<(), Memory>
    ensures bytes { OnOk result (out.new.items ≡ out.old.items ++ 15 ∷ (number_bytes layer ++ pairs_bytes elements.now)) }
    ensures good { OnOk result (IsTrue (is_id layer && list_all is_pair elements.now)) }
{
    put_one(out, 15, layer)?;
    put_pairs(out, elements)
}

/// Appends the tag of an edit and its fields.
pub fn put_edit(out: &mut Vec<u8>, edit: &Edit) -> Result<(), Memory>
    requires { IsTrue (keeps_limits edit.now) }
    ensures bytes { OnOk result (out.new.items ≡ out.old.items ++ edit_bytes edit.now) }
    ensures good { OnOk result (IsTrue (is_in_range edit.now)) }
{
    match edit {
        Edit::AddIsoNode { face, geom } => put_node(out, face.map(|face| face.0), geom),
        Edit::MoveIsoNode { node, geom } => put_place(out, 2, node.0, geom),
        Edit::RemoveIsoNode { node } => put_one(out, 3, node.0),
        Edit::AddIsoEdge { start, end, line } => put_edge(out, 4, *start, *end, line),
        Edit::RemoveIsoEdge { edge } => put_one(out, 5, edge.0),
        Edit::AddEdgeModFace { start, end, line } => put_edge(out, 6, *start, *end, line),
        Edit::AddEdgeNewFaces { start, end, line } => put_edge(out, 7, *start, *end, line),
        Edit::RemEdgeModFace { edge } => put_one(out, 8, edge.0),
        Edit::RemEdgeNewFace { edge } => put_one(out, 9, edge.0),
        Edit::ModEdgeSplit { edge, geom } => put_place(out, 10, edge.0, geom),
        Edit::NewEdgesSplit { edge, geom } => put_place(out, 11, edge.0, geom),
        Edit::ModEdgeHeal { edge, other } => put_two(out, 12, edge.0, other.0),
        Edit::NewEdgeHeal { edge, other } => put_two(out, 13, edge.0, other.0),
        Edit::AddLayer { name, kind, child } => {
            put_layer(out, name, *kind, child.map(|child| child.0))
        }
        Edit::CreateTopoGeom { layer, elements } => put_feature(out, layer.0, elements),
        Edit::AddElement {
            feature,
            id,
            element_type,
        } => put_three(out, 16, feature.0, *id, *element_type),
        Edit::RemElement {
            feature,
            id,
            element_type,
        } => put_three(out, 17, feature.0, *id, *element_type),
        Edit::DropFeature { feature } => put_one(out, 18, feature.0),
    }
}
