// One change of one row.
ghost use Rattle.std.specs.Prelude.{◌≡◌, ℕ, ◌≤◌, ◌+◌, ◌<◌, ◌∷◌, [], option_map};
ghost use Rattle.drawing.specs.Writable.{IsOld, IsOldIfAny, CanWrite};
ghost use Rattle.drawing.specs.Writes.{id_number, dart_named, row_named, written};
ghost use Rattle.topo_tables.specs.Room.{HasRoom, LeavesRoom};
ghost use Rattle.topo_base.specs.declared.rows.Counters.{Counters as NextIds};

use crate::changes::{Bounds, Containing, Course, Next, Point, Side};
use crate::relations;
use crate::tables::Tables;
use std::sync::ledger::Ledger;
use topo_base::{
    Box4, Dart, EdgeId, EdgeRow, FaceId, FaceRow, FeatureId, FeatureRow, Grid, Hand, Kind, LayerId,
    LayerRow, Line, Name, NodeId, NodeRow, RelationRow, RowDart, RowId, RowWrite, Steps,
};

/// The number of an old id.
fn number(id: RowId) -> u32
    requires { IsOld id }
    ensures { id ≡ RowId.Old result }
{
    match id {
        RowId::Old(number) => number,
        RowId::Fresh(_) => unreachable!(),
    }
}

fn dart(dart: RowDart) -> Dart
    requires { IsOld dart.edge }
    ensures { (next : NextIds) → dart_named next dart ≡ result }
{
    Dart {
        edge: EdgeId(number(dart.edge)),
        forward: dart.forward,
    }
}

fn face_if_any(face: Option<RowId>) -> Option<FaceId>
    requires { IsOldIfAny face }
    ensures { (next : ℕ) → option_map (id_number next) face ≡ result }
{
    match face {
        None => None,
        Some(face) => Some(FaceId(number(face))),
    }
}

/// The relation row of old ids.
fn relation_row(feature: RowId, layer: RowId, element: RowId, element_type: u32) -> RelationRow
    requires feature { IsOld feature }
    requires layer { IsOld layer }
    requires element { IsOld element }
    ensures { (next : NextIds) → row_named next feature layer element element_type ≡ result }
{
    RelationRow {
        topogeo_id: FeatureId(number(feature)),
        layer_id: LayerId(number(layer)),
        element_id: number(element),
        element_type,
    }
}

fn layer_if_any(layer: Option<RowId>) -> Option<LayerId>
    requires { IsOldIfAny layer }
    ensures { (next : ℕ) → option_map (id_number next) layer ≡ result }
{
    match layer {
        None => None,
        Some(layer) => Some(LayerId(number(layer))),
    }
}

impl Tables {
    fn put_node(&mut self, node: RowId, face: Option<RowId>, geom: Grid)
        requires can { CanWrite self.old.rows (RowWrite.AddNode node face geom) }
        requires room { HasRoom self.old.room (RowWrite.AddNode node face geom ∷ []) }
        ensures rows { self.new.rows ≡ written self.old.rows.next_ids self.old.rows (RowWrite.AddNode node face geom) }
        ensures room { LeavesRoom (RowWrite.AddNode node face geom) self.old.room self.new.room }
    {
        self.nodes.push(NodeRow {
            node_id: NodeId(number(node)),
            containing_face: face_if_any(face),
            geom,
        });
    }

    fn set_containing(&mut self, node: RowId, face: Option<RowId>)
        requires { CanWrite self.old.rows (RowWrite.SetContaining node face) }
        ensures rows { self.new.rows ≡ written self.old.rows.next_ids self.old.rows (RowWrite.SetContaining node face) }
        ensures room { LeavesRoom (RowWrite.SetContaining node face) self.old.room self.new.room }
    {
        self.nodes
            .change(number(node), Containing(face_if_any(face)));
    }

    fn set_point(&mut self, node: RowId, geom: Grid)
        requires { CanWrite self.old.rows (RowWrite.SetPoint node geom) }
        ensures rows { self.new.rows ≡ written self.old.rows.next_ids self.old.rows (RowWrite.SetPoint node geom) }
        ensures room { LeavesRoom (RowWrite.SetPoint node geom) self.old.room self.new.room }
    {
        self.nodes.change(number(node), Point(geom));
    }

    fn drop_node(&mut self, node: RowId)
        requires { CanWrite self.old.rows (RowWrite.DropNode node) }
        ensures rows { self.new.rows ≡ written self.old.rows.next_ids self.old.rows (RowWrite.DropNode node) }
        ensures room { LeavesRoom (RowWrite.DropNode node) self.old.room self.new.room }
    {
        self.nodes.clear(number(node));
    }

    fn put_edge(
        &mut self,
        edge: RowId,
        start: RowId,
        end: RowId,
        next_left: RowDart,
        next_right: RowDart,
        left: RowId,
        right: RowId,
        geom: Line,
    )
        requires can { CanWrite self.old.rows (RowWrite.AddEdge edge start end next_left next_right left right geom) }
        requires room { HasRoom self.old.room (RowWrite.AddEdge edge start end next_left next_right left right geom ∷ []) }
        ensures rows { self.new.rows ≡ written self.old.rows.next_ids self.old.rows (RowWrite.AddEdge edge start end next_left next_right left right geom) }
        ensures room { LeavesRoom (RowWrite.AddEdge edge start end next_left next_right left right geom) self.old.room self.new.room }
    {
        self.edges.push(EdgeRow {
            edge_id: EdgeId(number(edge)),
            start_node: NodeId(number(start)),
            end_node: NodeId(number(end)),
            next_left_edge: dart(next_left),
            next_right_edge: dart(next_right),
            left_face: FaceId(number(left)),
            right_face: FaceId(number(right)),
            geom,
        });
    }

    fn set_next(&mut self, edge: RowId, hand: Hand, next: RowDart)
        requires { CanWrite self.old.rows (RowWrite.SetNext edge hand next) }
        ensures rows { self.new.rows ≡ written self.old.rows.next_ids self.old.rows (RowWrite.SetNext edge hand next) }
        ensures room { LeavesRoom (RowWrite.SetNext edge hand next) self.old.room self.new.room }
    {
        self.edges.change(
            number(edge),
            Next {
                hand,
                dart: dart(next),
            },
        );
    }

    fn set_side(&mut self, edge: RowId, hand: Hand, face: RowId)
        requires { CanWrite self.old.rows (RowWrite.SetSide edge hand face) }
        ensures rows { self.new.rows ≡ written self.old.rows.next_ids self.old.rows (RowWrite.SetSide edge hand face) }
        ensures room { LeavesRoom (RowWrite.SetSide edge hand face) self.old.room self.new.room }
    {
        self.edges.change(
            number(edge),
            Side {
                hand,
                face: FaceId(number(face)),
            },
        );
    }

    fn set_line(&mut self, edge: RowId, start: RowId, end: RowId, line: Line)
        requires { CanWrite self.old.rows (RowWrite.SetLine edge start end line) }
        ensures rows { self.new.rows ≡ written self.old.rows.next_ids self.old.rows (RowWrite.SetLine edge start end line) }
        ensures room { LeavesRoom (RowWrite.SetLine edge start end line) self.old.room self.new.room }
    {
        let start = NodeId(number(start));
        let end = NodeId(number(end));
        self.edges.change(number(edge), Course { start, end, line });
    }

    fn drop_edge(&mut self, edge: RowId)
        requires { CanWrite self.old.rows (RowWrite.DropEdge edge) }
        ensures rows { self.new.rows ≡ written self.old.rows.next_ids self.old.rows (RowWrite.DropEdge edge) }
        ensures room { LeavesRoom (RowWrite.DropEdge edge) self.old.room self.new.room }
    {
        self.edges.clear(number(edge));
    }

    fn put_face(&mut self, face: RowId, mbr: Option<Box4>)
        requires can { CanWrite self.old.rows (RowWrite.AddFace face mbr) }
        requires room { HasRoom self.old.room (RowWrite.AddFace face mbr ∷ []) }
        ensures rows { self.new.rows ≡ written self.old.rows.next_ids self.old.rows (RowWrite.AddFace face mbr) }
        ensures room { LeavesRoom (RowWrite.AddFace face mbr) self.old.room self.new.room }
    {
        self.faces.push(FaceRow {
            face_id: FaceId(number(face)),
            mbr,
        });
    }

    fn set_box(&mut self, face: RowId, mbr: Option<Box4>)
        requires { CanWrite self.old.rows (RowWrite.SetBox face mbr) }
        ensures rows { self.new.rows ≡ written self.old.rows.next_ids self.old.rows (RowWrite.SetBox face mbr) }
        ensures room { LeavesRoom (RowWrite.SetBox face mbr) self.old.room self.new.room }
    {
        self.faces.change(number(face), Bounds(mbr));
    }

    fn drop_face(&mut self, face: RowId)
        requires { CanWrite self.old.rows (RowWrite.DropFace face) }
        ensures rows { self.new.rows ≡ written self.old.rows.next_ids self.old.rows (RowWrite.DropFace face) }
        ensures room { LeavesRoom (RowWrite.DropFace face) self.old.room self.new.room }
    {
        self.faces.clear(number(face));
    }

    fn put_layer(&mut self, layer: RowId, level: u32, child: Option<RowId>, kind: Kind, name: Name)
        requires can { CanWrite self.old.rows (RowWrite.AddLayer layer level child kind name) }
        requires room { HasRoom self.old.room (RowWrite.AddLayer layer level child kind name ∷ []) }
        ensures rows { self.new.rows ≡ written self.old.rows.next_ids self.old.rows (RowWrite.AddLayer layer level child kind name) }
        ensures room { LeavesRoom (RowWrite.AddLayer layer level child kind name) self.old.room self.new.room }
    {
        self.layers.push(LayerRow {
            layer_id: LayerId(number(layer)),
            level,
            child_id: layer_if_any(child),
            feature_type: kind,
            name,
        });
    }

    fn put_feature(&mut self, feature: RowId, layer: RowId)
        requires can { CanWrite self.old.rows (RowWrite.AddFeature feature layer) }
        requires room { HasRoom self.old.room (RowWrite.AddFeature feature layer ∷ []) }
        ensures rows { self.new.rows ≡ written self.old.rows.next_ids self.old.rows (RowWrite.AddFeature feature layer) }
        ensures room { LeavesRoom (RowWrite.AddFeature feature layer) self.old.room self.new.room }
    {
        self.features.push(FeatureRow {
            feature_id: FeatureId(number(feature)),
            layer_id: LayerId(number(layer)),
        });
    }

    fn drop_feature(&mut self, feature: RowId)
        requires { CanWrite self.old.rows (RowWrite.DropFeature feature) }
        ensures rows { self.new.rows ≡ written self.old.rows.next_ids self.old.rows (RowWrite.DropFeature feature) }
        ensures room { LeavesRoom (RowWrite.DropFeature feature) self.old.room self.new.room }
    {
        self.features.clear(number(feature));
    }

    fn put_row(&mut self, feature: RowId, layer: RowId, element: RowId, element_type: u32)
        requires can { CanWrite self.old.rows (RowWrite.AddRow feature layer element element_type) }
        requires room { HasRoom self.old.room (RowWrite.AddRow feature layer element element_type ∷ []) }
        ensures rows { self.new.rows ≡ written self.old.rows.next_ids self.old.rows (RowWrite.AddRow feature layer element element_type) }
        ensures room { LeavesRoom (RowWrite.AddRow feature layer element element_type) self.old.room self.new.room }
    {
        let row = relation_row(feature, layer, element, element_type);
        relations::put(&mut self.relations, row);
    }

    fn drop_row(&mut self, feature: RowId, layer: RowId, element: RowId, element_type: u32)
        requires { CanWrite self.old.rows (RowWrite.DropRow feature layer element element_type) }
        ensures rows { self.new.rows ≡ written self.old.rows.next_ids self.old.rows (RowWrite.DropRow feature layer element element_type) }
        ensures room { LeavesRoom (RowWrite.DropRow feature layer element element_type) self.old.room self.new.room }
    {
        let row = relation_row(feature, layer, element, element_type);
        relations::take_out(&mut self.relations, row);
    }

    fn apply(&mut self, one: RowWrite)
        requires can { CanWrite self.old.rows one }
        requires room { HasRoom self.old.room (one ∷ []) }
        ensures rows { self.new.rows ≡ written self.old.rows.next_ids self.old.rows one }
        ensures room { LeavesRoom one self.old.room self.new.room }
    {
        match one {
            RowWrite::AddNode { node, face, geom } => self.put_node(node, face, geom),
            RowWrite::SetContaining { node, face } => self.set_containing(node, face),
            RowWrite::SetPoint { node, geom } => self.set_point(node, geom),
            RowWrite::DropNode { node } => self.drop_node(node),
            RowWrite::AddEdge {
                edge,
                start,
                end,
                next_left,
                next_right,
                left,
                right,
                geom,
            } => { self.put_edge(edge, start, end, next_left, next_right, left, right, geom) }
            RowWrite::SetNext { edge, hand, next } => self.set_next(edge, hand, next),
            RowWrite::SetSide { edge, hand, face } => self.set_side(edge, hand, face),
            RowWrite::SetLine {
                edge,
                start,
                end,
                geom,
            } => self.set_line(edge, start, end, geom),
            RowWrite::DropEdge { edge } => self.drop_edge(edge),
            RowWrite::AddFace { face, mbr } => self.put_face(face, mbr),
            RowWrite::SetBox { face, mbr } => self.set_box(face, mbr),
            RowWrite::DropFace { face } => self.drop_face(face),
            RowWrite::AddLayer {
                layer,
                level,
                child,
                kind,
                name,
            } => { self.put_layer(layer, level, child, kind, name) }
            RowWrite::AddFeature { feature, layer } => self.put_feature(feature, layer),
            RowWrite::DropFeature { feature } => self.drop_feature(feature),
            RowWrite::AddRow {
                feature,
                layer,
                element,
                element_type,
            } => { self.put_row(feature, layer, element, element_type) }
            RowWrite::DropRow {
                feature,
                layer,
                element,
                element_type,
            } => { self.drop_row(feature, layer, element, element_type) }
            RowWrite::Raise { .. } => {}
        }
    }

    /// Makes one change of one row, for which room was reserved: each id in it is old, what it names is
    /// there, and a row with an id of its own has its table's next id, which it raises by one. Takes at
    /// most 6 steps, and no memory: one step, and one more for the place of a relation row. A raised stamp
    /// changes nothing.
    pub fn write<L: Ledger>(&mut self, one: RowWrite, steps: &mut Steps<L>)
        requires can { CanWrite self.old.rows one }
        requires room { HasRoom self.old.room (one ∷ []) }
        ensures rows { self.new.rows ≡ written self.old.rows.next_ids self.old.rows one }
        ensures room { LeavesRoom one self.old.room self.new.room }
        ensures steps { (steps.old < steps.new) × (steps.new ≤ steps.old + 6) }
    {
        steps.tick(); // the row
        if matches!(one, RowWrite::AddRow { .. } | RowWrite::DropRow { .. }) {
            steps.tick(); // its place
        }
        self.apply(one)
    }
}
