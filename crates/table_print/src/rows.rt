// The lines of the tables.
ghost use Rattle.std.specs.Prelude.{◌≡◌, ◌++◌, ◌∷◌, [], ℕ, List, OnOk, IfOk, flat_map, length};
ghost use Rattle.std.specs.Fmt.{decimal};
ghost use Rattle.drawing.specs.Places.{rows_of, at_slot};
ghost use Rattle.script_model.specs.Texts.{next_text, node_text, edge_text, face_text, layer_text, feature_text, relation_text, box_words, rows_text};
ghost use Rattle.script_model.specs.Words.{spaced, dart_word};

use edit_words::{
    push_count_word, push_dart_word, push_line, push_number_word, push_option_word, push_point,
    push_word,
};
use std::alloc::Global;
use topo_base::{
    Box4, Counters, EdgeRow, FaceRow, FeatureRow, LayerRow, Memory, NodeRow, RelationRow, Text,
};
use topo_tables::Tables;

/// A row that is printed as a line.
trait RowLine {
    ghost line: { Self → List ℕ };

    fn push_to(&self, text: &mut Text) -> Result<(), Memory>
        ensures { OnOk result (text.new ≡ text.old ++ line self.now) };
}

impl RowLine for NodeRow {
    ghost line = { λ r. node_text r };

    fn push_to(&self, text: &mut Text) -> Result<(), Memory> {
        text.push_bytes(b"node")?;
        push_count_word(text, u64::from(self.node_id.0))?;
        push_option_word(text, self.containing_face.map(|face| face.0))?;
        push_point(text, self.geom)?;
        text.push(b'\n')
    }
}

impl RowLine for EdgeRow {
    ghost line = { λ r. edge_text r };

    fn push_to(&self, text: &mut Text) -> Result<(), Memory> {
        text.push_bytes(b"edge")?;
        push_edge_nodes(text, self)?;
        push_edge_links(text, self)?;
        push_edge_faces(text, self)?;
        push_line(text, &self.geom)?;
        text.push(b'\n')
    }
}

/// An edge's id and nodes.
fn push_edge_nodes(text: &mut Text, row: &EdgeRow) -> Result<(), Memory>
    ensures { OnOk result (text.new ≡ text.old
        ++ spaced (decimal row.now.edge_id ∷ decimal row.now.start_node ∷ decimal row.now.end_node ∷ [])) }
{
    push_count_word(text, u64::from(row.edge_id.0))?;
    push_count_word(text, u64::from(row.start_node.0))?;
    push_count_word(text, u64::from(row.end_node.0))
}

/// An edge's links.
fn push_edge_links(text: &mut Text, row: &EdgeRow) -> Result<(), Memory>
    ensures { OnOk result (text.new ≡ text.old
        ++ spaced (dart_word row.now.next_left_edge ∷ dart_word row.now.next_right_edge ∷ [])) }
{
    push_dart_word(text, row.next_left_edge)?;
    push_dart_word(text, row.next_right_edge)
}

/// An edge's faces, and the number of its vertices.
fn push_edge_faces(text: &mut Text, row: &EdgeRow) -> Result<(), Memory>
    ensures { OnOk result (text.new ≡ text.old
        ++ spaced (decimal row.now.left_face ∷ decimal row.now.right_face ∷ decimal (length row.now.geom) ∷ [])) }
{
    push_count_word(text, u64::from(row.left_face.0))?;
    push_count_word(text, u64::from(row.right_face.0))?;
    push_count_word(text, row.geom.vertices().len() as u64)
}

/// The corners of a box, or `-` where there is none.
fn push_box(text: &mut Text, mbr: Option<Box4>) -> Result<(), Memory>
    ensures { OnOk result (text.new ≡ text.old ++ spaced (box_words mbr)) }
{
    match mbr {
        None => push_word(text, b"-"),
        Some(mbr) => {
            push_number_word(text, mbr.min_x)?;
            push_number_word(text, mbr.min_y)?;
            push_number_word(text, mbr.max_x)?;
            push_number_word(text, mbr.max_y)
        }
    }
}

impl RowLine for FaceRow {
    ghost line = { λ r. face_text r };

    fn push_to(&self, text: &mut Text) -> Result<(), Memory> {
        text.push_bytes(b"face")?;
        push_count_word(text, u64::from(self.face_id.0))?;
        push_box(text, self.mbr)?;
        text.push(b'\n')
    }
}

impl RowLine for LayerRow {
    ghost line = { λ r. layer_text r };

    fn push_to(&self, text: &mut Text) -> Result<(), Memory> {
        text.push_bytes(b"layer")?;
        push_count_word(text, u64::from(self.layer_id.0))?;
        push_count_word(text, u64::from(self.level))?;
        push_option_word(text, self.child_id.map(|child| child.0))?;
        push_count_word(text, u64::from(self.feature_type.number()))?;
        push_word(text, self.name.as_bytes())?;
        text.push(b'\n')
    }
}

impl RowLine for FeatureRow {
    ghost line = { λ r. feature_text r };

    fn push_to(&self, text: &mut Text) -> Result<(), Memory> {
        text.push_bytes(b"feature")?;
        push_count_word(text, u64::from(self.feature_id.0))?;
        push_count_word(text, u64::from(self.layer_id.0))?;
        text.push(b'\n')
    }
}

impl RowLine for RelationRow {
    ghost line = { λ r. relation_text r };

    fn push_to(&self, text: &mut Text) -> Result<(), Memory> {
        text.push_bytes(b"relation")?;
        push_count_word(text, u64::from(self.topogeo_id.0))?;
        push_count_word(text, u64::from(self.layer_id.0))?;
        push_count_word(text, u64::from(self.element_id))?;
        push_count_word(text, u64::from(self.element_type))?;
        text.push(b'\n')
    }
}

/// The line of the next ids.
fn push_next(text: &mut Text, next: &Counters) -> Result<(), Memory>
    ensures { OnOk result (text.new ≡ text.old ++ next_text next.now) }
{
    text.push_bytes(b"next")?;
    push_count_word(text, u64::from(next.node))?;
    push_count_word(text, u64::from(next.edge))?;
    push_count_word(text, u64::from(next.face))?;
    push_count_word(text, u64::from(next.layer))?;
    push_count_word(text, u64::from(next.feature))?;
    text.push(b'\n')
}

fn push_slot<R: RowLine>(text: &mut Text, slot: &Option<R>) -> Result<(), Memory>
    ensures { OnOk result (text.new ≡ text.old ++ at_slot R.line slot.now) }
{
    match slot {
        None => Ok(()),
        Some(row) => row.push_to(text),
    }
}

/// The lines of the rows at their places.
fn push_rows<R: RowLine>(text: &mut Text, slots: &[Option<R>]) -> Result<(), Memory>
    ensures { OnOk result (text.new ≡ text.old ++ flat_map R.line (rows_of slots.now)) }
{
    for slot in slots {
        push_slot(text, slot)?;
    }
    Ok(())
}

fn push_relations(text: &mut Text, rows: &[RelationRow]) -> Result<(), Memory>
    ensures { OnOk result (text.new ≡ text.old ++ flat_map relation_text rows.now) }
{
    for row in rows {
        row.push_to(text)?;
    }
    Ok(())
}

fn push_nodes(text: &mut Text, tables: &Tables) -> Result<(), Memory>
    ensures { OnOk result (text.new ≡ text.old ++ flat_map node_text tables.now.rows.nodes) }
{
    push_rows(text, tables.nodes())
}

fn push_edges(text: &mut Text, tables: &Tables) -> Result<(), Memory>
    ensures { OnOk result (text.new ≡ text.old ++ flat_map edge_text tables.now.rows.edges) }
{
    push_rows(text, tables.edges())
}

fn push_faces(text: &mut Text, tables: &Tables) -> Result<(), Memory>
    ensures { OnOk result (text.new ≡ text.old ++ flat_map face_text tables.now.rows.faces) }
{
    text.push_bytes(b"face 0 -\n")?;
    push_rows(text, tables.faces())
}

fn push_layers(text: &mut Text, tables: &Tables) -> Result<(), Memory>
    ensures { OnOk result (text.new ≡ text.old ++ flat_map layer_text tables.now.rows.layers) }
{
    push_rows(text, tables.layers())
}

fn push_features(text: &mut Text, tables: &Tables) -> Result<(), Memory>
    ensures { OnOk result (text.new ≡ text.old ++ flat_map feature_text tables.now.rows.features) }
{
    push_rows(text, tables.features())
}

/// The lines of the tables.
pub fn tables_text(alloc: Global, tables: &Tables) -> Result<Text, Memory>
    ensures { IfOk result (λ t. t ≡ rows_text tables.now.rows) }
{
    let mut text = Text::new(alloc);
    push_next(&mut text, &tables.counters())?;
    push_nodes(&mut text, tables)?;
    push_edges(&mut text, tables)?;
    push_faces(&mut text, tables)?;
    push_layers(&mut text, tables)?;
    push_features(&mut text, tables)?;
    push_relations(&mut text, tables.relations())?;
    Ok(text)
}
