// The lines of edits.
ghost use Rattle.std.specs.Prelude.{◌≡◌, ◌++◌, ◌∷◌, [], OnOk, IfOk, codes, flat_map};
ghost use Rattle.std.specs.Fmt.{decimal};
ghost use Rattle.std.specs.List.{join_with_byte};
ghost use Rattle.script_model.specs.Words.{spaced, option_word, point_words, line_words, pair_words, kind_word, edit_words, line_of};

use crate::words::{push_count_word, push_line, push_option_word, push_point, push_word};
use std::alloc::Global;
use topo_base::{Edit, Grid, Kind, Line, Memory, Name, NodeId, Pair, PairList, Text};

/// The printed word of the type of a layer's features.
fn kind_text(kind: Kind) -> &'static [u8]
    ensures { result.now ≡ kind_word kind }
{
    match kind {
        Kind::Puntal => b"puntal",
        Kind::Lineal => b"lineal",
        Kind::Areal => b"areal",
    }
}

/// An edit of one id.
fn push_one(text: &mut Text, verb: &[u8], id: u32) -> Result<(), Memory>
    ensures { OnOk result (text.new ≡ text.old ++ join_with_byte 32 (verb.now ∷ decimal id ∷ [])) }
{
    text.push_bytes(verb)?;
    push_count_word(text, u64::from(id))
}

/// An edit of two ids.
fn push_two(text: &mut Text, verb: &[u8], first: u32, second: u32) -> Result<(), Memory>
    ensures { OnOk result (text.new ≡ text.old ++ join_with_byte 32 (verb.now ∷ decimal first ∷ decimal second ∷ [])) }
{
    push_one(text, verb, first)?;
    push_count_word(text, u64::from(second))
}

/// An edit of three ids.
fn push_three(
    text: &mut Text,
    verb: &[u8],
    first: u32,
    second: u32,
    third: u32,
) -> Result<(), Memory>
    ensures { OnOk result (text.new ≡ text.old ++ join_with_byte 32 (verb.now ∷ decimal first ∷ decimal second ∷ decimal third ∷ [])) }
{
    push_two(text, verb, first, second)?;
    push_count_word(text, u64::from(third))
}

/// An edit of an id at a point.
fn push_place(text: &mut Text, verb: &[u8], id: u32, point: Grid) -> Result<(), Memory>
    ensures { OnOk result (text.new ≡ text.old ++ join_with_byte 32 (verb.now ∷ decimal id ∷ point_words point)) }
{
    push_one(text, verb, id)?;
    push_point(text, point)
}

/// An edit that adds an edge with this line.
fn push_edge(
    text: &mut Text,
    verb: &[u8],
    start: NodeId,
    end: NodeId,
    line: &Line,
) -> Result<(), Memory>
    ensures { OnOk result (text.new ≡ text.old ++ join_with_byte 32 (verb.now ∷ decimal start ∷ decimal end ∷ line_words line.now)) }
{
    push_two(text, verb, start.0, end.0)?;
    push_line(text, line)
}

fn push_node(text: &mut Text, face: Option<u32>, point: Grid) -> Result<(), Memory>
    ensures { OnOk result (text.new ≡ text.old ++ join_with_byte 32 (codes "addisonode" ∷ option_word face ∷ point_words point)) }
{
    text.push_bytes(b"addisonode")?;
    push_option_word(text, face)?;
    push_point(text, point)
}

fn push_layer(text: &mut Text, name: &Name, kind: Kind, child: Option<u32>) -> Result<(), Memory>
    ensures { OnOk result (text.new ≡ text.old ++ join_with_byte 32 (codes "addlayer" ∷ name.now ∷ kind_word kind ∷ option_word child ∷ [])) }
{
    text.push_bytes(b"addlayer")?;
    push_word(text, name.as_bytes())?;
    push_word(text, kind_text(kind))?;
    push_option_word(text, child)
}

fn push_pair(text: &mut Text, pair: &Pair) -> Result<(), Memory>
    ensures { OnOk result (text.new ≡ text.old ++ spaced (pair_words pair.now)) }
{
    push_count_word(text, u64::from(pair.id))?;
    push_count_word(text, u64::from(pair.element_type))
}

fn push_pairs(text: &mut Text, pairs: &PairList) -> Result<(), Memory>
    ensures { OnOk result (text.new ≡ text.old ++ spaced (flat_map pair_words pairs.now)) }
{
    for pair in pairs.pairs() {
        push_pair(text, pair)?;
    }
    Ok(())
}

fn push_feature(text: &mut Text, layer: u32, elements: &PairList) -> Result<(), Memory>
    ensures { OnOk result (text.new ≡ text.old ++ join_with_byte 32 (codes "createtopogeom" ∷ decimal layer ∷ flat_map pair_words elements.now)) }
{
    push_one(text, b"createtopogeom", layer)?;
    push_pairs(text, elements)
}

/// Appends the words of an edit.
fn push_edit(text: &mut Text, edit: &Edit) -> Result<(), Memory>
    ensures { OnOk result (text.new ≡ text.old ++ join_with_byte 32 (edit_words edit.now)) }
{
    match edit {
        Edit::AddIsoNode { face, geom } => push_node(text, face.map(|face| face.0), *geom),
        Edit::MoveIsoNode { node, geom } => push_place(text, b"moveisonode", node.0, *geom),
        Edit::RemoveIsoNode { node } => push_one(text, b"removeisonode", node.0),
        Edit::AddIsoEdge { start, end, line } => push_edge(text, b"addisoedge", *start, *end, line),
        Edit::RemoveIsoEdge { edge } => push_one(text, b"removeisoedge", edge.0),
        Edit::AddEdgeModFace { start, end, line } => {
            push_edge(text, b"addedgemodface", *start, *end, line)
        }
        Edit::AddEdgeNewFaces { start, end, line } => {
            push_edge(text, b"addedgenewfaces", *start, *end, line)
        }
        Edit::RemEdgeModFace { edge } => push_one(text, b"remedgemodface", edge.0),
        Edit::RemEdgeNewFace { edge } => push_one(text, b"remedgenewface", edge.0),
        Edit::ModEdgeSplit { edge, geom } => push_place(text, b"modedgesplit", edge.0, *geom),
        Edit::NewEdgesSplit { edge, geom } => push_place(text, b"newedgessplit", edge.0, *geom),
        Edit::ModEdgeHeal { edge, other } => push_two(text, b"modedgeheal", edge.0, other.0),
        Edit::NewEdgeHeal { edge, other } => push_two(text, b"newedgeheal", edge.0, other.0),
        Edit::AddLayer { name, kind, child } => {
            push_layer(text, name, *kind, child.map(|child| child.0))
        }
        Edit::CreateTopoGeom { layer, elements } => push_feature(text, layer.0, elements),
        Edit::AddElement {
            feature,
            id,
            element_type,
        } => push_three(text, b"addelement", feature.0, *id, *element_type),
        Edit::RemElement {
            feature,
            id,
            element_type,
        } => push_three(text, b"remelement", feature.0, *id, *element_type),
        Edit::DropFeature { feature } => push_one(text, b"dropfeature", feature.0),
    }
}

/// One edit as a line of a script, with its line feed, and with numbers in place of names.
pub fn edit_text(alloc: Global, edit: &Edit) -> Result<Text, Memory>
    ensures { IfOk result (λ t. t ≡ line_of (edit_words edit.now)) }
{
    let mut text = Text::new(alloc);
    push_edit(&mut text, edit)?;
    text.push(b'\n')?;
    Ok(text)
}
