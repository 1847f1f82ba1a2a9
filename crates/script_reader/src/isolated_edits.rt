ghost use Rattle.std.specs.Prelude.{◌∷◌, codes, IfOk};
ghost use Rattle.script_model.specs.Script.{words_of};
ghost use Rattle.script_reader.specs.EditKinds.{is_isolated_edit};
ghost use Rattle.script_reader.specs.Reading.{Finds, IsEditIn};

use crate::arguments::{ends_and_line, id_and_point};
use crate::ids::{id_word, option_id_word};
use crate::points::point_of;
use crate::words::{one_word, three_words};
use std::alloc::Global;
use topo_base::{Memory, NamedEdit};

/// The edit `addisonode` with these arguments.
fn add_iso_node(alloc: Global, arguments: &[u8]) -> Result<Option<NamedEdit>, Memory>
    ensures { IfOk result (Finds (IsEditIn is_isolated_edit (codes "addisonode" ∷ words_of arguments.now))) }
{
    let Some((face, x, y)) = three_words(arguments) else {
        return Ok(None);
    };
    let Some(geom) = point_of(x, y) else {
        return Ok(None);
    };
    let Some(face) = option_id_word(alloc, face)? else {
        return Ok(None);
    };
    Ok(Some(NamedEdit::AddIsoNode { face, geom }))
}

/// The edit `moveisonode` with these arguments.
fn move_iso_node(alloc: Global, arguments: &[u8]) -> Result<Option<NamedEdit>, Memory>
    ensures { IfOk result (Finds (IsEditIn is_isolated_edit (codes "moveisonode" ∷ words_of arguments.now))) }
{
    let Some((node, geom)) = id_and_point(alloc, arguments)? else {
        return Ok(None);
    };
    Ok(Some(NamedEdit::MoveIsoNode { node, geom }))
}

/// The edit `removeisonode` with these arguments.
fn remove_iso_node(alloc: Global, arguments: &[u8]) -> Result<Option<NamedEdit>, Memory>
    ensures { IfOk result (Finds (IsEditIn is_isolated_edit (codes "removeisonode" ∷ words_of arguments.now))) }
{
    let Some(node) = one_word(arguments) else {
        return Ok(None);
    };
    let Some(node) = id_word(alloc, node)? else {
        return Ok(None);
    };
    Ok(Some(NamedEdit::RemoveIsoNode { node }))
}

/// The edit `addisoedge` with these arguments.
fn add_iso_edge(alloc: Global, arguments: &[u8]) -> Result<Option<NamedEdit>, Memory>
    ensures { IfOk result (Finds (IsEditIn is_isolated_edit (codes "addisoedge" ∷ words_of arguments.now))) }
{
    let Some((start, end, line)) = ends_and_line(alloc, arguments)? else {
        return Ok(None);
    };
    Ok(Some(NamedEdit::AddIsoEdge { start, end, line }))
}

/// The edit `removeisoedge` with these arguments.
fn remove_iso_edge(alloc: Global, arguments: &[u8]) -> Result<Option<NamedEdit>, Memory>
    ensures { IfOk result (Finds (IsEditIn is_isolated_edit (codes "removeisoedge" ∷ words_of arguments.now))) }
{
    let Some(edge) = one_word(arguments) else {
        return Ok(None);
    };
    let Some(edge) = id_word(alloc, edge)? else {
        return Ok(None);
    };
    Ok(Some(NamedEdit::RemoveIsoEdge { edge }))
}

/// The edit of isolated nodes and edges that has this word, with these arguments.
pub fn isolated_edit(
    alloc: Global,
    word: &[u8],
    arguments: &[u8],
) -> Result<Option<NamedEdit>, Memory>
    ensures { IfOk result (Finds (IsEditIn is_isolated_edit (word.now ∷ words_of arguments.now))) }
{
    if word == b"addisonode".as_slice() {
        return add_iso_node(alloc, arguments);
    }
    if word == b"moveisonode".as_slice() {
        return move_iso_node(alloc, arguments);
    }
    if word == b"removeisonode".as_slice() {
        return remove_iso_node(alloc, arguments);
    }
    if word == b"addisoedge".as_slice() {
        return add_iso_edge(alloc, arguments);
    }
    if word == b"removeisoedge".as_slice() {
        return remove_iso_edge(alloc, arguments);
    }
    Ok(None)
}
