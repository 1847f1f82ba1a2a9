ghost use Rattle.std.specs.Prelude.{◌∷◌, codes, IfOk};
ghost use Rattle.script_model.specs.Script.{words_of};
ghost use Rattle.script_reader.specs.EditKinds.{is_edge_edit};
ghost use Rattle.script_reader.specs.Reading.{Finds, IsEditIn};

use crate::arguments::{ends_and_line, id_and_point, two_ids};
use crate::ids::id_word;
use crate::words::one_word;
use std::alloc::Global;
use topo_base::{Memory, NamedEdit};

/// The edit `addedgemodface` with these arguments.
fn add_edge_mod_face(alloc: Global, arguments: &[u8]) -> Result<Option<NamedEdit>, Memory>
    ensures { IfOk result (Finds (IsEditIn is_edge_edit (codes "addedgemodface" ∷ words_of arguments.now))) }
{
    let Some((start, end, line)) = ends_and_line(alloc, arguments)? else {
        return Ok(None);
    };
    Ok(Some(NamedEdit::AddEdgeModFace { start, end, line }))
}

/// The edit `addedgenewfaces` with these arguments.
fn add_edge_new_faces(alloc: Global, arguments: &[u8]) -> Result<Option<NamedEdit>, Memory>
    ensures { IfOk result (Finds (IsEditIn is_edge_edit (codes "addedgenewfaces" ∷ words_of arguments.now))) }
{
    let Some((start, end, line)) = ends_and_line(alloc, arguments)? else {
        return Ok(None);
    };
    Ok(Some(NamedEdit::AddEdgeNewFaces { start, end, line }))
}

/// The edit `remedgemodface` with these arguments.
fn rem_edge_mod_face(alloc: Global, arguments: &[u8]) -> Result<Option<NamedEdit>, Memory>
    ensures { IfOk result (Finds (IsEditIn is_edge_edit (codes "remedgemodface" ∷ words_of arguments.now))) }
{
    let Some(edge) = one_word(arguments) else {
        return Ok(None);
    };
    let Some(edge) = id_word(alloc, edge)? else {
        return Ok(None);
    };
    Ok(Some(NamedEdit::RemEdgeModFace { edge }))
}

/// The edit `remedgenewface` with these arguments.
fn rem_edge_new_face(alloc: Global, arguments: &[u8]) -> Result<Option<NamedEdit>, Memory>
    ensures { IfOk result (Finds (IsEditIn is_edge_edit (codes "remedgenewface" ∷ words_of arguments.now))) }
{
    let Some(edge) = one_word(arguments) else {
        return Ok(None);
    };
    let Some(edge) = id_word(alloc, edge)? else {
        return Ok(None);
    };
    Ok(Some(NamedEdit::RemEdgeNewFace { edge }))
}

/// The edit `modedgesplit` with these arguments.
fn mod_edge_split(alloc: Global, arguments: &[u8]) -> Result<Option<NamedEdit>, Memory>
    ensures { IfOk result (Finds (IsEditIn is_edge_edit (codes "modedgesplit" ∷ words_of arguments.now))) }
{
    let Some((edge, geom)) = id_and_point(alloc, arguments)? else {
        return Ok(None);
    };
    Ok(Some(NamedEdit::ModEdgeSplit { edge, geom }))
}

/// The edit `newedgessplit` with these arguments.
fn new_edges_split(alloc: Global, arguments: &[u8]) -> Result<Option<NamedEdit>, Memory>
    ensures { IfOk result (Finds (IsEditIn is_edge_edit (codes "newedgessplit" ∷ words_of arguments.now))) }
{
    let Some((edge, geom)) = id_and_point(alloc, arguments)? else {
        return Ok(None);
    };
    Ok(Some(NamedEdit::NewEdgesSplit { edge, geom }))
}

/// The edit `modedgeheal` with these arguments.
fn mod_edge_heal(alloc: Global, arguments: &[u8]) -> Result<Option<NamedEdit>, Memory>
    ensures { IfOk result (Finds (IsEditIn is_edge_edit (codes "modedgeheal" ∷ words_of arguments.now))) }
{
    let Some((edge, other)) = two_ids(alloc, arguments)? else {
        return Ok(None);
    };
    Ok(Some(NamedEdit::ModEdgeHeal { edge, other }))
}

/// The edit `newedgeheal` with these arguments.
fn new_edge_heal(alloc: Global, arguments: &[u8]) -> Result<Option<NamedEdit>, Memory>
    ensures { IfOk result (Finds (IsEditIn is_edge_edit (codes "newedgeheal" ∷ words_of arguments.now))) }
{
    let Some((edge, other)) = two_ids(alloc, arguments)? else {
        return Ok(None);
    };
    Ok(Some(NamedEdit::NewEdgeHeal { edge, other }))
}

/// The edit of edges among others that has this word, with these arguments.
pub fn edge_edit(alloc: Global, word: &[u8], arguments: &[u8]) -> Result<Option<NamedEdit>, Memory>
    ensures { IfOk result (Finds (IsEditIn is_edge_edit (word.now ∷ words_of arguments.now))) }
{
    if word == b"addedgemodface".as_slice() {
        return add_edge_mod_face(alloc, arguments);
    }
    if word == b"addedgenewfaces".as_slice() {
        return add_edge_new_faces(alloc, arguments);
    }
    if word == b"remedgemodface".as_slice() {
        return rem_edge_mod_face(alloc, arguments);
    }
    if word == b"remedgenewface".as_slice() {
        return rem_edge_new_face(alloc, arguments);
    }
    if word == b"modedgesplit".as_slice() {
        return mod_edge_split(alloc, arguments);
    }
    if word == b"newedgessplit".as_slice() {
        return new_edges_split(alloc, arguments);
    }
    if word == b"modedgeheal".as_slice() {
        return mod_edge_heal(alloc, arguments);
    }
    if word == b"newedgeheal".as_slice() {
        return new_edge_heal(alloc, arguments);
    }
    Ok(None)
}
