ghost use Rattle.std.specs.Prelude.{◌∷◌, codes, IfOk};
ghost use Rattle.script_model.specs.Script.{words_of};
ghost use Rattle.script_reader.specs.EditKinds.{is_feature_edit};
ghost use Rattle.script_reader.specs.Reading.{Finds, IsEditIn};

use crate::arguments::three_ids;
use crate::elements::elements_of;
use crate::ids::{id_word, option_id_word};
use crate::kinds::kind_of;
use crate::names::name_of;
use crate::words::{first_word, one_word, three_words};
use std::alloc::Global;
use topo_base::{Memory, NamedEdit};

/// The edit `addlayer` with these arguments.
fn add_layer(alloc: Global, arguments: &[u8]) -> Result<Option<NamedEdit>, Memory>
    ensures { IfOk result (Finds (IsEditIn is_feature_edit (codes "addlayer" ∷ words_of arguments.now))) }
{
    let Some((name, kind, child)) = three_words(arguments) else {
        return Ok(None);
    };
    let Some(kind) = kind_of(kind) else {
        return Ok(None);
    };
    let Some(name) = name_of(alloc, name)? else {
        return Ok(None);
    };
    let Some(child) = option_id_word(alloc, child)? else {
        return Ok(None);
    };
    Ok(Some(NamedEdit::AddLayer { name, kind, child }))
}

/// The edit `createtopogeom` with these arguments.
fn create_topo_geom(alloc: Global, arguments: &[u8]) -> Result<Option<NamedEdit>, Memory>
    ensures { IfOk result (Finds (IsEditIn is_feature_edit (codes "createtopogeom" ∷ words_of arguments.now))) }
{
    let Some((layer, elements)) = first_word(arguments) else {
        return Ok(None);
    };
    let Some(layer) = id_word(alloc, layer)? else {
        return Ok(None);
    };
    let Some(elements) = elements_of(alloc, elements)? else {
        return Ok(None);
    };
    Ok(Some(NamedEdit::CreateTopoGeom { layer, elements }))
}

/// The edit `addelement` with these arguments.
fn add_element(alloc: Global, arguments: &[u8]) -> Result<Option<NamedEdit>, Memory>
    ensures { IfOk result (Finds (IsEditIn is_feature_edit (codes "addelement" ∷ words_of arguments.now))) }
{
    let Some((feature, id, element_type)) = three_ids(alloc, arguments)? else {
        return Ok(None);
    };
    Ok(Some(NamedEdit::AddElement {
        feature,
        id,
        element_type,
    }))
}

/// The edit `remelement` with these arguments.
fn rem_element(alloc: Global, arguments: &[u8]) -> Result<Option<NamedEdit>, Memory>
    ensures { IfOk result (Finds (IsEditIn is_feature_edit (codes "remelement" ∷ words_of arguments.now))) }
{
    let Some((feature, id, element_type)) = three_ids(alloc, arguments)? else {
        return Ok(None);
    };
    Ok(Some(NamedEdit::RemElement {
        feature,
        id,
        element_type,
    }))
}

/// The edit `dropfeature` with these arguments.
fn drop_feature(alloc: Global, arguments: &[u8]) -> Result<Option<NamedEdit>, Memory>
    ensures { IfOk result (Finds (IsEditIn is_feature_edit (codes "dropfeature" ∷ words_of arguments.now))) }
{
    let Some(feature) = one_word(arguments) else {
        return Ok(None);
    };
    let Some(feature) = id_word(alloc, feature)? else {
        return Ok(None);
    };
    Ok(Some(NamedEdit::DropFeature { feature }))
}

/// The edit of layers and features that has this word, with these arguments.
pub fn feature_edit(
    alloc: Global,
    word: &[u8],
    arguments: &[u8],
) -> Result<Option<NamedEdit>, Memory>
    ensures { IfOk result (Finds (IsEditIn is_feature_edit (word.now ∷ words_of arguments.now))) }
{
    if word == b"addlayer".as_slice() {
        return add_layer(alloc, arguments);
    }
    if word == b"createtopogeom".as_slice() {
        return create_topo_geom(alloc, arguments);
    }
    if word == b"addelement".as_slice() {
        return add_element(alloc, arguments);
    }
    if word == b"remelement".as_slice() {
        return rem_element(alloc, arguments);
    }
    if word == b"dropfeature".as_slice() {
        return drop_feature(alloc, arguments);
    }
    Ok(None)
}
