// What is wrong with relation rows.
ghost use Rattle.std.specs.Prelude.{◌≡◌, ◌++◌, List, map, not, IfOk, OnOk};
ghost use Rattle.std.specs.Option.{option_copied};
ghost use Rattle.validate_topology.specs.declared.lines.ReportLine.{ReportLine as LineValue};
ghost use Rattle.validate_topology.specs.OnlyIf.{only_if};
ghost use Rattle.validate_topology.specs.Raw.{tables_in};
ghost use Rattle.validate_topology.specs.RelationLines.{AreRelationLines, has_type, is_areal as is_of_faces, kind_wrong as line_of_kind, layer_of as layer_in, lists_element_by, lists_faces_by, lists_feature_of, lists_primitive, missing_elements, missing_in, mistyped, mistyped_in, universe_in, universes, unlisted, without_feature};

use crate::lines::{Report, ReportLine};
use crate::pairs::{IdPair, in_order};
use crate::raw::RawTables;
use crate::references::{has_edge, has_face, has_node};
use crate::table::Rows;
use std::alloc::Global;
use topo_base::{
    EdgeId, FaceId, FeatureId, FeatureRow, Kind, LayerId, LayerRow, Memory, NodeId, RelationRow,
};

/// Whether a feature with this id and this layer is listed.
fn is_feature_of(features: &Rows<FeatureRow>, feature: FeatureId, layer: LayerId) -> bool
    ensures { result ≡ lists_feature_of features.now feature layer }
{
    match features.get(feature.0) {
        None => false,
        Some(row) => row.layer_id.0 == layer.0,
    }
}

/// Puts two ids behind others, where they aren't those of a feature and its layer.
fn push_unlisted(
    pairs: &mut Vec<IdPair>,
    feature: FeatureId,
    layer: LayerId,
    features: &Rows<FeatureRow>,
) -> Result<(), Memory>
    ensures { OnOk result (pairs.new.items ≡ pairs.old.items ++ only_if (not (lists_feature_of features.now feature layer)) (record { first = feature; second = layer })) }
{
    if !is_feature_of(features, feature, layer) {
        pairs.push(IdPair {
            first: feature.0,
            second: layer.0,
        })?;
    }
    Ok(())
}

/// The features and layers of rows that aren't those of a listed feature.
fn unlisted_features(
    alloc: Global,
    relations: &[RelationRow],
    features: &Rows<FeatureRow>,
) -> Result<Vec<IdPair>, Memory>
    ensures { IfOk result (λ v. v.items ≡ unlisted features.now relations.now) }
{
    let mut pairs = Vec::new(alloc);
    for row in relations {
        push_unlisted(&mut pairs, row.topogeo_id, row.layer_id, features)?;
    }
    Ok(pairs)
}

/// One line for each feature and layer of relation rows that aren't those of a listed feature.
fn relations_without_feature(pairs: &[IdPair], report: &mut Report) -> Result<(), Memory>
    ensures { OnOk result (report.new ≡ report.old ++ map without_feature pairs.now) }
{
    for pair in pairs {
        let (feature, layer) = (FeatureId(pair.first), LayerId(pair.second));
        report.push(ReportLine::RelationWithoutFeature { feature, layer })?;
    }
    Ok(())
}

/// The layer of a feature, where both are listed.
fn layer_of<'a>(
    features: &Rows<FeatureRow>,
    layers: &'a Rows<LayerRow>,
    feature: FeatureId,
) -> Option<&'a LayerRow>
    ensures { option_copied result ≡ layer_in features.now layers.now feature }
{
    match features.get(feature.0) {
        None => None,
        Some(row) => layers.get(row.layer_id.0),
    }
}

/// Whether the type is that of the elements of a layer: the number of its type, or its child.
fn is_right_type(layer: &LayerRow, element_type: u32) -> bool
    ensures { result ≡ has_type layer.now element_type }
{
    match layer.child_id {
        None => element_type == layer.feature_type.number(),
        Some(child) => element_type == child.0,
    }
}

/// Puts a feature and a type behind others, where the type isn't that of the elements of the feature's layer.
fn push_mistyped(
    pairs: &mut Vec<IdPair>,
    row: &RelationRow,
    layer: Option<&LayerRow>,
) -> Result<(), Memory>
    ensures { OnOk result (pairs.new.items ≡ pairs.old.items ++ mistyped_in (option_copied layer.entry) row.now) }
{
    if let Some(layer) = layer
        && !is_right_type(layer, row.element_type)
    {
        let feature = row.topogeo_id;
        pairs.push(IdPair {
            first: feature.0,
            second: row.element_type,
        })?;
    }
    Ok(())
}

/// The features and types of rows whose type isn't that of the elements of the feature's layer.
fn mistyped_features(
    alloc: Global,
    relations: &[RelationRow],
    features: &Rows<FeatureRow>,
    layers: &Rows<LayerRow>,
) -> Result<Vec<IdPair>, Memory>
    ensures { IfOk result (λ v. v.items ≡ mistyped features.now layers.now relations.now) }
{
    let mut pairs = Vec::new(alloc);
    for row in relations {
        let layer = layer_of(features, layers, row.topogeo_id);
        push_mistyped(&mut pairs, row, layer)?;
    }
    Ok(pairs)
}

/// One line for each feature and type of relation rows whose type isn't that of the layer's elements.
fn relations_of_wrong_kind(pairs: &[IdPair], report: &mut Report) -> Result<(), Memory>
    ensures { OnOk result (report.new ≡ report.old ++ map line_of_kind pairs.now) }
{
    for pair in pairs {
        let (feature, element_type) = (FeatureId(pair.first), pair.second);
        report.push(ReportLine::RelationKindWrong {
            feature,
            element_type,
        })?;
    }
    Ok(())
}

fn is_areal(kind: Kind) -> bool
    ensures { result ≡ is_of_faces kind }
{
    match kind {
        Kind::Puntal => false,
        Kind::Lineal => false,
        Kind::Areal => true,
    }
}

/// Whether the elements of the layer are faces.
fn lists_faces(layer: &LayerRow) -> bool
    ensures { result ≡ lists_faces_by layer.now.feature_type layer.now.child_id }
{
    match layer.child_id {
        None => is_areal(layer.feature_type),
        Some(_) => false,
    }
}

/// Puts a line, where a row lists face 0.
fn relation_of_universe(
    row: &RelationRow,
    layer: Option<&LayerRow>,
    report: &mut Report,
) -> Result<(), Memory>
    ensures { OnOk result (report.new ≡ report.old ++ universe_in (option_copied layer.entry) row.now) }
{
    let feature = row.topogeo_id;
    match layer {
        None => Ok(()),
        Some(layer) => {
            let is_face = is_right_type(layer, row.element_type) && lists_faces(layer);
            let wrong = is_face && row.element_id == 0;
            report.push_if(wrong, ReportLine::RelationUniverse { feature })
        }
    }
}

/// One line for each row that lists face 0.
fn relations_of_universe(
    raw: &RawTables,
    relations: &[RelationRow],
    report: &mut Report,
) -> Result<(), Memory>
    ensures { OnOk result (report.new ≡ report.old ++ universes (tables_in raw.now) relations.now) }
{
    for row in relations {
        let layer = layer_of(&raw.features, &raw.layers, row.topogeo_id);
        relation_of_universe(row, layer, report)?;
    }
    Ok(())
}

/// Whether a node, edge or face of this id is listed.
fn has_primitive(raw: &RawTables, kind: Kind, id: u32) -> bool
    ensures { result ≡ lists_primitive (tables_in raw.now) kind id }
{
    match kind {
        Kind::Puntal => has_node(&raw.nodes, NodeId(id)),
        Kind::Lineal => has_edge(&raw.edges, EdgeId(id)),
        Kind::Areal => has_face(&raw.faces, FaceId(id)),
    }
}

/// Whether the element of a layer is listed.
fn has_element(raw: &RawTables, layer: &LayerRow, id: u32) -> bool
    ensures { result ≡ lists_element_by (tables_in raw.now) layer.now.feature_type layer.now.child_id id }
{
    match layer.child_id {
        None => has_primitive(raw, layer.feature_type, id),
        Some(child) => is_feature_of(&raw.features, FeatureId(id), child),
    }
}

/// Puts a line, where the type of a row is right and its element isn't listed.
fn relation_without_element(
    raw: &RawTables,
    row: &RelationRow,
    layer: Option<&LayerRow>,
    report: &mut Report,
) -> Result<(), Memory>
    ensures { OnOk result (report.new ≡ report.old ++ missing_in (tables_in raw.now) (option_copied layer.entry) row.now) }
{
    let (feature, element) = (row.topogeo_id, row.element_id);
    match layer {
        None => Ok(()),
        Some(layer) => {
            let missing = is_right_type(layer, row.element_type)
                && !has_element(raw, layer, element);
            report.push_if(
                missing,
                ReportLine::RelationWithoutElement { feature, element },
            )
        }
    }
}

/// One line for each row of the right type whose element isn't listed.
fn relations_without_element(
    raw: &RawTables,
    relations: &[RelationRow],
    report: &mut Report,
) -> Result<(), Memory>
    ensures { OnOk result (report.new ≡ report.old ++ missing_elements (tables_in raw.now) relations.now) }
{
    for row in relations {
        let layer = layer_of(&raw.features, &raw.layers, row.topogeo_id);
        relation_without_element(raw, row, layer, report)?;
    }
    Ok(())
}

/// The lines on relation rows.
pub fn relation_lines(alloc: Global, raw: &RawTables, report: &mut Report) -> Result<(), Memory>
    ensures { OnOk result ((lines : List LineValue) × (AreRelationLines (tables_in raw.now) lines × (report.new ≡ report.old ++ lines))) }
{
    let rows = raw.relations.rows();
    let strangers = in_order(unlisted_features(alloc, rows, &raw.features)?);
    let wrong = in_order(mistyped_features(alloc, rows, &raw.features, &raw.layers)?);
    relations_without_feature(&strangers, report)?;
    relations_of_wrong_kind(&wrong, report)?;
    relations_of_universe(raw, rows, report)?;
    relations_without_element(raw, rows, report)?;
    Ok(())
}
