// What is wrong with layers, and with the layers of features.
ghost use Rattle.std.specs.Prelude.{◌≡◌, ◌++◌, OnOk};
ghost use Rattle.drawing.specs.Drawing.{layer_id_of};
ghost use Rattle.drawing.specs.Rows.{row_at};
ghost use Rattle.drawing.specs.Subdivision.{is_above};
ghost use Rattle.validate_topology.specs.References.{features_without_layer as without_layer, layer_children as children_wrong, layer_levels as levels_wrong, missing_layer, names_taken, taken_names, wrong_child, wrong_level};

use crate::lines::{Report, ReportLine};
use crate::table::Rows;
use topo_base::{FeatureId, FeatureRow, LayerId, LayerRow, Memory};

/// Puts a line, where a layer has no child and a level other than 0.
fn layer_level(
    layer: LayerId,
    level: u32,
    child: Option<LayerId>,
    report: &mut Report,
) -> Result<(), Memory>
    ensures { OnOk result (report.new ≡ report.old ++ wrong_level layer level child) }
{
    match child {
        None => report.push_if(level != 0, ReportLine::LayerLevelWrong { layer }),
        Some(_) => Ok(()),
    }
}

pub fn layer_levels(layers: &[LayerRow], report: &mut Report) -> Result<(), Memory>
    ensures { OnOk result (report.new ≡ report.old ++ levels_wrong layers.now) }
{
    for row in layers {
        layer_level(row.layer_id, row.level, row.child_id, report)?;
    }
    Ok(())
}

/// Whether a layer is one level above another, of the same type.
fn is_one_above(row: &LayerRow, below: &LayerRow) -> bool
    ensures { result ≡ is_above row.now (Some below.now) }
{
    u64::from(row.level) == u64::from(below.level) + 1
        && row.feature_type.number() == below.feature_type.number()
}

/// Whether the child is listed, is one level below and has the same type.
fn is_right_child(row: &LayerRow, child: LayerId, layers: &Rows<LayerRow>) -> bool
    ensures { result ≡ is_above row.now (row_at layer_id_of layers.now child) }
{
    match layers.get(child.0) {
        None => false,
        Some(below) => is_one_above(row, below),
    }
}

/// Puts a line, where the child of a layer isn't right.
fn layer_child(row: &LayerRow, layers: &Rows<LayerRow>, report: &mut Report) -> Result<(), Memory>
    ensures { OnOk result (report.new ≡ report.old ++ wrong_child layers.now row.now row.now.child_id) }
{
    let layer = row.layer_id;
    match row.child_id {
        None => Ok(()),
        Some(child) => {
            let wrong = !is_right_child(row, child, layers);
            report.push_if(wrong, ReportLine::LayerChildWrong { layer, child })
        }
    }
}

pub fn layer_children(
    rows: &[LayerRow],
    layers: &Rows<LayerRow>,
    report: &mut Report,
) -> Result<(), Memory>
    ensures { OnOk result (report.new ≡ report.old ++ children_wrong layers.now rows.now) }
{
    for row in rows {
        layer_child(row, layers, report)?;
    }
    Ok(())
}

/// One line for each of these layers, all behind the first one, that has its name.
fn layers_of_name(row: &LayerRow, others: &[LayerRow], report: &mut Report) -> Result<(), Memory>
    ensures { OnOk result (report.new ≡ report.old ++ taken_names row.now others.now) }
{
    let layer = row.layer_id;
    for other in others {
        let taken = row.name.as_bytes() == other.name.as_bytes();
        let other = other.layer_id;
        report.push_if(taken, ReportLine::LayerNameTaken { layer, other })?;
    }
    Ok(())
}

/// One line for each two layers that have one name, the smaller id first.
pub fn layer_names(layers: &[LayerRow], report: &mut Report) -> Result<(), Memory>
    ensures { OnOk result (report.new ≡ report.old ++ names_taken layers.now) }
{
    for index in 0..layers.len() {
        let (_, others) = layers.split_at(index);
        layers_of_name(&layers[index], &others[1..], report)?;
    }
    Ok(())
}

/// Puts a line, where the layer of a feature isn't listed.
fn feature_without_layer(
    feature: FeatureId,
    layer: LayerId,
    layers: &Rows<LayerRow>,
    report: &mut Report,
) -> Result<(), Memory>
    ensures { OnOk result (report.new ≡ report.old ++ missing_layer layers.now feature layer) }
{
    let missing = layers.get(layer.0).is_none();
    report.push_if(missing, ReportLine::FeatureWithoutLayer { feature, layer })
}

pub fn features_without_layer(
    features: &[FeatureRow],
    layers: &Rows<LayerRow>,
    report: &mut Report,
) -> Result<(), Memory>
    ensures { OnOk result (report.new ≡ report.old ++ without_layer layers.now features.now) }
{
    for row in features {
        feature_without_layer(row.feature_id, row.layer_id, layers, report)?;
    }
    Ok(())
}
