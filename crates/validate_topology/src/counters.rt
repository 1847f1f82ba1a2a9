// The ids that aren't below the next id of their table.
ghost use Rattle.std.specs.Prelude.{◌≡◌, ◌∷◌, [], ◌++◌, OnOk};
ghost use Rattle.drawing.specs.Tables.{universal_face};
ghost use Rattle.validate_topology.specs.References.{edges_past_next as edges_past, faces_past_next as faces_past, features_past_next as features_past, layers_past_next as layers_past, nodes_past_next as nodes_past};

use crate::lines::{Report, ReportLine};
use topo_base::{EdgeRow, FaceId, FaceRow, FeatureRow, LayerRow, Memory, NodeRow};

pub fn nodes_past_next(rows: &[NodeRow], next: u32, report: &mut Report) -> Result<(), Memory>
    ensures { OnOk result (report.new ≡ report.old ++ nodes_past next rows.now) }
{
    for row in rows {
        let node = row.node_id;
        report.push_if(next <= node.0, ReportLine::NodePastNext { node })?;
    }
    Ok(())
}

pub fn edges_past_next(rows: &[EdgeRow], next: u32, report: &mut Report) -> Result<(), Memory>
    ensures { OnOk result (report.new ≡ report.old ++ edges_past next rows.now) }
{
    for row in rows {
        let edge = row.edge_id;
        report.push_if(next <= edge.0, ReportLine::EdgePastNext { edge })?;
    }
    Ok(())
}

pub fn faces_past_next(rows: &[FaceRow], next: u32, report: &mut Report) -> Result<(), Memory>
    ensures { OnOk result (report.new ≡ report.old ++ faces_past next rows.now) }
{
    for row in rows {
        let face = row.face_id;
        report.push_if(next <= face.0, ReportLine::FacePastNext { face })?;
    }
    Ok(())
}

/// Puts the line of face 0, which every next id but 0 is past.
pub fn universal_past_next(next: u32, report: &mut Report) -> Result<(), Memory>
    ensures { OnOk result (report.new ≡ report.old ++ faces_past next (universal_face ∷ [])) }
{
    let face = FaceId(0);
    report.push_if(next <= 0, ReportLine::FacePastNext { face })
}

pub fn layers_past_next(rows: &[LayerRow], next: u32, report: &mut Report) -> Result<(), Memory>
    ensures { OnOk result (report.new ≡ report.old ++ layers_past next rows.now) }
{
    for row in rows {
        let layer = row.layer_id;
        report.push_if(next <= layer.0, ReportLine::LayerPastNext { layer })?;
    }
    Ok(())
}

pub fn features_past_next(rows: &[FeatureRow], next: u32, report: &mut Report) -> Result<(), Memory>
    ensures { OnOk result (report.new ≡ report.old ++ features_past next rows.now) }
{
    for row in rows {
        let feature = row.feature_id;
        report.push_if(next <= feature.0, ReportLine::FeaturePastNext { feature })?;
    }
    Ok(())
}
