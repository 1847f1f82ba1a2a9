// The lines of a report.
ghost use Rattle.std.specs.Prelude.{◌≡◌, ◌++◌, ◌∷◌, OnOk, IfOk};
ghost use Rattle.table_dump.specs.ReportText.{error_word, first_word, named_word, report_line, report_text as text_of_report, second_word};

use edit_words::{push_count_word, push_dart_word, push_word};
use std::alloc::Global;
use topo_base::{Dart, Memory, Text};
use validate_topology::{Report, ReportLine};

/// What a line names: a row or a number, how many there are, a dart, or nothing.
#[derive(Clone, Copy, Debug)]
enum Named {
    Number(u32),
    Count(u64),
    Walked(Dart),
    Nothing,
}

/// The word of an error.
fn error_word(line: &ReportLine) -> &'static [u8]
    ensures { result.now ≡ error_word line.now }
{
    match line {
        ReportLine::NodePastNext { .. } => b"node_past_next",
        ReportLine::EdgePastNext { .. } => b"edge_past_next",
        ReportLine::FacePastNext { .. } => b"face_past_next",
        ReportLine::LayerPastNext { .. } => b"layer_past_next",
        ReportLine::FeaturePastNext { .. } => b"feature_past_next",
        ReportLine::NodeWithoutFace { .. } => b"node_without_face",
        ReportLine::EdgeWithoutNode { .. } => b"edge_without_node",
        ReportLine::EdgeWithoutFace { .. } => b"edge_without_face",
        ReportLine::EdgeWithoutNext { .. } => b"edge_without_next",
        ReportLine::LayerLevelWrong { .. } => b"layer_level_wrong",
        ReportLine::LayerChildWrong { .. } => b"layer_child_wrong",
        ReportLine::LayerNameTaken { .. } => b"layer_name_taken",
        ReportLine::FeatureWithoutLayer { .. } => b"feature_without_layer",
        ReportLine::RelationWithoutFeature { .. } => b"relation_without_feature",
        ReportLine::RelationKindWrong { .. } => b"relation_kind_wrong",
        ReportLine::RelationUniverse { .. } => b"relation_universe",
        ReportLine::RelationWithoutElement { .. } => b"relation_without_element",
        ReportLine::CoincidentNodes { .. } => b"coincident_nodes",
        ReportLine::EdgeStartMismatch { .. } => b"edge_start_mismatch",
        ReportLine::EdgeEndMismatch { .. } => b"edge_end_mismatch",
        ReportLine::EdgeNotSimple { .. } => b"edge_not_simple",
        ReportLine::EdgeCrossesNode { .. } => b"edge_crosses_node",
        ReportLine::EdgeCrossesEdge { .. } => b"edge_crosses_edge",
        ReportLine::NodeJoinedWithFace { .. } => b"node_joined_with_face",
        ReportLine::NodeIsolatedWithoutFace { .. } => b"node_isolated_without_face",
        ReportLine::NextLeftWrong { .. } => b"next_left_wrong",
        ReportLine::NextRightWrong { .. } => b"next_right_wrong",
        ReportLine::RingSidesDiffer { .. } => b"ring_sides_differ",
        ReportLine::FaceShells { .. } => b"face_shells",
        ReportLine::HoleInOtherFace { .. } => b"hole_in_other_face",
        ReportLine::NodeInOtherFace { .. } => b"node_in_other_face",
        ReportLine::FaceBoxWrong { .. } => b"face_box_wrong",
    }
}

/// What a line names first.
fn first_named(line: &ReportLine) -> Named
    ensures { named_word result ≡ first_word line.now }
{
    match line {
        ReportLine::NodePastNext { node } => Named::Number(node.0),
        ReportLine::EdgePastNext { edge } => Named::Number(edge.0),
        ReportLine::FacePastNext { face } => Named::Number(face.0),
        ReportLine::LayerPastNext { layer } => Named::Number(layer.0),
        ReportLine::FeaturePastNext { feature } => Named::Number(feature.0),
        ReportLine::NodeWithoutFace { node, .. } => Named::Number(node.0),
        ReportLine::EdgeWithoutNode { edge, .. } => Named::Number(edge.0),
        ReportLine::EdgeWithoutFace { edge, .. } => Named::Number(edge.0),
        ReportLine::EdgeWithoutNext { edge, .. } => Named::Number(edge.0),
        ReportLine::LayerLevelWrong { layer } => Named::Number(layer.0),
        ReportLine::LayerChildWrong { layer, .. } => Named::Number(layer.0),
        ReportLine::LayerNameTaken { layer, .. } => Named::Number(layer.0),
        ReportLine::FeatureWithoutLayer { feature, .. } => Named::Number(feature.0),
        ReportLine::RelationWithoutFeature { feature, .. } => Named::Number(feature.0),
        ReportLine::RelationKindWrong { feature, .. } => Named::Number(feature.0),
        ReportLine::RelationUniverse { feature } => Named::Number(feature.0),
        ReportLine::RelationWithoutElement { feature, .. } => Named::Number(feature.0),
        ReportLine::CoincidentNodes { node, .. } => Named::Number(node.0),
        ReportLine::EdgeStartMismatch { edge, .. } => Named::Number(edge.0),
        ReportLine::EdgeEndMismatch { edge, .. } => Named::Number(edge.0),
        ReportLine::EdgeNotSimple { edge } => Named::Number(edge.0),
        ReportLine::EdgeCrossesNode { edge, .. } => Named::Number(edge.0),
        ReportLine::EdgeCrossesEdge { edge, .. } => Named::Number(edge.0),
        ReportLine::NodeJoinedWithFace { node, .. } => Named::Number(node.0),
        ReportLine::NodeIsolatedWithoutFace { node } => Named::Number(node.0),
        ReportLine::NextLeftWrong { edge, .. } => Named::Number(edge.0),
        ReportLine::NextRightWrong { edge, .. } => Named::Number(edge.0),
        ReportLine::RingSidesDiffer { dart, .. } => Named::Walked(*dart),
        ReportLine::FaceShells { face, .. } => Named::Number(face.0),
        ReportLine::HoleInOtherFace { dart, .. } => Named::Walked(*dart),
        ReportLine::NodeInOtherFace { node, .. } => Named::Number(node.0),
        ReportLine::FaceBoxWrong { face } => Named::Number(face.0),
    }
}

/// What a line names second.
fn second_named(line: &ReportLine) -> Named
    ensures { named_word result ≡ second_word line.now }
{
    match line {
        ReportLine::NodePastNext { .. } => Named::Nothing,
        ReportLine::EdgePastNext { .. } => Named::Nothing,
        ReportLine::FacePastNext { .. } => Named::Nothing,
        ReportLine::LayerPastNext { .. } => Named::Nothing,
        ReportLine::FeaturePastNext { .. } => Named::Nothing,
        ReportLine::NodeWithoutFace { face, .. } => Named::Number(face.0),
        ReportLine::EdgeWithoutNode { node, .. } => Named::Number(node.0),
        ReportLine::EdgeWithoutFace { face, .. } => Named::Number(face.0),
        ReportLine::EdgeWithoutNext { next, .. } => Named::Walked(*next),
        ReportLine::LayerLevelWrong { .. } => Named::Nothing,
        ReportLine::LayerChildWrong { child, .. } => Named::Number(child.0),
        ReportLine::LayerNameTaken { other, .. } => Named::Number(other.0),
        ReportLine::FeatureWithoutLayer { layer, .. } => Named::Number(layer.0),
        ReportLine::RelationWithoutFeature { layer, .. } => Named::Number(layer.0),
        ReportLine::RelationKindWrong { element_type, .. } => Named::Number(*element_type),
        ReportLine::RelationUniverse { .. } => Named::Number(0),
        ReportLine::RelationWithoutElement { element, .. } => Named::Number(*element),
        ReportLine::CoincidentNodes { other, .. } => Named::Number(other.0),
        ReportLine::EdgeStartMismatch { node, .. } => Named::Number(node.0),
        ReportLine::EdgeEndMismatch { node, .. } => Named::Number(node.0),
        ReportLine::EdgeNotSimple { .. } => Named::Nothing,
        ReportLine::EdgeCrossesNode { node, .. } => Named::Number(node.0),
        ReportLine::EdgeCrossesEdge { other, .. } => Named::Number(other.0),
        ReportLine::NodeJoinedWithFace { face, .. } => Named::Number(face.0),
        ReportLine::NodeIsolatedWithoutFace { .. } => Named::Nothing,
        ReportLine::NextLeftWrong { next, .. } => Named::Walked(*next),
        ReportLine::NextRightWrong { next, .. } => Named::Walked(*next),
        ReportLine::RingSidesDiffer { next, .. } => Named::Walked(*next),
        ReportLine::FaceShells { count, .. } => Named::Count(*count),
        ReportLine::HoleInOtherFace { face, .. } => Named::Number(face.0),
        ReportLine::NodeInOtherFace { face, .. } => Named::Number(face.0),
        ReportLine::FaceBoxWrong { .. } => Named::Nothing,
    }
}

fn push_named(text: &mut Text, named: Named) -> Result<(), Memory>
    ensures { OnOk result (text.new ≡ text.old ++ 32 ∷ named_word named) }
{
    match named {
        Named::Number(n) => push_count_word(text, u64::from(n)),
        Named::Count(n) => push_count_word(text, n),
        Named::Walked(dart) => push_dart_word(text, dart),
        Named::Nothing => push_word(text, b"-"),
    }
}

fn push_line(text: &mut Text, line: &ReportLine) -> Result<(), Memory>
    ensures { OnOk result (text.new ≡ text.old ++ report_line line.now) }
{
    text.push_bytes(error_word(line))?;
    push_named(text, first_named(line))?;
    push_named(text, second_named(line))?;
    text.push(b'\n')
}

/// The lines of a report: an error, and what it names, `-` where that is nothing.
pub fn report_text(alloc: Global, report: &Report) -> Result<Text, Memory>
    ensures { IfOk result (λ t. t ≡ text_of_report report.now) }
{
    let mut text = Text::new(alloc);
    for line in report.lines() {
        push_line(&mut text, line)?;
    }
    Ok(text)
}
