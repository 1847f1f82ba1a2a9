// The stages of a report.
ghost use Rattle.std.specs.Prelude.{◌≡◌, ◌<◌, [], ◌++◌, IsTrue, OnOk, IfOk};
ghost use Rattle.drawing.specs.Plain.{IsPlain};
ghost use Rattle.drawing.specs.Subdivision.{faces_have_shells, rings_have_one_face};
ghost use Rattle.drawing.specs.Tables.{drawn};
ghost use Rattle.validate_topology.specs.PlainLines.{HasPlainLines};
ghost use Rattle.validate_topology.specs.Raw.{tables_in};
ghost use Rattle.validate_topology.specs.References.{drawing_references as lines_of_drawing, layer_references as lines_of_layers, past_next as lines_past_next};
ghost use Rattle.validate_topology.specs.RelationLines.{AreReferenceLines};
ghost use Rattle.validate_topology.specs.Stages.{AreFaceLines, IsReport};

use crate::counters::{
    edges_past_next, faces_past_next, features_past_next, layers_past_next, nodes_past_next,
    universal_past_next,
};
use crate::layer_lines::{features_without_layer, layer_children, layer_levels, layer_names};
use crate::lines::Report;
use crate::link_lines::link_lines;
use crate::place_lines::place_lines;
use crate::plain_lines::plain_lines;
use crate::raw::RawTables;
use crate::references::{
    edges_without_face, edges_without_next, edges_without_node, nodes_without_face,
};
use crate::relation_lines::relation_lines;
use crate::ring_lines::ring_lines;
use crate::sides::sides_of;
use crate::stars::followers_of;
use crate::walks::walks_of;
use std::alloc::Global;
use std::marker::Brand;
use std::sync::ledger::{Blank, Ledger};
use topo_base::{Memory, Steps};

fn past_next(raw: &RawTables, report: &mut Report) -> Result<(), Memory>
    ensures { OnOk result (report.new ≡ report.old ++ lines_past_next (tables_in raw.now)) }
{
    nodes_past_next(raw.nodes.rows(), raw.next.node, report)?;
    edges_past_next(raw.edges.rows(), raw.next.edge, report)?;
    universal_past_next(raw.next.face, report)?;
    faces_past_next(raw.faces.rows(), raw.next.face, report)?;
    layers_past_next(raw.layers.rows(), raw.next.layer, report)?;
    features_past_next(raw.features.rows(), raw.next.feature, report)
}

fn drawing_references(raw: &RawTables, report: &mut Report) -> Result<(), Memory>
    ensures { OnOk result (report.new ≡ report.old ++ lines_of_drawing (tables_in raw.now)) }
{
    nodes_without_face(raw.nodes.rows(), &raw.faces, report)?;
    edges_without_node(raw.edges.rows(), &raw.nodes, report)?;
    edges_without_face(raw.edges.rows(), &raw.faces, report)?;
    edges_without_next(raw.edges.rows(), &raw.edges, report)
}

fn layer_references(raw: &RawTables, report: &mut Report) -> Result<(), Memory>
    ensures { OnOk result (report.new ≡ report.old ++ lines_of_layers (tables_in raw.now)) }
{
    layer_levels(raw.layers.rows(), report)?;
    layer_children(raw.layers.rows(), &raw.layers, report)?;
    layer_names(raw.layers.rows(), report)?;
    features_without_layer(raw.features.rows(), &raw.layers, report)
}

/// The lines on ids and references.
fn reference_lines(alloc: Global, raw: &RawTables, report: &mut Report) -> Result<(), Memory>
    requires { report.old ≡ [] }
    ensures { OnOk result (AreReferenceLines (tables_in raw.now) report.new) }
{
    past_next(raw, report)?;
    drawing_references(raw, report)?;
    layer_references(raw, report)?;
    relation_lines(alloc, raw, report)
}

/// The lines on rings and faces, of tables with right references and plain lines.
fn face_lines<L: Ledger>(
    alloc: Global,
    raw: &RawTables,
    report: &mut Report,
    steps: &mut Steps<L>,
) -> Result<(), Memory>
    requires none { report.old ≡ [] }
    requires references { AreReferenceLines (tables_in raw.now) [] }
    requires points { HasPlainLines (tables_in raw.now) [] }
    ensures { OnOk result (AreFaceLines (tables_in raw.now) report.new) }
{
    let _ = raw.nodes.rows();
    let edges = raw.edges.rows();
    let sides = sides_of(alloc, edges)?;
    let followers = followers_of(alloc, edges)?;
    link_lines(alloc, &raw.nodes, edges, &sides, &followers, report)?;
    if !report.is_empty() {
        return Ok(());
    }
    let walks = walks_of(alloc, &sides, &followers)?;
    ring_lines(alloc, &raw.faces, &sides, &followers, &walks, report)?;
    if !report.is_empty() {
        return Ok(());
    }
    let nodes = raw.nodes.rows();
    place_lines(alloc, &raw.edges, nodes, &raw.faces, &walks, report, steps)?;
    Ok(())
}

fn counted_report<L: Ledger>(alloc: Global, raw: &RawTables, blank: Blank) -> Result<Report, Memory>
    requires name { blank.name ≡ L.name }
    requires parts { blank.parts ≡ L.parts }
    requires some { 0 < blank.parts }
    ensures { IfOk result (IsReport (tables_in raw.now)) }
{
    let mut steps = Steps::<L>::new(blank);
    let mut report = Report::new(alloc);
    reference_lines(alloc, raw, &mut report)?;
    if !report.is_empty() {
        return Ok(report);
    }
    plain_lines(alloc, raw, &mut report, &mut steps)?;
    if !report.is_empty() {
        return Ok(report);
    }
    face_lines(alloc, raw, &mut report, &mut steps)?;
    Ok(report)
}

/// What is wrong with the tables, and where: exactly the lines of the first stage that has any. Tables without lines
/// stand for a plain drawing whose rings have one face each, and whose faces have one shell each and face 0 none.
pub fn report(alloc: Global, raw: &RawTables) -> Result<Report, Memory>
    ensures lines { IfOk result (IsReport (tables_in raw.now)) }
    ensures plain { IfOk result (λ r. r ≡ [] → IsPlain (drawn (tables_in raw.now))) }
    ensures rings { IfOk result (λ r. r ≡ [] → IsTrue (rings_have_one_face (drawn (tables_in raw.now)))) }
    ensures shells { IfOk result (λ r. r ≡ [] → IsTrue (faces_have_shells (drawn (tables_in raw.now)))) }
{
    let _ = raw.nodes.rows();
    counted_report::<Brand>(alloc, raw, Blank::new(1))
}
