// What is wrong with points and lines.
ghost use Rattle.std.specs.Prelude.{◌≡◌, ◌∷◌, [], ◌++◌, List, map, OnOk};
ghost use Rattle.validate_topology.specs.declared.lines.ReportLine.{ReportLine as LineValue};
ghost use Rattle.validate_topology.specs.PlainLines.{HasPlainLines, coincident, crossed_edge, crossed_node, ends_mismatched, has_point, not_simple, starts_mismatched};
ghost use Rattle.validate_topology.specs.Raw.{tables_in};

use crate::lines::{Report, ReportLine};
use crate::pairs::IdPair;
use crate::raw::RawTables;
use crate::sweep::conflicts_of;
use crate::table::Rows;
use grid_lines::{first_of, is_same_point, is_simple, last_of};
use std::alloc::Global;
use std::sync::ledger::Ledger;
use topo_base::{EdgeId, EdgeRow, Grid, Memory, NodeId, NodeRow, Steps};

/// Whether the node has this point. A node that isn't listed has none.
fn is_at(nodes: &Rows<NodeRow>, node: NodeId, point: &Grid) -> bool
    ensures { result ≡ has_point nodes.now node point.now }
{
    match nodes.get(node.0) {
        None => false,
        Some(row) => is_same_point(&row.geom, point),
    }
}

fn edge_start(row: &EdgeRow, nodes: &Rows<NodeRow>, report: &mut Report) -> Result<(), Memory>
    ensures { OnOk result (report.new ≡ report.old ++ starts_mismatched nodes.now (row.now ∷ [])) }
{
    let (edge, node) = (row.edge_id, row.start_node);
    let wrong = !is_at(nodes, node, &first_of(&row.geom));
    report.push_if(wrong, ReportLine::EdgeStartMismatch { edge, node })
}

fn edges_start(edges: &[EdgeRow], nodes: &Rows<NodeRow>, report: &mut Report) -> Result<(), Memory>
    ensures { OnOk result (report.new ≡ report.old ++ starts_mismatched nodes.now edges.now) }
{
    for row in edges {
        edge_start(row, nodes, report)?;
    }
    Ok(())
}

fn edge_end(row: &EdgeRow, nodes: &Rows<NodeRow>, report: &mut Report) -> Result<(), Memory>
    ensures { OnOk result (report.new ≡ report.old ++ ends_mismatched nodes.now (row.now ∷ [])) }
{
    let (edge, node) = (row.edge_id, row.end_node);
    let wrong = !is_at(nodes, node, &last_of(&row.geom));
    report.push_if(wrong, ReportLine::EdgeEndMismatch { edge, node })
}

fn edges_end(edges: &[EdgeRow], nodes: &Rows<NodeRow>, report: &mut Report) -> Result<(), Memory>
    ensures { OnOk result (report.new ≡ report.old ++ ends_mismatched nodes.now edges.now) }
{
    for row in edges {
        edge_end(row, nodes, report)?;
    }
    Ok(())
}

fn edges_not_simple<L: Ledger>(
    edges: &[EdgeRow],
    report: &mut Report,
    steps: &mut Steps<L>,
) -> Result<(), Memory>
    ensures { OnOk result (report.new ≡ report.old ++ not_simple edges.now) }
{
    for row in edges {
        let edge = row.edge_id;
        let wrong = !is_simple(&row.geom, steps);
        report.push_if(wrong, ReportLine::EdgeNotSimple { edge })?;
    }
    Ok(())
}

fn coincident_nodes(pairs: &[IdPair], report: &mut Report) -> Result<(), Memory>
    ensures { OnOk result (report.new ≡ report.old ++ map coincident pairs.now) }
{
    for pair in pairs {
        let (node, other) = (NodeId(pair.first), NodeId(pair.second));
        report.push(ReportLine::CoincidentNodes { node, other })?;
    }
    Ok(())
}

fn edges_cross_node(pairs: &[IdPair], report: &mut Report) -> Result<(), Memory>
    ensures { OnOk result (report.new ≡ report.old ++ map crossed_node pairs.now) }
{
    for pair in pairs {
        let (edge, node) = (EdgeId(pair.first), NodeId(pair.second));
        report.push(ReportLine::EdgeCrossesNode { edge, node })?;
    }
    Ok(())
}

fn edges_cross_edge(pairs: &[IdPair], report: &mut Report) -> Result<(), Memory>
    ensures { OnOk result (report.new ≡ report.old ++ map crossed_edge pairs.now) }
{
    for pair in pairs {
        let (edge, other) = (EdgeId(pair.first), EdgeId(pair.second));
        report.push(ReportLine::EdgeCrossesEdge { edge, other })?;
    }
    Ok(())
}

/// The lines on the ends and the lines of edges.
fn edge_lines<L: Ledger>(
    edges: &[EdgeRow],
    nodes: &Rows<NodeRow>,
    report: &mut Report,
    steps: &mut Steps<L>,
) -> Result<(), Memory>
    ensures { OnOk result (report.new ≡ report.old ++ (starts_mismatched nodes.now edges.now ++ ends_mismatched nodes.now edges.now ++ not_simple edges.now)) }
{
    edges_start(edges, nodes, report)?;
    edges_end(edges, nodes, report)?;
    edges_not_simple(edges, report, steps)
}

/// The lines on points and lines.
pub fn plain_lines<L: Ledger>(
    alloc: Global,
    raw: &RawTables,
    report: &mut Report,
    steps: &mut Steps<L>,
) -> Result<(), Memory>
    ensures { OnOk result ((lines : List LineValue) × (HasPlainLines (tables_in raw.now) lines × (report.new ≡ report.old ++ lines))) }
{
    let edges = raw.edges.rows();
    let conflicts = conflicts_of(alloc, raw.nodes.rows(), edges, steps)?;
    coincident_nodes(&conflicts.nodes, report)?;
    edge_lines(edges, &raw.nodes, report, steps)?;
    edges_cross_node(&conflicts.inside, report)?;
    edges_cross_edge(&conflicts.edges, report)?;
    Ok(())
}
