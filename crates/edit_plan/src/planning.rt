// The plan of each edit.
ghost use Rattle.std.specs.Prelude.{◌≡◌, IfOk, IsTrue};
ghost use Rattle.read_set.specs.Answered.{IsAnswered};
ghost use Rattle.read_set.specs.Edited.{AnswersOutcome};
ghost use Rattle.read_set.specs.Planned.{IsEditor};
ghost use Rattle.read_set.specs.Ready.{IsReady};
ghost use Rattle.read_set.specs.Kept.{Keeps, KeepsDrawing};
ghost use Rattle.subdivision_laws.specs.Subdivided.{IsSubdivided};
ghost use Rattle.drawing.specs.Accepted.{keeps_limits};
ghost use Rattle.drawing.specs.Step.{step};
ghost use Rattle.drawing.specs.Tables.{drawn, tables_of};

use edge_heal::heal_edges;
use edge_split::split_edge;
use face_merge::remove_edge;
use face_split::add_edge;
use iso_edits::{add_iso_edge, add_iso_node, move_iso_node, remove_iso_edge, remove_iso_node};
use read_set::{EditEnd, Edited, Plan, PlanEnd};
use std::alloc::Global;
use std::sync::ledger::Ledger;
use topo_base::{Edit, Pair, Steps};
use topo_tables::{Excerpt, Tables};
use topogeom_points::{add_element, add_layer, create, drop_feature, remove_element};

/// The row writes by which tables follow the edit, and what its reply names, by the rules of its function in the
/// standard. Refused comes exactly where a rule refuses it: by that rule. Nothing is changed. The writes keep a planar
/// subdivision one, and the points of features, where the edit is within the limits.
pub fn edited<L: Ledger>(
    alloc: Global,
    tables: &Tables,
    edit: &Edit,
    steps: &mut Steps<L>,
) -> Result<Edited, EditEnd>
    requires ready { IsReady (drawn tables.now.rows) }
    requires subdivided { IsSubdivided (drawn tables.now.rows) }
    requires stands { tables.now.rows ≡ tables_of (drawn tables.now.rows) }
    ensures answer { AnswersOutcome (drawn tables.now.rows) (step (drawn tables.now.rows) edit.now) result }
    ensures kept { Keeps (drawn tables.now.rows) edit.now result }
{
    match edit {
        Edit::AddIsoNode { face, geom } => add_iso_node(alloc, tables, *face, *geom, steps),
        Edit::MoveIsoNode { node, geom } => move_iso_node(alloc, tables, *node, *geom, steps),
        Edit::RemoveIsoNode { node } => remove_iso_node(alloc, tables, *node, steps),
        Edit::AddIsoEdge { start, end, line } => add_iso_edge(
            alloc, tables, *start, *end, line, steps,
        ),
        Edit::RemoveIsoEdge { edge } => remove_iso_edge(alloc, tables, *edge, steps),
        Edit::AddEdgeModFace { start, end, line } => {
            add_edge(alloc, tables, *start, *end, line, false, steps)
        }
        Edit::AddEdgeNewFaces { start, end, line } => {
            add_edge(alloc, tables, *start, *end, line, true, steps)
        }
        Edit::RemEdgeModFace { edge } => remove_edge(alloc, tables, *edge, false, steps),
        Edit::RemEdgeNewFace { edge } => remove_edge(alloc, tables, *edge, true, steps),
        Edit::ModEdgeSplit { edge, geom } => split_edge(alloc, tables, *edge, *geom, false, steps),
        Edit::NewEdgesSplit { edge, geom } => split_edge(alloc, tables, *edge, *geom, true, steps),
        Edit::ModEdgeHeal { edge, other } => {
            heal_edges(alloc, tables, *edge, *other, false, steps)
        }
        Edit::NewEdgeHeal { edge, other } => heal_edges(alloc, tables, *edge, *other, true, steps),
        Edit::AddLayer { name, kind, child } => add_layer(
            alloc, tables, name, *kind, *child, steps,
        ),
        Edit::CreateTopoGeom { layer, elements } => {
            create(alloc, tables, *layer, elements.pairs(), steps)
        }
        Edit::AddElement {
            feature,
            id,
            element_type,
        } => {
            let pair = Pair {
                id: *id,
                element_type: *element_type,
            };
            add_element(alloc, tables, *feature, pair, steps)
        }
        Edit::RemElement {
            feature,
            id,
            element_type,
        } => {
            let pair = Pair {
                id: *id,
                element_type: *element_type,
            };
            remove_element(alloc, tables, *feature, pair, steps)
        }
        Edit::DropFeature { feature } => drop_feature(alloc, tables, *feature, steps),
    }
}

/// Plans the edit on an excerpt of whole tables, by the rules of its function in the standard. Refused
/// comes exactly where a rule refuses it on the excerpt's drawing: by that rule, with the excerpt's
/// front. Nothing is changed. The plan's writes keep a planar subdivision one, and the points of features,
/// where the edit is within the limits.
pub fn plan<L: Ledger>(
    alloc: Global,
    excerpt: Excerpt,
    edit: Edit,
    editor: u32,
    steps: &mut Steps<L>,
) -> Result<Plan, PlanEnd>
    requires editor { IsEditor editor }
    requires ready { IsReady (drawn excerpt.rows) }
    requires subdivided { IsSubdivided (drawn excerpt.rows) }
    requires stands { excerpt.rows ≡ tables_of (drawn excerpt.rows) }
    ensures answer { IsAnswered editor edit excerpt result }
    ensures kept { IfOk result (λ p. IsTrue (keeps_limits edit) → KeepsDrawing (drawn excerpt.rows) edit p.writes) }
{
    match edited(alloc, excerpt.tables(), &edit, steps) {
        Ok(edited) => Ok(Plan::of(editor, edit, excerpt, edited.writes, edited.ids)),
        Err(EditEnd::Refused(rule)) => Err(PlanEnd::Refused {
            rule,
            front: excerpt.front(),
        }),
        Err(EditEnd::Memory) => Err(PlanEnd::Memory),
    }
}
