// The rules by which an edge is split.
ghost use Rattle.std.specs.Prelude.{◌≡◌, IfOk, if◌then◌else◌};
ghost use Rattle.topo_base.specs.declared.edit.Edit.{Edit};
ghost use Rattle.drawing.specs.Drawing.{edge_at};
ghost use Rattle.drawing.specs.Edits.{split_edge};
ghost use Rattle.drawing.specs.Tables.{drawn, drawn_edge, tables_of};
ghost use Rattle.read_set.specs.Edited.{AnswersOutcome, IsTried};
ghost use Rattle.read_set.specs.Kept.{Keeps};
ghost use Rattle.read_set.specs.Ready.{IsReady};
ghost use Rattle.ring_laws.specs.Ringed.{IsRinged};
ghost use Rattle.edge_split.specs.Splitting.{IsCut, done_by};

use crate::splitting::{split_mod, split_new};
use grid_lines::is_inside_line;
use read_set::{EditEnd, Edited, Tried};
use std::alloc::Global;
use std::sync::ledger::Ledger;
use topo_base::{EdgeId, EdgeRow, Grid, Memory, Rule, Steps};
use topo_tables::Tables;

/// The draft of an edge that may be split at the point: both of its parts are new, or it is the first.
fn split<L: Ledger>(
    alloc: Global,
    tables: &Tables,
    row: &EdgeRow,
    point: Grid,
    anew: bool,
    steps: &mut Steps<L>,
) -> Result<Tried, Memory>
    requires ready { IsReady (drawn tables.now.rows) }
    requires ringed { IsRinged (drawn tables.now.rows) }
    requires stands { tables.now.rows ≡ tables_of (drawn tables.now.rows) }
    requires cut { IsCut (drawn tables.now.rows) row.now point }
    ensures { IfOk result (λ d. IsTried (drawn tables.now.rows) (done_by anew (drawn tables.now.rows) (drawn_edge row.now) point) d) }
{
    if anew {
        split_new(alloc, tables, row, point, steps)
    } else {
        split_mod(alloc, tables, row, point, steps)
    }
}

/// What ST_ModEdgeSplit of SQL/MM Topo-Geo answers on the tables where an edge is split at a point, or
/// ST_NewEdgesSplit, where both parts are to be new: the row writes that make the tables follow it, and a
/// reply that names the node and each part that is new. Refused has the first rule that refuses it, of
/// NoEdge and NotOnEdge; Memory comes only where none does. Nothing is changed.
pub fn split_edge<L: Ledger>(
    alloc: Global,
    tables: &Tables,
    edge: EdgeId,
    point: Grid,
    anew: bool,
    steps: &mut Steps<L>,
) -> Result<Edited, EditEnd>
    requires ready { IsReady (drawn tables.now.rows) }
    requires ringed { IsRinged (drawn tables.now.rows) }
    requires stands { tables.now.rows ≡ tables_of (drawn tables.now.rows) }
    ensures answer { AnswersOutcome (drawn tables.now.rows)
        (split_edge anew (drawn tables.now.rows) (edge_at (drawn tables.now.rows) edge) point) result }
    ensures kept { Keeps (drawn tables.now.rows) (if anew then Edit.NewEdgesSplit edge point else Edit.ModEdgeSplit edge point) result }
{
    let Some(row) = tables.edge(edge, steps) else {
        return Err(EditEnd::Refused(Rule::NoEdge));
    };
    if !is_inside_line(point, &row.geom, steps) {
        return Err(EditEnd::Refused(Rule::NotOnEdge));
    }
    let tried = split(alloc, tables, row, point, anew, steps)?;
    Ok(tried.into_edited())
}
