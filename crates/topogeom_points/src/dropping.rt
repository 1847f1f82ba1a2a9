// Features that go.
ghost use Rattle.std.specs.Prelude.{◌≡◌, ◌==◌, ◌∷◌, ◌++◌, [], IfOk, IsTrue, filter, map};
ghost use Rattle.std.specs.List.{list_any};
ghost use Rattle.topo_base.specs.declared.rows.RelationRow.{RelationRow as RowValue};
ghost use Rattle.topo_base.specs.declared.edit.Edit.{Edit};
ghost use Rattle.drawing.specs.Drawing.{feature_at};
ghost use Rattle.drawing.specs.Edits.{drop_feature as drops_feature};
ghost use Rattle.drawing.specs.Relations.{lists_feature as is_lister};
ghost use Rattle.drawing.specs.Tables.{drawn};
ghost use Rattle.drawing.specs.Writable.{has_feature_row};
ghost use Rattle.read_set.specs.Edited.{AnswersOutcome, Follows};
ghost use Rattle.read_set.specs.Kept.{Keeps};
ghost use Rattle.read_set.specs.Ready.{IsReady};
ghost use Rattle.topogeom_points.specs.Rows.{drop_write as write_of, feature_less, rows_go};

use read_set::{EditEnd, Edited, one_id};
use relation_rows::is_hierarchical;
use std::alloc::Global;
use std::sync::ledger::Ledger;
use topo_base::{Element, FeatureId, Memory, RelationRow, RowId, RowWrite, Rule, Steps};
use topo_tables::{Tables, Writes};

/// Whether the row lists the feature.
fn lists_feature<L: Ledger>(
    tables: &Tables,
    feature: FeatureId,
    row: &RelationRow,
    steps: &mut Steps<L>,
) -> bool
    ensures { result ≡ is_lister (drawn tables.now.rows) feature row.now }
{
    steps.tick();
    row.element_id == feature.0 && is_hierarchical(tables, row.layer_id, steps)
}

/// Whether another feature lists the feature.
fn is_used<L: Ledger>(
    tables: &Tables,
    feature: FeatureId,
    rows: &[RelationRow],
    steps: &mut Steps<L>,
) -> bool
    ensures { result ≡ list_any (is_lister (drawn tables.now.rows) feature) rows.now }
{
    for row in rows {
        if lists_feature(tables, feature, row, steps) {
            return true;
        }
    }
    false
}

/// Whether the row is of the feature.
fn is_of(feature: FeatureId, row: &RelationRow) -> bool
    ensures { result ≡ (row.now.topogeo_id == feature) }
{
    row.topogeo_id.0 == feature.0
}

/// The write by which a row goes.
fn row_goes(row: &RelationRow) -> RowWrite
    ensures { result ≡ write_of row.now }
{
    RowWrite::DropRow {
        feature: RowId::Old(row.topogeo_id.0),
        layer: RowId::Old(row.layer_id.0),
        element: RowId::Old(row.element_id),
        element_type: row.element_type,
    }
}

/// The writes by which a feature and its rows go.
fn going_writes<L: Ledger>(
    alloc: Global,
    feature: FeatureId,
    rows: &[RelationRow],
    steps: &mut Steps<L>,
) -> Result<Writes, Memory>
    ensures { IfOk result (λ ws. ws ≡ rows_go feature rows.now ++ RowWrite.DropFeature (RowId.Old feature) ∷ []) }
{
    let mut writes = Writes::new(alloc);
    for row in rows {
        steps.tick();
        if is_of(feature, row) {
            writes.push(row_goes(row))?;
        }
    }
    writes.push(RowWrite::DropFeature {
        feature: RowId::Old(feature.0),
    })?;
    Ok(writes)
}

/// What makes a feature go that no other feature lists.
fn going<L: Ledger>(
    alloc: Global,
    tables: &Tables,
    feature: FeatureId,
    steps: &mut Steps<L>,
) -> Result<Edited, Memory>
    requires ready { IsReady (drawn tables.now.rows) }
    requires there { IsTrue (has_feature_row tables.now.rows feature) }
    ensures { IfOk result (λ d. Follows (drawn tables.now.rows) (feature_less (drawn tables.now.rows) feature) d) }
{
    Ok(Edited {
        writes: going_writes(alloc, feature, tables.relations(), steps)?,
        ids: one_id(Element::Feature(feature)),
    })
}

/// A feature goes with its rows, by the rules NoFeature and FeatureUsed, which is our own.
pub fn drop_feature<L: Ledger>(
    alloc: Global,
    tables: &Tables,
    feature: FeatureId,
    steps: &mut Steps<L>,
) -> Result<Edited, EditEnd>
    requires ready { IsReady (drawn tables.now.rows) }
    ensures answer { AnswersOutcome (drawn tables.now.rows)
        (drops_feature (drawn tables.now.rows) (feature_at (drawn tables.now.rows) feature)) result }
    ensures kept { Keeps (drawn tables.now.rows) (Edit.DropFeature feature) result }
{
    let Some(row) = tables.feature(feature, steps) else {
        return Err(EditEnd::Refused(Rule::NoFeature));
    };
    let feature = row.feature_id;
    if is_used(tables, feature, tables.relations(), steps) {
        return Err(EditEnd::Refused(Rule::FeatureUsed));
    }
    Ok(going(alloc, tables, feature, steps)?)
}
