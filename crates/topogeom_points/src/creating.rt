// Features that come.
ghost use Rattle.std.specs.Prelude.{◌≡◌, ◌+◌, ◌<◌, ◌^◌, ◌∷◌, ◌++◌, [], IfOk, IsTrue, OnOk, None};
ghost use Rattle.topo_base.specs.declared.edit.Edit.{Edit};
ghost use Rattle.drawing.specs.Drawing.{layer_at};
ghost use Rattle.drawing.specs.Edits.{with_feature as feature_comes, create_topo_geom};
ghost use Rattle.drawing.specs.Tables.{drawn};
ghost use Rattle.drawing.specs.Writable.{has_layer_row};
ghost use Rattle.read_set.specs.Edited.{AnswersOutcome, Follows};
ghost use Rattle.read_set.specs.Kept.{Keeps};
ghost use Rattle.read_set.specs.Ready.{IsReady};
ghost use Rattle.topogeom_points.specs.Rows.{rows_come as rows_of_pairs, row_write as write_of};

use crate::pairs::elements_rule;
use read_set::{EditEnd, Edited, one_id};
use std::alloc::Global;
use std::sync::ledger::Ledger;
use topo_base::{
    Element, FeatureId, LayerId, LayerRow, Memory, Pair, RowId, RowWrite, Rule, Steps,
};
use topo_tables::{Tables, Writes};

/// The write by which a feature lists an element.
pub fn row_write(feature: u32, layer: LayerId, pair: &Pair) -> RowWrite
    ensures { result ≡ write_of feature layer pair.now }
{
    RowWrite::AddRow {
        feature: RowId::Old(feature),
        layer: RowId::Old(layer.0),
        element: RowId::Old(pair.id),
        element_type: pair.element_type,
    }
}

/// The writes by which a new feature lists these elements.
fn row_writes(alloc: Global, feature: u32, layer: LayerId, pairs: &[Pair]) -> Result<Writes, Memory>
    ensures { IfOk result (λ ws. ws ≡ RowWrite.AddFeature (RowId.Old feature) (RowId.Old layer) ∷ rows_of_pairs feature layer pairs.now) }
{
    let mut writes = Writes::new(alloc);
    writes.push(RowWrite::AddFeature {
        feature: RowId::Old(feature),
        layer: RowId::Old(layer.0),
    })?;
    for pair in pairs {
        writes.push(row_write(feature, layer, pair))?;
    }
    Ok(writes)
}

/// A feature of the layer comes, which lists these elements.
fn with_feature(
    alloc: Global,
    tables: &Tables,
    layer: &LayerRow,
    pairs: &[Pair],
) -> Result<Edited, Memory>
    requires ready { IsReady (drawn tables.now.rows) }
    requires there { IsTrue (has_layer_row tables.now.rows layer.now.layer_id) }
    ensures { IfOk result (λ d. Follows (drawn tables.now.rows) (feature_comes (drawn tables.now.rows) layer.now pairs.now None) d) }
{
    let feature = tables.counters().feature;
    let writes = row_writes(alloc, feature, layer.layer_id, pairs)?;
    Ok(Edited {
        writes,
        ids: one_id(Element::Feature(FeatureId(feature))),
    })
}

/// A feature comes, by the rules of CreateTopoGeom: NoLayer; and of each element in turn WrongKind, NoNode,
/// NoEdge, NoFace, NoFeature, UniverseElement, ElementListed.
pub fn create<L: Ledger>(
    alloc: Global,
    tables: &Tables,
    layer: LayerId,
    pairs: &[Pair],
    steps: &mut Steps<L>,
) -> Result<Edited, EditEnd>
    requires ready { IsReady (drawn tables.now.rows) }
    ensures answer { AnswersOutcome (drawn tables.now.rows)
        (create_topo_geom (drawn tables.now.rows) (layer_at (drawn tables.now.rows) layer) pairs.now) result }
    ensures kept { Keeps (drawn tables.now.rows) (Edit.CreateTopoGeom layer pairs.now) result }
{
    let Some(row) = tables.layer(layer, steps) else {
        return Err(EditEnd::Refused(Rule::NoLayer));
    };
    match elements_rule(tables, row, pairs, steps) {
        Some(rule) => Err(EditEnd::Refused(rule)),
        None => Ok(with_feature(alloc, tables, row, pairs)?),
    }
}
