// Numbers that relation rows list.
ghost use Rattle.std.specs.Prelude.{◌≡◌, ◌==◌, ℕ, List, map, filter, IfOk};
ghost use Rattle.topo_base.specs.declared.rows.RelationRow.{RelationRow as RowValue};
ghost use Rattle.drawing.specs.Descent.{ascending, listed_by as listed_in};
ghost use Rattle.drawing.specs.Relations.{is_among as stands_among};
ghost use Rattle.drawing.specs.Tables.{drawn};
ghost use Rattle.layer_tree.specs.Descending.{below as below_these, listed_by_any};

use std::alloc::Global;
use std::sync::ledger::Ledger;
use topo_base::{FeatureId, Memory, RelationRow, Steps};
use topo_tables::Tables;

/// Whether the number is one of these.
fn is_among(number: u32, numbers: &[u32]) -> bool
    ensures { result ≡ stands_among number numbers.now }
{
    for other in numbers {
        if *other == number {
            return true;
        }
    }
    false
}

/// The element of a row.
fn element_of(row: &RelationRow) -> u32
    ensures { result ≡ row.now.element_id }
{
    row.element_id
}

/// Whether the row is of the feature.
fn is_of(feature: FeatureId, row: &RelationRow) -> bool
    ensures { result ≡ (row.now.topogeo_id == feature) }
{
    row.topogeo_id.0 == feature.0
}

/// Whether the row is of one of these features.
fn is_of_any(features: &[u32], row: &RelationRow) -> bool
    ensures { result ≡ stands_among row.now.topogeo_id features.now }
{
    is_among(row.topogeo_id.0, features)
}

/// The numbers ascending, each once.
fn ascending(mut numbers: Vec<u32>) -> Vec<u32>
    ensures { result.items ≡ ascending numbers.items }
{
    numbers.sort_unstable();
    numbers.dedup();
    numbers
}

/// What a feature lists, in the order of the relation rows.
pub fn listed_by<L: Ledger>(
    alloc: Global,
    tables: &Tables,
    feature: FeatureId,
    steps: &mut Steps<L>,
) -> Result<Vec<u32>, Memory>
    ensures { IfOk result (λ v. v.items ≡ listed_in (drawn tables.now.rows) feature) }
{
    listed_in_rows(alloc, tables.relations(), feature, steps)
}

/// What these rows of a feature list.
fn listed_in_rows<L: Ledger>(
    alloc: Global,
    rows: &[RelationRow],
    feature: FeatureId,
    steps: &mut Steps<L>,
) -> Result<Vec<u32>, Memory>
    ensures { IfOk result (λ v. v.items ≡ map (λ (r : RowValue). r.element_id) (filter (λ (r : RowValue). r.topogeo_id == feature) rows.now)) }
{
    let mut listed = Vec::new(alloc);
    for row in rows {
        steps.tick();
        if is_of(feature, row) {
            listed.push(element_of(row))?;
        }
    }
    Ok(listed)
}

/// What these rows of any of the features list.
fn listed_by_any<L: Ledger>(
    alloc: Global,
    rows: &[RelationRow],
    features: &[u32],
    steps: &mut Steps<L>,
) -> Result<Vec<u32>, Memory>
    ensures { IfOk result (λ v. v.items ≡ listed_by_any features.now rows.now) }
{
    let mut listed = Vec::new(alloc);
    for row in rows {
        steps.tick();
        if is_of_any(features, row) {
            listed.push(element_of(row))?;
        }
    }
    Ok(listed)
}

/// What these features list, ascending, each once.
pub fn below<L: Ledger>(
    alloc: Global,
    tables: &Tables,
    features: &[u32],
    steps: &mut Steps<L>,
) -> Result<Vec<u32>, Memory>
    ensures { IfOk result (λ v. v.items ≡ below_these (drawn tables.now.rows) features.now) }
{
    let listed = listed_by_any(alloc, tables.relations(), features, steps)?;
    Ok(ascending(listed))
}
