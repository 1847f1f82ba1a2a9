// Layers that come.
ghost use Rattle.std.specs.Prelude.{◌≡◌, ◌+◌, ◌<◌, ◌≤◌, ◌^◌, IfOk, IsTrue, Some, length, option_map, true};
ghost use Rattle.std.specs.Str.{bytes_eq};
ghost use Rattle.topo_base.specs.Kinds.{kind_number};
ghost use Rattle.topo_base.specs.declared.edit.Edit.{Edit};
ghost use Rattle.drawing.specs.Drawing.{layer_at};
ghost use Rattle.drawing.specs.Layers.{is_name_taken as is_taken, same_kind};
ghost use Rattle.drawing.specs.Edits.{add_layer as added_layer, layer_on as layer_above, with_layer};
ghost use Rattle.drawing.specs.Tables.{drawn};
ghost use Rattle.drawing.specs.Writable.{has_layer_row};
ghost use Rattle.read_set.specs.Edited.{AnswersOutcome, Follows};
ghost use Rattle.read_set.specs.Kept.{Keeps};
ghost use Rattle.topogeom_points.specs.Rows.{IsThereIfGiven};
ghost use Rattle.read_set.specs.Ready.{IsReady};

use drawing_queries::{RowTest, any_row};
use read_set::{EditEnd, Edited};
use std::alloc::Global;
use std::sync::ledger::Ledger;
use topo_base::{Element, Kind, LayerId, LayerRow, Memory, Name, RowId, RowWrite, Rule, Steps};
use topo_tables::Tables;

/// The layer has this name.
#[derive(Drop)]
struct HasName<'a> {
    name: &'a Name,
}

impl RowTest<LayerRow> for HasName<'_> {
    ghost fits = { λ t l. true };

    ghost holds = { λ t l. bytes_eq l.name t.name.now };

    ghost most_steps = { λ t l. 1 };

    fn holds<L: Ledger>(&self, row: &LayerRow, steps: &mut Steps<L>) -> bool {
        steps.tick();
        row.name.as_bytes() == self.name.as_bytes()
    }
}

/// Whether a layer has this name.
fn is_name_taken<L: Ledger>(tables: &Tables, name: &Name, steps: &mut Steps<L>) -> bool
    ensures { result ≡ is_taken (drawn tables.now.rows) name.now }
{
    any_row(tables.layers(), &HasName { name }, steps)
}

/// Whether two layers have one type.
fn is_same_kind(first: Kind, second: Kind) -> bool
    ensures { result ≡ same_kind first second }
{
    first.number() == second.number()
}

/// The id in a row write of a layer that is there.
fn old_id(child: Option<LayerId>) -> Option<RowId>
    ensures { result ≡ option_map RowId.Old child }
{
    match child {
        None => None,
        Some(child) => Some(RowId::Old(child.0)),
    }
}

/// A layer comes, with this level, upon this child.
fn with_level(
    alloc: Global,
    tables: &Tables,
    name: &Name,
    kind: Kind,
    child: Option<LayerId>,
    level: u32,
) -> Result<Edited, Memory>
    requires ready { IsReady (drawn tables.now.rows) }
    requires there { IsThereIfGiven (has_layer_row tables.now.rows) child }
    ensures { IfOk result (λ d. Follows (drawn tables.now.rows) (with_layer (drawn tables.now.rows) name.now kind child level) d) }
{
    let layer = tables.counters().layer;
    let one = RowWrite::AddLayer {
        layer: RowId::Old(layer),
        level,
        child: old_id(child),
        kind,
        name: name.copy(alloc)?,
    };
    Edited::by_one(alloc, one, Element::Layer(LayerId(layer)))
}

/// A layer comes upon a child, if that is there and has its type.
fn on_child<L: Ledger>(
    alloc: Global,
    tables: &Tables,
    name: &Name,
    kind: Kind,
    child: LayerId,
    steps: &mut Steps<L>,
) -> Result<Edited, EditEnd>
    requires ready { IsReady (drawn tables.now.rows) }
    ensures { AnswersOutcome (drawn tables.now.rows)
        (layer_above (drawn tables.now.rows) name.now kind (layer_at (drawn tables.now.rows) child)) result }
{
    let Some(row) = tables.layer(child, steps) else {
        return Err(EditEnd::Refused(Rule::NoLayer));
    };
    if !is_same_kind(row.feature_type, kind) {
        return Err(EditEnd::Refused(Rule::WrongKind));
    }
    let level = row.level + 1;
    Ok(with_level(alloc, tables, name, kind, Some(row.layer_id), level)?)
}

/// A layer comes, by the rules of AddTopoGeometryColumn: NameTaken; and with a child NoLayer, WrongKind.
pub fn add_layer<L: Ledger>(
    alloc: Global,
    tables: &Tables,
    name: &Name,
    kind: Kind,
    child: Option<LayerId>,
    steps: &mut Steps<L>,
) -> Result<Edited, EditEnd>
    requires ready { IsReady (drawn tables.now.rows) }
    ensures answer { AnswersOutcome (drawn tables.now.rows) (added_layer (drawn tables.now.rows) name.now kind child) result }
    ensures kept { Keeps (drawn tables.now.rows) (Edit.AddLayer name.now kind child) result }
{
    if is_name_taken(tables, name, steps) {
        return Err(EditEnd::Refused(Rule::NameTaken));
    }
    match child {
        None => Ok(with_level(alloc, tables, name, kind, None, 0)?),
        Some(child) => on_child(alloc, tables, name, kind, child, steps),
    }
}
