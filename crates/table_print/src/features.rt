// The lines of the features, each with the elements to which it descends.
ghost use Rattle.std.specs.Prelude.{◌≡◌, ◌<◌, ◌++◌, ◌∷◌, [], OnOk, IfOk, codes, flat_map, length};
ghost use Rattle.std.specs.Fmt.{decimal};
ghost use Rattle.drawing.specs.Drawing.{layer_at};
ghost use Rattle.drawing.specs.Places.{rows_of, at_slot};
ghost use Rattle.drawing.specs.Tables.{drawn};
ghost use Rattle.script_model.specs.Texts.{descent_text, features_text as text_of_features, number_words, type_of_layer as type_in};
ghost use Rattle.script_model.specs.Words.{line_of, spaced};

use edit_words::push_count_word;
use layer_tree::numbers_of;
use std::alloc::Global;
use std::marker::Brand;
use std::sync::ledger::{Blank, Ledger};
use topo_base::{FeatureRow, LayerId, Memory, Steps, Text};
use topo_tables::Tables;

/// The number of the type of a layer, and 0 where it isn't there.
fn type_of_layer<L: Ledger>(tables: &Tables, layer: LayerId, steps: &mut Steps<L>) -> u32
    ensures { result ≡ type_in (layer_at (drawn tables.now.rows) layer) }
{
    match tables.layer(layer, steps) {
        None => 0,
        Some(row) => row.feature_type.number(),
    }
}

/// A feature's id and layer, the layer's type, and how many elements there are.
fn push_head(text: &mut Text, row: &FeatureRow, kind: u32, count: usize) -> Result<(), Memory>
    ensures { OnOk result (text.new ≡ text.old
        ++ spaced (decimal row.now.feature_id ∷ decimal row.now.layer_id ∷ decimal kind ∷ decimal count ∷ [])) }
{
    push_count_word(text, u64::from(row.feature_id.0))?;
    push_count_word(text, u64::from(row.layer_id.0))?;
    push_count_word(text, u64::from(kind))?;
    push_count_word(text, count as u64)
}

/// Numbers, each after a space.
fn push_numbers(text: &mut Text, numbers: &[u32]) -> Result<(), Memory>
    ensures { OnOk result (text.new ≡ text.old ++ spaced (number_words numbers.now)) }
{
    for number in numbers {
        push_count_word(text, u64::from(*number))?;
    }
    Ok(())
}

/// A word, a feature's head and its numbers.
fn push_line(text: &mut Text, row: &FeatureRow, kind: u32, numbers: &[u32]) -> Result<(), Memory>
    ensures { OnOk result (text.new ≡ text.old ++ line_of (codes "feature" ∷ decimal row.now.feature_id ∷ decimal row.now.layer_id ∷ decimal kind
        ∷ decimal (length numbers.now) ∷ number_words numbers.now)) }
{
    text.push_bytes(b"feature")?;
    push_head(text, row, kind, numbers.len())?;
    push_numbers(text, numbers)?;
    text.push(b'\n')
}

/// The line of a feature.
fn push_feature<L: Ledger>(
    alloc: Global,
    text: &mut Text,
    tables: &Tables,
    row: &FeatureRow,
    steps: &mut Steps<L>,
) -> Result<(), Memory>
    ensures { OnOk result (text.new ≡ text.old ++ descent_text (drawn tables.now.rows) row.now) }
{
    let kind = type_of_layer(tables, row.layer_id, steps);
    let numbers = numbers_of(alloc, tables, row.feature_id, steps)?;
    push_line(text, row, kind, &numbers)
}

fn push_slot<L: Ledger>(
    alloc: Global,
    text: &mut Text,
    tables: &Tables,
    slot: &Option<FeatureRow>,
    steps: &mut Steps<L>,
) -> Result<(), Memory>
    ensures { OnOk result (text.new ≡ text.old ++ at_slot (descent_text (drawn tables.now.rows)) slot.now) }
{
    match slot {
        None => Ok(()),
        Some(row) => push_feature(alloc, text, tables, row, steps),
    }
}

/// The lines of the features at their places.
fn push_slots<L: Ledger>(
    alloc: Global,
    text: &mut Text,
    tables: &Tables,
    slots: &[Option<FeatureRow>],
    steps: &mut Steps<L>,
) -> Result<(), Memory>
    ensures { OnOk result (text.new ≡ text.old ++ flat_map (descent_text (drawn tables.now.rows)) (rows_of slots.now)) }
{
    for slot in slots {
        push_slot(alloc, text, tables, slot, steps)?;
    }
    Ok(())
}

fn counted_text<L: Ledger>(alloc: Global, tables: &Tables, blank: Blank) -> Result<Text, Memory>
    requires name { blank.name ≡ L.name }
    requires parts { blank.parts ≡ L.parts }
    requires some { 0 < blank.parts }
    ensures { IfOk result (λ t. t ≡ text_of_features (drawn tables.now.rows)) }
{
    let mut steps = Steps::<L>::new(blank);
    let mut text = Text::new(alloc);
    push_slots(alloc, &mut text, tables, tables.features(), &mut steps)?;
    Ok(text)
}

/// The lines of the features, each with the type of its layer and the nodes, edges or faces to which it
/// descends.
pub fn features_text(alloc: Global, tables: &Tables) -> Result<Text, Memory>
    ensures { IfOk result (λ t. t ≡ text_of_features (drawn tables.now.rows)) }
{
    counted_text::<Brand>(alloc, tables, Blank::new(1))
}
