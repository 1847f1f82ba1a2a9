//! A feature that lists features.

ghost use Rattle.std.specs.Prelude.{◌≡◌, ◌<◌, ◌∷◌, ◌++◌, [], Some, None, OnOk};

use crate::{elements_of, numbers_of};
use std::alloc::Global;
use std::marker::Brand;
use std::process::Abort;
use std::sync::ledger::{Blank, Ledger};
use std::test::Fail;
use topo_base::{Element, FeatureId, Kind, Memory, Name, NodeId, RowId, RowWrite, Steps};
use topo_tables::{Tables, Writes};

fn name_of(rt: &impl Abort, alloc: Global, bytes: &[u8]) -> Result<Name, Fail> {
    Ok(Name::of(Vec::from_slice(alloc, bytes)?).expect(rt, "no name"))
}

fn push_layers(writes: &mut Writes, lower: Name, upper: Name) -> Result<(), Memory>
    ensures { OnOk result (writes.new ≡ writes.old ++ RowWrite.AddLayer (RowId.Old 1) 0 None Kind.Puntal lower
        ∷ RowWrite.AddLayer (RowId.Old 2) 1 (Some (RowId.Old 1)) Kind.Puntal upper ∷ []) }
{
    writes.push(RowWrite::AddLayer {
        layer: RowId::Old(1),
        level: 0,
        child: None,
        kind: Kind::Puntal,
        name: lower,
    })?;
    writes.push(RowWrite::AddLayer {
        layer: RowId::Old(2),
        level: 1,
        child: Some(RowId::Old(1)),
        kind: Kind::Puntal,
        name: upper,
    })
}

fn feature_comes(feature: u32, layer: u32) -> RowWrite
    ensures { result ≡ RowWrite.AddFeature (RowId.Old feature) (RowId.Old layer) }
{
    RowWrite::AddFeature {
        feature: RowId::Old(feature),
        layer: RowId::Old(layer),
    }
}

/// Two features of the lower layer, and one of the upper.
fn push_features(writes: &mut Writes) -> Result<(), Memory>
    ensures { OnOk result (writes.new ≡ writes.old ++ RowWrite.AddFeature (RowId.Old 1) (RowId.Old 1) ∷ RowWrite.AddFeature (RowId.Old 2) (RowId.Old 1)
        ∷ RowWrite.AddFeature (RowId.Old 3) (RowId.Old 2) ∷ []) }
{
    writes.push(feature_comes(1, 1))?;
    writes.push(feature_comes(2, 1))?;
    writes.push(feature_comes(3, 2))
}

fn row_comes(feature: u32, layer: u32, element: u32) -> RowWrite
    ensures { result ≡ RowWrite.AddRow (RowId.Old feature) (RowId.Old layer) (RowId.Old element) 1 }
{
    RowWrite::AddRow {
        feature: RowId::Old(feature),
        layer: RowId::Old(layer),
        element: RowId::Old(element),
        element_type: 1,
    }
}

/// The rows of the lower features.
fn push_lower(writes: &mut Writes) -> Result<(), Memory>
    ensures { OnOk result (writes.new ≡ writes.old ++ RowWrite.AddRow (RowId.Old 1) (RowId.Old 1) (RowId.Old 9) 1
        ∷ RowWrite.AddRow (RowId.Old 2) (RowId.Old 1) (RowId.Old 5) 1 ∷ RowWrite.AddRow (RowId.Old 2) (RowId.Old 1) (RowId.Old 9) 1 ∷ []) }
{
    writes.push(row_comes(1, 1, 9))?;
    writes.push(row_comes(2, 1, 5))?;
    writes.push(row_comes(2, 1, 9))
}

/// The rows of the upper feature.
fn push_upper(writes: &mut Writes) -> Result<(), Memory>
    ensures { OnOk result (writes.new ≡ writes.old ++ RowWrite.AddRow (RowId.Old 3) (RowId.Old 2) (RowId.Old 1) 1
        ∷ RowWrite.AddRow (RowId.Old 3) (RowId.Old 2) (RowId.Old 2) 1 ∷ []) }
{
    writes.push(row_comes(3, 2, 1))?;
    writes.push(row_comes(3, 2, 2))
}

/// Tables with both layers, the features and their rows.
fn tree<L: Ledger>(
    alloc: Global,
    lower: Name,
    upper: Name,
    steps: &mut Steps<L>,
) -> Result<Tables, Memory> {
    let mut writes = Writes::new(alloc);
    push_layers(&mut writes, lower, upper)?;
    push_features(&mut writes)?;
    push_lower(&mut writes)?;
    push_upper(&mut writes)?;
    let mut tables = Tables::empty(alloc);
    tables.reserve(&writes)?;
    tables.write_all(writes, steps);
    Ok(tables)
}

fn descends<L: Ledger>(rt: &impl Abort, alloc: Global, blank: Blank) -> Result<(), Fail>
    requires name { blank.name ≡ L.name }
    requires parts { blank.parts ≡ L.parts }
    requires some { 0 < blank.parts }
{
    let mut steps = Steps::<L>::new(blank);
    let lower = name_of(rt, alloc, b"stops".as_slice())?;
    let upper = name_of(rt, alloc, b"lines".as_slice())?;
    let tables = tree(alloc, lower, upper, &mut steps)?;
    let numbers = numbers_of(alloc, &tables, FeatureId(3), &mut steps)?;
    assert!(rt; numbers.as_slice() == [5, 9].as_slice());
    let elements = elements_of(alloc, &tables, FeatureId(2), &mut steps)?;
    assert_eq!(rt; elements.len(), 2);
    assert_eq!(rt; elements[0], Element::Node(NodeId(5)));
    Ok(())
}

#[test]
fn a_feature_descends(rt: HostRuntime) -> Result<(), Fail> {
    descends::<Brand>(&rt, rt.alloc(), Blank::new(1))
}
