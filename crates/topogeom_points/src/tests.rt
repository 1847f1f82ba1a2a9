//! Edits of features of a town with two nodes, a layer of nodes, and a feature that lists the first node.

ghost use Rattle.std.specs.Prelude.{◌≡◌, ◌<◌, ◌∷◌, ◌++◌, [], Some, None, OnOk, IfOk, IsTrue};
ghost use Rattle.drawing.specs.Tables.{drawn};
ghost use Rattle.read_set.specs.Ready.{IsReady};

use crate::{add_element, add_layer, create, drop_feature, remove_element};
use read_set::{EditEnd, Edited};
use std::alloc::Global;
use std::marker::Brand;
use std::process::Abort;
use std::sync::ledger::{Blank, Ledger};
use std::test::Fail;
use topo_base::{
    Element, FeatureId, Grid, Kind, LayerId, Memory, Name, Pair, RowId, RowWrite, Rule, Steps,
};
use topo_tables::{Tables, Writes};

fn node_comes(node: u32, geom: Grid) -> RowWrite
    ensures { result ≡ RowWrite.AddNode (RowId.Old node) (Some (RowId.Old 0)) geom }
{
    RowWrite::AddNode {
        node: RowId::Old(node),
        face: Some(RowId::Old(0)),
        geom,
    }
}

fn push_nodes(writes: &mut Writes, first: Grid, second: Grid) -> Result<(), Memory>
    ensures { OnOk result (writes.new ≡ writes.old ++ RowWrite.AddNode (RowId.Old 1) (Some (RowId.Old 0)) first
        ∷ RowWrite.AddNode (RowId.Old 2) (Some (RowId.Old 0)) second ∷ []) }
{
    writes.push(node_comes(1, first))?;
    writes.push(node_comes(2, second))
}

fn push_feature(writes: &mut Writes, name: Name) -> Result<(), Memory>
    ensures { OnOk result (writes.new ≡ writes.old ++ RowWrite.AddLayer (RowId.Old 1) 0 None Kind.Puntal name
        ∷ RowWrite.AddFeature (RowId.Old 1) (RowId.Old 1) ∷ RowWrite.AddRow (RowId.Old 1) (RowId.Old 1) (RowId.Old 1) 1 ∷ []) }
{
    writes.push(RowWrite::AddLayer {
        layer: RowId::Old(1),
        level: 0,
        child: None,
        kind: Kind::Puntal,
        name,
    })?;
    writes.push(RowWrite::AddFeature {
        feature: RowId::Old(1),
        layer: RowId::Old(1),
    })?;
    writes.push(RowWrite::AddRow {
        feature: RowId::Old(1),
        layer: RowId::Old(1),
        element: RowId::Old(1),
        element_type: 1,
    })
}

/// The tables of the town.
fn town<L: Ledger>(
    alloc: Global,
    first: Grid,
    second: Grid,
    name: Name,
    steps: &mut Steps<L>,
) -> Result<Tables, Memory>
    ensures ready { IfOk result (λ t. IsReady (drawn t.rows)) }
{
    let mut writes = Writes::new(alloc);
    push_nodes(&mut writes, first, second)?;
    push_feature(&mut writes, name)?;
    let mut tables = Tables::empty(alloc);
    tables.reserve(&writes)?;
    tables.write_all(writes, steps);
    Ok(tables)
}

/// How many row writes there are, or the rule that refuses the edit.
fn count(edited: Result<Edited, EditEnd>) -> Result<Result<usize, Rule>, Memory> {
    match edited {
        Ok(edited) => Ok(Ok(edited.writes.as_slice().len())),
        Err(EditEnd::Refused(rule)) => Ok(Err(rule)),
        Err(EditEnd::Memory) => Err(Memory),
    }
}

fn pair(id: u32, element_type: u32) -> Pair {
    Pair { id, element_type }
}

fn comes_with<L: Ledger>(
    rt: &impl Abort,
    alloc: Global,
    tables: &Tables,
    steps: &mut Steps<L>,
) -> Result<(), Fail>
    requires ready { IsReady (drawn tables.now.rows) }
{
    let both = [pair(2, 1), pair(1, 1)];
    assert!(rt; count(create(alloc, tables, LayerId(1), both.as_slice(), steps))? == Ok(3));
    let twice = [pair(1, 1), pair(1, 1)];
    assert!(rt;
        count(create(alloc, tables, LayerId(1), twice.as_slice(), steps))?
            == Err(Rule::ElementListed)
    );
    let edge = [pair(1, 1), pair(1, 2)];
    assert!(rt;
        count(create(alloc, tables, LayerId(1), edge.as_slice(), steps))? == Err(Rule::WrongKind)
    );
    Ok(())
}

fn listed<L: Ledger>(
    rt: &impl Abort,
    alloc: Global,
    tables: &Tables,
    steps: &mut Steps<L>,
) -> Result<(), Fail> {
    let one = FeatureId(1);
    assert!(rt; count(add_element(alloc, tables, one, pair(2, 1), steps))? == Ok(1));
    assert!(rt; count(add_element(alloc, tables, one, pair(3, 1), steps))? == Err(Rule::NoNode));
    assert!(rt; count(remove_element(alloc, tables, one, pair(1, 1), steps))? == Ok(1));
    assert!(rt;
        count(remove_element(alloc, tables, one, pair(2, 1), steps))? == Err(Rule::ElementNotListed)
    );
    Ok(())
}

fn comes_and_goes<L: Ledger>(
    rt: &impl Abort,
    alloc: Global,
    tables: &Tables,
    name: &Name,
    steps: &mut Steps<L>,
) -> Result<(), Fail>
    requires ready { IsReady (drawn tables.now.rows) }
{
    assert!(rt; count(drop_feature(alloc, tables, FeatureId(1), steps))? == Ok(2));
    assert!(rt;
        count(add_layer(alloc, tables, name, Kind::Puntal, None, steps))? == Err(Rule::NameTaken)
    );
    Ok(())
}

fn in_town<L: Ledger>(rt: &impl Abort, alloc: Global, blank: Blank) -> Result<(), Fail>
    requires name { blank.name ≡ L.name }
    requires parts { blank.parts ≡ L.parts }
    requires some { 0 < blank.parts }
{
    let mut steps = Steps::<L>::new(blank);
    let first = Grid::of(0, 0).expect(rt, "off the grid");
    let second = Grid::of(5, 5).expect(rt, "off the grid");
    let name = Name::of(Vec::from_slice(alloc, b"stops".as_slice())?).expect(rt, "no name");
    let tables = town(alloc, first, second, name.copy(alloc)?, &mut steps)?;
    comes_with(rt, alloc, &tables, &mut steps)?;
    listed(rt, alloc, &tables, &mut steps)?;
    comes_and_goes(rt, alloc, &tables, &name, &mut steps)
}

fn on_nothing<L: Ledger>(rt: &impl Abort, alloc: Global, blank: Blank) -> Result<(), Fail>
    requires name { blank.name ≡ L.name }
    requires parts { blank.parts ≡ L.parts }
    requires some { 0 < blank.parts }
{
    let mut steps = Steps::<L>::new(blank);
    let name = Name::of(Vec::from_slice(alloc, b"stops".as_slice())?).expect(rt, "no name");
    let tables = Tables::empty(alloc);
    let first = add_layer(alloc, &tables, &name, Kind::Puntal, None, &mut steps)?;
    assert!(rt; first.ids.as_slice() == [Element::Layer(LayerId(1))].as_slice());
    let child = Some(LayerId(1));
    let refused = count(add_layer(alloc, &tables, &name, Kind::Puntal, child, &mut steps))?;
    assert!(rt; refused == Err(Rule::NoLayer));
    Ok(())
}

#[test]
fn features_of_a_town(rt: HostRuntime) -> Result<(), Fail> {
    in_town::<Brand>(&rt, rt.alloc(), Blank::new(1))
}

#[test]
fn a_layer_comes(rt: HostRuntime) -> Result<(), Fail> {
    on_nothing::<Brand>(&rt, rt.alloc(), Blank::new(1))
}
