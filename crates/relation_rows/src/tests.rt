//! Edges and faces that are divided, in tables made by row writes.

ghost use Rattle.std.specs.Prelude.{◌≡◌, ◌<◌};

use crate::{FeatureList, follow_merge, follow_split, listing_of, same_features};
use std::alloc::Global;
use std::marker::Brand;
use std::process::Abort;
use std::sync::ledger::{Blank, Ledger};
use std::test::Fail;
use topo_base::{
    EdgeId, Element, FaceId, FeatureId, FeatureRow, LayerId, NodeId, RowId, RowWrite, Steps,
};
use topo_tables::Tables;

/// Features of layer 1.
fn features_of(alloc: Global, ids: &[u32]) -> Result<FeatureList, Fail> {
    let mut features = FeatureList::new(alloc);
    for id in ids {
        features.push(FeatureRow {
            feature_id: FeatureId(*id),
            layer_id: LayerId(1),
        })?;
    }
    Ok(features)
}

/// A row that goes or comes: whether it comes, its feature, its element and its type.
fn shown(write: &RowWrite) -> Option<(bool, RowId, RowId, u32)> {
    match write {
        RowWrite::DropRow {
            feature,
            element,
            element_type,
            ..
        } => Some((false, *feature, *element, *element_type)),
        RowWrite::AddRow {
            feature,
            element,
            element_type,
            ..
        } => Some((true, *feature, *element, *element_type)),
        _ => None,
    }
}

/// The writes are these, in order.
fn has_writes(writes: &[RowWrite], wanted: &[(bool, u32, u32, u32)]) -> bool {
    if writes.len() != wanted.len() {
        return false;
    }
    for (write, (comes, feature, element, element_type)) in writes.iter().zip(wanted) {
        let row = (
            *comes,
            RowId::Old(*feature),
            RowId::Old(*element),
            *element_type,
        );
        if shown(write) != Some(row) {
            return false;
        }
    }
    true
}

#[test]
fn an_edge_of_two_features(rt: HostRuntime) -> Result<(), Fail> {
    let alloc = rt.alloc();
    let features = features_of(alloc, [2, 5].as_slice())?;
    let writes = follow_split(
        alloc,
        &features,
        Element::Edge(EdgeId(7)),
        [8, 9].as_slice(),
    )?;
    let wanted = [
        (false, 2, 7, 2),
        (true, 2, 8, 2),
        (true, 2, 9, 2),
        (false, 5, 7, 2),
        (true, 5, 8, 2),
        (true, 5, 9, 2),
    ];
    assert!(rt; has_writes(writes.as_slice(), wanted.as_slice()));
    Ok(())
}

#[test]
fn a_face_whose_part_keeps_its_id(rt: HostRuntime) -> Result<(), Fail> {
    let alloc = rt.alloc();
    let features = features_of(alloc, [1].as_slice())?;
    let writes = follow_split(
        alloc,
        &features,
        Element::Face(FaceId(3)),
        [3, 4].as_slice(),
    )?;
    let wanted = [(false, 1, 3, 3), (true, 1, 3, 3), (true, 1, 4, 3)];
    assert!(rt; has_writes(writes.as_slice(), wanted.as_slice()));
    Ok(())
}

fn no_feature_lists_it<L: Ledger>(rt: &impl Abort, alloc: Global, blank: Blank) -> Result<(), Fail>
    requires name { blank.name ≡ L.name }
    requires parts { blank.parts ≡ L.parts }
    requires some { 0 < blank.parts }
{
    let mut steps = Steps::<L>::new(blank);
    let tables = Tables::empty(alloc);
    let old = Element::Node(NodeId(1));
    let features = listing_of(alloc, &tables, old, &mut steps)?;
    let writes = follow_split(alloc, &features, Element::Node(NodeId(1)), [2].as_slice())?;
    assert_eq!(rt; writes.as_slice().len(), 0);
    Ok(())
}

#[test]
fn an_element_of_no_feature(rt: HostRuntime) -> Result<(), Fail> {
    no_feature_lists_it::<Brand>(&rt, rt.alloc(), Blank::new(1))
}

#[test]
fn the_same_features(rt: HostRuntime) -> Result<(), Fail> {
    let alloc = rt.alloc();
    let features = features_of(alloc, [2, 5].as_slice())?;
    let others = features_of(alloc, [2, 6].as_slice())?;
    let fewer = features_of(alloc, [2].as_slice())?;
    assert!(rt; same_features(&features, &features));
    assert!(rt; !same_features(&features, &others));
    assert!(rt; !same_features(&features, &fewer));
    Ok(())
}

#[test]
fn a_face_that_goes(rt: HostRuntime) -> Result<(), Fail> {
    let alloc = rt.alloc();
    let features = features_of(alloc, [1, 2].as_slice())?;
    let writes = follow_merge(alloc, &features, Element::Face(FaceId(4)), 3)?;
    let wanted = [
        (false, 1, 4, 3),
        (true, 1, 3, 3),
        (false, 2, 4, 3),
        (true, 2, 3, 3),
    ];
    assert!(rt; has_writes(writes.as_slice(), wanted.as_slice()));
    Ok(())
}
