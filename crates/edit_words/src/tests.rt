//! One edit of each shape, and each word that begins one.

use crate::edit_text;
use std::alloc::Global;
use std::process::Abort;
use std::test::Fail;
use topo_base::{
    EdgeId, Edit, FaceId, FeatureId, Grid, Kind, LayerId, Line, Name, NodeId, Pair, PairList,
};

fn grid(rt: &impl Abort, x: i64, y: i64) -> Grid {
    Grid::of(x, y).expect(rt, "off the grid")
}

fn line(rt: &impl Abort, alloc: Global) -> Result<Line, Fail> {
    let vertices = vec![in alloc; grid(rt, 0, 0), grid(rt, -40, 25), grid(rt, 7, 7)]?;
    Ok(Line::of(vertices).expect(rt, "too few vertices"))
}

fn check(rt: &impl Abort, alloc: Global, edit: &Edit, due: &str) -> Result<(), Fail> {
    assert_eq!(rt; edit_text(alloc, edit)?.as_bytes(), due.as_bytes(), "{due}");
    Ok(())
}

#[test]
fn edits_of_nodes_are_written(rt: HostRuntime) -> Result<(), Fail> {
    let alloc = rt.alloc();
    let far = grid(&rt, 1 << 40, -(1 << 40));
    let node = NodeId(4_294_967_295);
    let rows = [
        (
            Edit::AddIsoNode {
                face: None,
                geom: far,
            },
            "addisonode - 1099511627776 -1099511627776\n",
        ),
        (
            Edit::AddIsoNode {
                face: Some(FaceId(0)),
                geom: far,
            },
            "addisonode 0 1099511627776 -1099511627776\n",
        ),
        (
            Edit::MoveIsoNode { node, geom: far },
            "moveisonode 4294967295 1099511627776 -1099511627776\n",
        ),
        (Edit::RemoveIsoNode { node }, "removeisonode 4294967295\n"),
    ];
    for (edit, due) in rows {
        check(&rt, alloc, &edit, due)?;
    }
    Ok(())
}

#[test]
fn edits_that_add_edges_are_written(rt: HostRuntime) -> Result<(), Fail> {
    let alloc = rt.alloc();
    let start = NodeId(12);
    let end = NodeId(3);
    let rows = [
        (
            Edit::AddIsoEdge {
                start,
                end,
                line: line(&rt, alloc)?,
            },
            "addisoedge 12 3 0 0 -40 25 7 7\n",
        ),
        (
            Edit::AddEdgeModFace {
                start,
                end,
                line: line(&rt, alloc)?,
            },
            "addedgemodface 12 3 0 0 -40 25 7 7\n",
        ),
        (
            Edit::AddEdgeNewFaces {
                start,
                end,
                line: line(&rt, alloc)?,
            },
            "addedgenewfaces 12 3 0 0 -40 25 7 7\n",
        ),
    ];
    for (edit, due) in rows {
        check(&rt, alloc, &edit, due)?;
    }
    Ok(())
}

#[test]
fn edits_of_edges_are_written(rt: HostRuntime) -> Result<(), Fail> {
    let alloc = rt.alloc();
    let edge = EdgeId(8);
    let other = EdgeId(10);
    let geom = grid(&rt, -1, 0);
    let rows = [
        (Edit::RemoveIsoEdge { edge }, "removeisoedge 8\n"),
        (Edit::RemEdgeModFace { edge }, "remedgemodface 8\n"),
        (Edit::RemEdgeNewFace { edge }, "remedgenewface 8\n"),
        (Edit::ModEdgeSplit { edge, geom }, "modedgesplit 8 -1 0\n"),
        (Edit::NewEdgesSplit { edge, geom }, "newedgessplit 8 -1 0\n"),
        (Edit::ModEdgeHeal { edge, other }, "modedgeheal 8 10\n"),
        (Edit::NewEdgeHeal { edge, other }, "newedgeheal 8 10\n"),
    ];
    for (edit, due) in rows {
        check(&rt, alloc, &edit, due)?;
    }
    Ok(())
}

fn layer(rt: &impl Abort, alloc: Global, kind: Kind, child: Option<LayerId>) -> Result<Edit, Fail> {
    let name = Name::of(b"parcels_2".to_vec(alloc)?).expect(rt, "no name");
    Ok(Edit::AddLayer { name, kind, child })
}

fn feature(rt: &impl Abort, alloc: Global, elements: &[(u32, u32)]) -> Result<Edit, Fail> {
    let mut pairs = Vec::new(alloc);
    for (id, element_type) in elements {
        pairs.push(Pair {
            id: *id,
            element_type: *element_type,
        })?;
    }
    let elements = PairList::of(pairs).expect(rt, "too many elements");
    Ok(Edit::CreateTopoGeom {
        layer: LayerId(2),
        elements,
    })
}

#[test]
fn layers_are_written(rt: HostRuntime) -> Result<(), Fail> {
    let alloc = rt.alloc();
    let rows = [
        (
            layer(&rt, alloc, Kind::Puntal, None)?,
            "addlayer parcels_2 puntal -\n",
        ),
        (
            layer(&rt, alloc, Kind::Lineal, None)?,
            "addlayer parcels_2 lineal -\n",
        ),
        (
            layer(&rt, alloc, Kind::Areal, Some(LayerId(1)))?,
            "addlayer parcels_2 areal 1\n",
        ),
    ];
    for (edit, due) in rows {
        check(&rt, alloc, &edit, due)?;
    }
    Ok(())
}

#[test]
fn edits_of_features_are_written(rt: HostRuntime) -> Result<(), Fail> {
    let alloc = rt.alloc();
    let added = Edit::AddElement {
        feature: FeatureId(5),
        id: 7,
        element_type: 3,
    };
    let removed = Edit::RemElement {
        feature: FeatureId(5),
        id: 7,
        element_type: 3,
    };
    let dropped = Edit::DropFeature {
        feature: FeatureId(5),
    };
    let rows = [
        (feature(&rt, alloc, &[])?, "createtopogeom 2\n"),
        (
            feature(&rt, alloc, &[(9, 3), (11, 3)])?,
            "createtopogeom 2 9 3 11 3\n",
        ),
        (added, "addelement 5 7 3\n"),
        (removed, "remelement 5 7 3\n"),
        (dropped, "dropfeature 5\n"),
    ];
    for (edit, due) in rows {
        check(&rt, alloc, &edit, due)?;
    }
    Ok(())
}
