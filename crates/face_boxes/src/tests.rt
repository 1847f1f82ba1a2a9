//! Boxes in tables that have no edge yet.

ghost use Rattle.std.specs.Prelude.{◌≡◌, ◌<◌};

use crate::{box_of, box_with_new, box_without};
use std::alloc::Global;
use std::marker::Brand;
use std::process::Abort;
use std::sync::ledger::{Blank, Ledger};
use std::test::Fail;
use topo_base::{Box4, EdgeId, FaceId, Grid, Line, Steps};
use topo_tables::Tables;

fn line(rt: &impl Abort, alloc: Global, points: &[(i64, i64)]) -> Result<Line, Fail> {
    let mut vertices = Vec::new(alloc);
    for (x, y) in points {
        vertices.push(Grid::of(*x, *y).expect(rt, "off the grid"))?;
    }
    Ok(Line::of(vertices).expect(rt, "too few vertices"))
}

fn first_boxes<L: Ledger>(rt: &impl Abort, alloc: Global, blank: Blank) -> Result<(), Fail>
    requires name { blank.name ≡ L.name }
    requires parts { blank.parts ≡ L.parts }
    requires some { 0 < blank.parts }
{
    let mut steps = Steps::<L>::new(blank);
    let tables = Tables::empty(alloc);
    let bent = line(rt, alloc, &[(4, 1), (9, -2), (6, 7)])?;
    let bounds = Box4 {
        min_x: 4,
        min_y: -2,
        max_x: 9,
        max_y: 7,
    };
    assert_eq!(rt; box_of(&tables, FaceId(1), &mut steps), None);
    assert_eq!(rt;
        box_without(&tables, FaceId(1), EdgeId(1), &mut steps),
        None
    );
    let first = box_with_new(&tables, FaceId(1), EdgeId(1), &bent, &mut steps);
    assert_eq!(rt; first, Some(bounds));
    let universe = box_with_new(&tables, FaceId(0), EdgeId(1), &bent, &mut steps);
    assert_eq!(rt; universe, None);
    Ok(())
}

#[test]
fn a_line_gives_its_box(rt: HostRuntime) -> Result<(), Fail> {
    first_boxes::<Brand>(&rt, rt.alloc(), Blank::new(1))
}
