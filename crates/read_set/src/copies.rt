// Row writes once more.
ghost use Rattle.std.specs.Prelude.{◌≡◌, IfOk, IsTrue};
ghost use Rattle.read_set.specs.Drafted.{is_flat};

use std::alloc::Global;
use topo_base::{Memory, RowWrite};

/// The same write once more, of a kind that has neither a line nor a name.
fn flat_copy(one: &RowWrite) -> RowWrite
    requires { IsTrue (is_flat one.now) }
    ensures { result ≡ one.now }
{
    match *one {
        RowWrite::AddNode { node, face, geom } => RowWrite::AddNode { node, face, geom },
        RowWrite::SetContaining { node, face } => RowWrite::SetContaining { node, face },
        RowWrite::SetPoint { node, geom } => RowWrite::SetPoint { node, geom },
        RowWrite::DropNode { node } => RowWrite::DropNode { node },
        RowWrite::SetNext { edge, hand, next } => RowWrite::SetNext { edge, hand, next },
        RowWrite::SetSide { edge, hand, face } => RowWrite::SetSide { edge, hand, face },
        RowWrite::DropEdge { edge } => RowWrite::DropEdge { edge },
        RowWrite::AddFace { face, mbr } => RowWrite::AddFace { face, mbr },
        RowWrite::SetBox { face, mbr } => RowWrite::SetBox { face, mbr },
        RowWrite::DropFace { face } => RowWrite::DropFace { face },
        RowWrite::AddFeature { feature, layer } => RowWrite::AddFeature { feature, layer },
        RowWrite::DropFeature { feature } => RowWrite::DropFeature { feature },
        RowWrite::AddRow {
            feature,
            layer,
            element,
            element_type,
        } => RowWrite::AddRow {
            feature,
            layer,
            element,
            element_type,
        },
        RowWrite::DropRow {
            feature,
            layer,
            element,
            element_type,
        } => RowWrite::DropRow {
            feature,
            layer,
            element,
            element_type,
        },
        RowWrite::Raise { element } => RowWrite::Raise { element },
        _ => unreachable!(),
    }
}

/// The same write once more.
pub fn copy_of(alloc: Global, one: &RowWrite) -> Result<RowWrite, Memory>
    ensures { IfOk result (λ w. w ≡ one.now) }
{
    match one {
        RowWrite::AddEdge {
            edge,
            start,
            end,
            next_left,
            next_right,
            left,
            right,
            geom,
        } => Ok(RowWrite::AddEdge {
            edge: *edge,
            start: *start,
            end: *end,
            next_left: *next_left,
            next_right: *next_right,
            left: *left,
            right: *right,
            geom: geom.copy(alloc)?,
        }),
        RowWrite::SetLine {
            edge,
            start,
            end,
            geom,
        } => Ok(RowWrite::SetLine {
            edge: *edge,
            start: *start,
            end: *end,
            geom: geom.copy(alloc)?,
        }),
        RowWrite::AddLayer {
            layer,
            level,
            child,
            kind,
            name,
        } => Ok(RowWrite::AddLayer {
            layer: *layer,
            level: *level,
            child: *child,
            kind: *kind,
            name: name.copy(alloc)?,
        }),
        flat => Ok(flat_copy(flat)),
    }
}
