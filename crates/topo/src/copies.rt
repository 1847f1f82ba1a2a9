ghost use Rattle.std.specs.Prelude.{◌≡◌, IfOk, IsTrue};
ghost use Rattle.topo.specs.Copies.{is_flat};

use std::alloc::Global;
use topo_base::{Edit, Memory, PairList};

/// The same edit once more, where it has no line, no name and no list.
fn flat_copy(edit: &Edit) -> Edit
    requires { IsTrue (is_flat edit.now) }
    ensures { result ≡ edit.now }
{
    match *edit {
        Edit::AddIsoNode { face, geom } => Edit::AddIsoNode { face, geom },
        Edit::MoveIsoNode { node, geom } => Edit::MoveIsoNode { node, geom },
        Edit::RemoveIsoNode { node } => Edit::RemoveIsoNode { node },
        Edit::RemoveIsoEdge { edge } => Edit::RemoveIsoEdge { edge },
        Edit::RemEdgeModFace { edge } => Edit::RemEdgeModFace { edge },
        Edit::RemEdgeNewFace { edge } => Edit::RemEdgeNewFace { edge },
        Edit::ModEdgeSplit { edge, geom } => Edit::ModEdgeSplit { edge, geom },
        Edit::NewEdgesSplit { edge, geom } => Edit::NewEdgesSplit { edge, geom },
        Edit::ModEdgeHeal { edge, other } => Edit::ModEdgeHeal { edge, other },
        Edit::NewEdgeHeal { edge, other } => Edit::NewEdgeHeal { edge, other },
        Edit::AddElement {
            feature,
            id,
            element_type,
        } => Edit::AddElement {
            feature,
            id,
            element_type,
        },
        Edit::RemElement {
            feature,
            id,
            element_type,
        } => Edit::RemElement {
            feature,
            id,
            element_type,
        },
        Edit::DropFeature { feature } => Edit::DropFeature { feature },
        _ => unreachable!(),
    }
}

/// The same list of elements once more.
fn list_copy(alloc: Global, elements: &PairList) -> Result<PairList, Memory>
    ensures { IfOk result (λ l. l ≡ elements.now) }
{
    match PairList::of(Vec::from_slice(alloc, elements.pairs())?) {
        Ok(list) => Ok(list),
        Err(_) => unreachable!(),
    }
}

/// The same edit once more.
pub fn copy_of(alloc: Global, edit: &Edit) -> Result<Edit, Memory>
    ensures { IfOk result (λ e. e ≡ edit.now) }
{
    match edit {
        Edit::AddIsoEdge { start, end, line } => {
            let (start, end, line) = (*start, *end, line.copy(alloc)?);
            Ok(Edit::AddIsoEdge { start, end, line })
        }
        Edit::AddEdgeModFace { start, end, line } => {
            let (start, end, line) = (*start, *end, line.copy(alloc)?);
            Ok(Edit::AddEdgeModFace { start, end, line })
        }
        Edit::AddEdgeNewFaces { start, end, line } => {
            let (start, end, line) = (*start, *end, line.copy(alloc)?);
            Ok(Edit::AddEdgeNewFaces { start, end, line })
        }
        Edit::AddLayer { name, kind, child } => {
            let (name, kind, child) = (name.copy(alloc)?, *kind, *child);
            Ok(Edit::AddLayer { name, kind, child })
        }
        Edit::CreateTopoGeom { layer, elements } => {
            let (layer, elements) = (*layer, list_copy(alloc, elements)?);
            Ok(Edit::CreateTopoGeom { layer, elements })
        }
        _ => Ok(flat_copy(edit)),
    }
}
