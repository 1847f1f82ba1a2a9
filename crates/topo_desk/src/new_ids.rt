// Which writes of a plan make an id beyond the limit.
ghost use Rattle.std.specs.Prelude.{◌≡◌};
ghost use Rattle.std.specs.List.{list_any};
ghost use Rattle.topo_desk.specs.Beyond.{is_greater, adds_beyond};

use topo_base::{RowId, RowWrite};

fn is_greater(id: RowId, max_id: u32) -> bool
    ensures { result ≡ is_greater max_id id }
{
    match id {
        RowId::Old(number) => number > max_id,
        RowId::Fresh(_) => false,
    }
}

/// Whether the write adds a row with an id of its own, and that is greater than the limit.
fn adds_beyond(write: &RowWrite, max_id: u32) -> bool
    ensures { result ≡ adds_beyond max_id write.now }
{
    match write {
        RowWrite::AddNode { node, .. } => is_greater(*node, max_id),
        RowWrite::AddEdge { edge, .. } => is_greater(*edge, max_id),
        RowWrite::AddFace { face, .. } => is_greater(*face, max_id),
        RowWrite::AddLayer { layer, .. } => is_greater(*layer, max_id),
        RowWrite::AddFeature { feature, .. } => is_greater(*feature, max_id),
        _ => false,
    }
}

/// Whether one of these writes does.
pub(crate) fn any_beyond(writes: &[RowWrite], max_id: u32) -> bool
    ensures { result ≡ list_any (adds_beyond max_id) writes.now }
{
    for write in writes {
        if adds_beyond(write, max_id) {
            return true;
        }
    }
    false
}
