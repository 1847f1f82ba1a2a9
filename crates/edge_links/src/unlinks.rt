ghost use Rattle.std.specs.Prelude.{◌≡◌, ◌<◌, ◌+◌, ℕ, length, drop, Any, IfOk, IsTrue};
ghost use Rattle.topo_base.specs.Darts.{same_dart};
ghost use Rattle.topo_base.specs.declared.ids.Dart.{Dart as DartValue};
ghost use Rattle.edge_links.specs.Links.{dart_after, dart_at};
ghost use Rattle.edge_links.specs.Unlinks.{is_other, others, stands_before, unlinks_round};

use crate::links::{index_after, link_back, place_of};
use crate::star::Star;
use std::alloc::Global;
use topo_base::{Dart, EdgeId, Memory};
use topo_tables::Writes;

/// Whether the dart is of another edge.
fn is_other(edge: EdgeId, dart: &Dart) -> bool
    ensures { result ≡ is_other edge dart.now }
{
    dart.edge.0 != edge.0
}

/// The darts of other edges, in their order.
fn others(alloc: Global, darts: &[Dart], edge: EdgeId) -> Result<Vec<Dart>, Memory>
    ensures { IfOk result (λ ds. ds.items ≡ others edge darts.now) }
{
    let mut rest = Vec::new(alloc);
    for dart in darts {
        if is_other(edge, dart) {
            rest.push(*dart)?;
        }
    }
    Ok(rest)
}

/// Whether the dart at the index is of another edge and stands before one of the edge, going round.
fn stands_before(darts: &[Dart], index: usize, edge: EdgeId) -> bool
    requires { index < length darts.now }
    ensures { (d : DartValue) → d ≡ dart_at d darts.now index → result ≡ stands_before edge darts.now d (drop (index + 1) darts.now) }
{
    let next = index_after(darts.len(), index);
    is_other(edge, &darts[index]) && !is_other(edge, &darts[next])
}

/// The dart after this one, going round.
fn dart_after(darts: &[Dart], dart: &Dart) -> Dart
    requires { Any (λ d. IsTrue (same_dart dart.now d)) darts.now }
    ensures { result ≡ dart_after dart.now darts.now }
{
    let place = place_of(darts, dart);
    darts[index_after(darts.len(), place)]
}

/// The writes by which links follow an edge that goes, whose darts are still in the star: what stands
/// before a dart of it, walked back, is followed by the next dart that stays. Before and next are
/// clockwise, going round. Nothing is written where no dart stays, and no write names the edge. The
/// node of a closed edge is asked once.
pub fn unlink_writes(alloc: Global, star: &Star, edge: EdgeId) -> Result<Writes, Memory>
    ensures { IfOk result (λ w. w ≡ unlinks_round edge star.now.darts) }
{
    let darts = star.darts();
    let rest = others(alloc, darts, edge)?;
    let mut writes = Writes::new(alloc);
    for (index, dart) in darts.iter().enumerate() {
        if stands_before(darts, index, edge) {
            writes.push(link_back(dart, &dart_after(&rest, dart)))?;
        }
    }
    Ok(writes)
}
