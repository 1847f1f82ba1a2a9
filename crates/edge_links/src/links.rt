ghost use Rattle.std.specs.Prelude.{◌≡◌, ◌↔◌, ◌<◌, length, Any, IfOk, IsTrue};
ghost use Rattle.topo_base.specs.Darts.{same_dart};
ghost use Rattle.edge_links.specs.Links.{dart_after, dart_at, dart_before, hand_back, index_after, index_before, link_back, links_round, place_of, row_dart};

use crate::star::Star;
use std::alloc::Global;
use topo_base::{Dart, Hand, Memory, RowDart, RowId, RowWrite, is_same_dart};
use topo_tables::Writes;

/// Where the dart stands among these, or their number.
pub(crate) fn place_of(darts: &[Dart], dart: &Dart) -> usize
    ensures { result ≡ place_of dart.now darts.now }
{
    for (index, other) in darts.iter().enumerate() {
        if is_same_dart(dart, other) {
            return index;
        }
    }
    darts.len()
}

/// Whether the dart is in the star.
pub fn has_dart(star: &Star, dart: &Dart) -> bool
    ensures { IsTrue result ↔ Any (λ d. IsTrue (same_dart dart.now d)) star.now.darts }
{
    let darts = star.darts();
    place_of(darts, dart) < darts.len()
}

/// The index after another one, going round.
pub(crate) fn index_after(count: usize, index: usize) -> usize
    requires { index < count }
    ensures value { result ≡ index_after count index }
    ensures within { result < count }
{
    if index + 1 == count { 0 } else { index + 1 }
}

/// The index before another one, going round.
fn index_before(count: usize, index: usize) -> usize
    requires { index < count }
    ensures value { result ≡ index_before count index }
    ensures within { result < count }
{
    if index == 0 { count - 1 } else { index - 1 }
}

/// An edge as a row write names it.
fn row_dart(dart: &Dart) -> RowDart
    ensures { result ≡ row_dart dart.now }
{
    RowDart {
        edge: RowId::Old(dart.edge.0),
        forward: dart.forward,
    }
}

/// The write after which `next` follows the dart walked back.
pub(crate) fn link_back(dart: &Dart, next: &Dart) -> RowWrite
    ensures { result ≡ link_back dart.now next.now }
{
    RowWrite::SetNext {
        edge: RowId::Old(dart.edge.0),
        hand: if dart.forward {
            Hand::Right
        } else {
            Hand::Left
        },
        next: row_dart(next),
    }
}

/// The writes by which links follow a dart that came, which stands in the star already: it follows the
/// dart before it walked back, and the dart after it follows it walked back. Before and after are
/// clockwise, going round, so a lone dart follows itself walked back.
pub fn link_writes(alloc: Global, star: &Star, dart: Dart) -> Result<Writes, Memory>
    requires { Any (λ d. IsTrue (same_dart dart d)) star.now.darts }
    ensures { IfOk result (λ w. w ≡ links_round dart star.now.darts) }
{
    let darts = star.darts();
    let place = place_of(darts, &dart);
    let before = &darts[index_before(darts.len(), place)];
    let after = &darts[index_after(darts.len(), place)];
    let mut writes = Writes::new(alloc);
    writes.push(link_back(before, &dart))?;
    writes.push(link_back(&dart, after))?;
    Ok(writes)
}
