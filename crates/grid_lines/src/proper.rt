ghost use Rattle.std.specs.Prelude.{◌≡◌, ◌+◌, ◌<◌, ◌∷◌, IsTrue, drop, length};
ghost use Rattle.topo_base.specs.Point.{same_point};
ghost use Rattle.plane.specs.Line.{first_vertex, last_vertex, segments_of};
ghost use Rattle.plane.specs.LinePoints.{has_proper_segments};

use grid_segments::Seg;
use topo_base::{Grid, Line};

/// Whether two points are one.
pub fn is_same_point(p: &Grid, q: &Grid) -> bool
    ensures { result ≡ same_point p.now q.now }
{
    p.x() == q.x() && p.y() == q.y()
}

/// Whether no two neighbouring vertices are equal.
pub fn is_proper(line: &Line) -> bool
    ensures { result ≡ has_proper_segments line.now }
{
    let vertices = line.vertices();
    for i in 0..vertices.len() - 1 {
        if is_same_point(&vertices[i], &vertices[i + 1]) {
            return false;
        }
    }
    true
}

/// The segment that begins at the vertex with this index, counted from 0.
pub fn segment(vertices: &[Grid], i: usize) -> Seg
    requires within { i + 1 < length vertices.now }
    requires proper { IsTrue (has_proper_segments vertices.now) }
    ensures { segments_of (drop i vertices.now) ≡ result ∷ segments_of (drop (i + 1) vertices.now) }
{
    Seg::of(vertices[i], vertices[i + 1]).unwrap()
}

/// The vertex where the line begins.
pub fn first_of(line: &Line) -> Grid
    ensures { result ≡ first_vertex line.now }
{
    line.vertices()[0]
}

/// The vertex where the line ends.
pub fn last_of(line: &Line) -> Grid
    ensures { result ≡ last_vertex line.now }
{
    let vertices = line.vertices();
    vertices[vertices.len() - 1]
}
