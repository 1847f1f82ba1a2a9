ghost use Rattle.plane.specs.Orientation.{area};
ghost use Rattle.plane.specs.Relation.{IsSide};

use crate::Seg;
use crate::areas::area_with;
use topo_base::{Grid, Side};

/// On which side of the straight line through s the point lies, seen from where s begins.
pub fn side(p: Grid, s: &Seg) -> Side
    ensures { IsSide result (area s.now.a s.now.b p) }
{
    let turned = area_with(s, &p);
    if turned > 0 {
        Side::Left
    } else if turned < 0 {
        Side::Right
    } else {
        Side::On
    }
}
