ghost use Rattle.script_reader.specs.Reading.{Finds, IsPoint};

use topo_base::Grid;
use topo_io::number;

/// The grid point of which two words are the coordinates. Takes no memory.
pub fn point_of(x: &[u8], y: &[u8]) -> Option<Grid>
    ensures { Finds (IsPoint x.now y.now) result }
{
    let Some(x) = number(x) else {
        return None;
    };
    let Some(y) = number(y) else {
        return None;
    };
    Grid::of(x, y)
}
