// Boxes that have a point in common.
ghost use Rattle.std.specs.Prelude.{◌≡◌};
ghost use Rattle.box_index.specs.Boxes.{meets, spans_meet};

use topo_base::Box4;

/// Whether two spans have a point in common.
#[tactic(auto, unfolding(crate::specs::Boxes::spans_meet))]
fn spans_meet(low: i64, high: i64, other_low: i64, other_high: i64) -> bool
    ensures { result ≡ spans_meet low high other_low other_high }
{
    low <= other_high && other_low <= high
}

/// Whether two boxes have a point in common.
pub(crate) fn meets(first: &Box4, second: &Box4) -> bool
    ensures { result ≡ meets first.now second.now }
{
    spans_meet(first.min_x, first.max_x, second.min_x, second.max_x)
        && spans_meet(first.min_y, first.max_y, second.min_y, second.max_y)
}
