// The cells of a loose grid.
ghost use Rattle.std.specs.Prelude.{◌≡◌, ◌+◌, ◌^◌, ◌<◌, ◌≤◌};
ghost use Rattle.topo_base.specs.Point.{IsCoordinate};
ghost use Rattle.box_index.specs.Boxes.{IsBox};
ghost use Rattle.box_index.specs.Cells.{cell, first_cell, home, last_cell, level_for, level_of, place, shifted};

use topo_base::Box4;

/// How many levels there are: a side has at most 41 binary digits.
pub(crate) const LEVELS: u32 = 42;

/// A coordinate counted from the lower end of its range.
pub(crate) fn shifted(coordinate: i64) -> u64
    requires { IsCoordinate coordinate }
    ensures value { result ≡ shifted coordinate }
    ensures range { result ≤ 2 ^ 41 }
{
    (coordinate + (1 << 40)) as u64
}

/// The least level whose cells are at least so wide.
fn level_for(side: u64) -> u32
    requires { side ≤ 2 ^ 41 }
    ensures value { result ≡ level_for side }
    ensures range { result < 42 }
{
    64 - side.saturating_sub(1).leading_zeros()
}

/// The level at which the box is kept.
pub(crate) fn level_of(bounds: &Box4) -> u32
    requires { IsBox bounds.now }
    ensures value { result ≡ level_of bounds.now }
    ensures range { result < 42 }
{
    let width = shifted(bounds.max_x) - shifted(bounds.min_x);
    let height = shifted(bounds.max_y) - shifted(bounds.min_y);
    level_for(width.max(height))
}

/// The number of a cell: its level, its column and its row.
pub(crate) fn cell(level: u32, column: u64, row: u64) -> u128
    requires level { level ≤ 42 }
    requires column { column < 2 ^ 42 }
    requires row { row < 2 ^ 42 }
    ensures { result ≡ cell level column row }
{
    ((u128::from(level) * (1 << 42) + u128::from(column)) * (1 << 42)) + u128::from(row)
}

/// The cell in which the box is kept.
pub(crate) fn home(bounds: &Box4) -> u128
    requires { IsBox bounds.now }
    ensures value { result ≡ home bounds.now }
    ensures range { result < 2 ^ 91 }
{
    let level = level_of(bounds);
    cell(
        level,
        shifted(bounds.min_x) >> level,
        shifted(bounds.min_y) >> level,
    )
}

/// The number of a place in a cell.
pub(crate) fn place(cell: u128, number: u32) -> u128
    requires { cell < 2 ^ 91 }
    ensures { result ≡ place cell number }
{
    cell * (1 << 32) + u128::from(number)
}

/// The first column or row, at this level, in which a box may be kept that reaches to here.
fn first_cell(low: i64, level: u32) -> u64
    requires coordinate { IsCoordinate low }
    requires level { level ≤ 42 }
    ensures value { result ≡ first_cell low level }
    ensures range { result < 2 ^ 42 }
{
    (shifted(low) >> level).saturating_sub(1)
}

/// The last one, for a box that begins no later than here.
fn last_cell(high: i64, level: u32) -> u64
    requires coordinate { IsCoordinate high }
    requires level { level ≤ 42 }
    ensures value { result ≡ last_cell high level }
    ensures range { result + 1 < 2 ^ 42 }
{
    shifted(high) >> level
}

/// The first column of this level in which a box may be kept that meets the area.
pub(crate) fn first_column(area: &Box4, level: u32) -> u64
    requires area { IsBox area.now }
    requires level { level ≤ 42 }
    ensures value { result ≡ first_cell area.now.min_x level }
    ensures range { result < 2 ^ 42 }
{
    first_cell(area.min_x, level)
}

/// The last column of this level in which a box may be kept that meets the area.
pub(crate) fn last_column(area: &Box4, level: u32) -> u64
    requires area { IsBox area.now }
    requires level { level ≤ 42 }
    ensures value { result ≡ last_cell area.now.max_x level }
    ensures range { result + 1 < 2 ^ 42 }
{
    last_cell(area.max_x, level)
}

/// The first row of this level in which a box may be kept that meets the area.
pub(crate) fn first_row(area: &Box4, level: u32) -> u64
    requires area { IsBox area.now }
    requires level { level ≤ 42 }
    ensures value { result ≡ first_cell area.now.min_y level }
    ensures range { result < 2 ^ 42 }
{
    first_cell(area.min_y, level)
}

/// The last row of this level in which a box may be kept that meets the area.
pub(crate) fn last_row(area: &Box4, level: u32) -> u64
    requires area { IsBox area.now }
    requires level { level ≤ 42 }
    ensures value { result ≡ last_cell area.now.max_y level }
    ensures range { result + 1 < 2 ^ 42 }
{
    last_cell(area.max_y, level)
}

/// How many cells of this level a walk near the area looks at.
pub(crate) fn cells_near(area: &Box4, level: u32) -> u64
    requires area { IsBox area.now }
    requires level { level ≤ 42 }
{
    let columns = last_column(area, level).saturating_sub(first_column(area, level)) + 1;
    let rows = last_row(area, level).saturating_sub(first_row(area, level)) + 1;
    columns.saturating_mul(rows)
}
