// The fields of an edit, appended to its bytes. What is appended is in range, since its type is.
ghost use Rattle.std.specs.Prelude.{◌≡◌, ◌≤◌, ◌<◌, ◌^◌, ◌++◌, ◌∷◌, length, flat_map, OnOk, IsTrue};
ghost use Rattle.std.specs.Int.{w64, to_be_bytes};
ghost use Rattle.std.specs.List.{list_all};
ghost use Rattle.topo_base.specs.Names.{is_name};
ghost use Rattle.drawing.specs.Accepted.{is_line_short};
ghost use Rattle.drawing.specs.InRange.{is_id, is_option_id, is_grid_point, is_pair};
ghost use Rattle.history_model.specs.Spelling.{number_bytes, point_bytes, option_bytes, line_bytes, pair_bytes, pairs_bytes, name_bytes};

use topo_base::{Grid, Line, Memory, Name, Pair, PairList};

/// Appends a number in 32 bits, high byte first.
pub fn put_number(out: &mut Vec<u8>, number: u32) -> Result<(), Memory>
    ensures bytes { OnOk result (out.new.items ≡ out.old.items ++ number_bytes number) }
    ensures good { IsTrue (is_id number) }
{
    out.extend_from_slice(&number.to_be_bytes())?;
    Ok(())
}

/// Appends a number in 64 bits, high byte first.
fn put_wide(out: &mut Vec<u8>, number: u64) -> Result<(), Memory>
    ensures { OnOk result (out.new.items ≡ out.old.items ++ to_be_bytes w64 number) }
{
    out.extend_from_slice(&number.to_be_bytes())?;
    Ok(())
}

/// Appends a point: its coordinates in two's complement.
pub fn put_point(out: &mut Vec<u8>, point: &Grid) -> Result<(), Memory>
    ensures bytes { OnOk result (out.new.items ≡ out.old.items ++ point_bytes point.now) }
    ensures good { IsTrue (is_grid_point point.now) }
{
    let x = point.x().cast_unsigned();
    let y = point.y().cast_unsigned();
    put_wide(out, x)?;
    put_wide(out, y)
}

/// Appends a number behind a byte 1, or a byte 0 where there is none.
pub fn put_option(out: &mut Vec<u8>, number: Option<u32>) -> Result<(), Memory>
    ensures bytes { OnOk result (out.new.items ≡ out.old.items ++ option_bytes number) }
    ensures good { OnOk result (IsTrue (is_option_id number)) }
{
    match number {
        None => Ok(out.push(0)?),
        Some(number) => {
            out.push(1)?;
            put_number(out, number)
        }
    }
}

/// Appends points one after the other.
fn put_points(out: &mut Vec<u8>, points: &[Grid]) -> Result<(), Memory>
    ensures bytes { OnOk result (out.new.items ≡ out.old.items ++ flat_map point_bytes points.now) }
    ensures good { OnOk result (IsTrue (list_all is_grid_point points.now)) }
{
    for point in points {
        put_point(out, point)?;
    }
    Ok(())
}

/// Appends the number of a line's vertices, and the vertices.
pub fn put_line(out: &mut Vec<u8>, line: &Line) -> Result<(), Memory>
    requires { IsTrue (is_line_short line.now) }
    ensures bytes { OnOk result (out.new.items ≡ out.old.items ++ line_bytes line.now) }
    ensures good { OnOk result (IsTrue (list_all is_grid_point line.now)) }
{
    let vertices = line.vertices();
    put_number(out, vertices.len() as u32)?;
    put_points(out, vertices)
}

/// Appends an element: its id and its type.
fn put_pair(out: &mut Vec<u8>, pair: &Pair) -> Result<(), Memory>
    ensures bytes { OnOk result (out.new.items ≡ out.old.items ++ pair_bytes pair.now) }
    ensures good { OnOk result (IsTrue (is_pair pair.now)) }
{
    put_number(out, pair.id)?;
    put_number(out, pair.element_type)
}

/// Appends elements one after the other.
fn put_each(out: &mut Vec<u8>, pairs: &[Pair]) -> Result<(), Memory>
    ensures bytes { OnOk result (out.new.items ≡ out.old.items ++ flat_map pair_bytes pairs.now) }
    ensures good { OnOk result (IsTrue (list_all is_pair pairs.now)) }
{
    for pair in pairs {
        put_pair(out, pair)?;
    }
    Ok(())
}

/// Appends the number of the elements, and the elements.
pub fn put_pairs(out: &mut Vec<u8>, elements: &PairList) -> Result<(), Memory>
    ensures bytes { OnOk result (out.new.items ≡ out.old.items ++ pairs_bytes elements.now) }
    ensures good { OnOk result (IsTrue (list_all is_pair elements.now)) }
{
    let pairs = elements.pairs();
    put_number(out, pairs.len() as u32)?;
    put_each(out, pairs)
}

/// Appends a name behind its length in one byte.
pub fn put_name(out: &mut Vec<u8>, name: &Name) -> Result<(), Memory>
    ensures bytes { OnOk result (out.new.items ≡ out.old.items ++ name_bytes name.now) }
    ensures good { IsTrue (is_name name.now) }
{
    let bytes = name.as_bytes();
    out.push(bytes.len() as u8)?;
    out.extend_from_slice(bytes)?;
    Ok(())
}
