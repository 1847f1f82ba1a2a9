// The fields of an edit, read from the front of bytes: a value, and the bytes behind it.
ghost use Rattle.std.specs.Prelude.{◌≡◌, List, length, IfOk};
ghost use Rattle.std.specs.Int.{w32, w64};
ghost use Rattle.entry_codec.specs.Gives.{Gives};
ghost use Rattle.entry_codec.specs.Reading.{wide_at, number_at, option_at, point_at, many, line_at, pair_at, pairs_at, name_at, kind_at, editor_at};

use crate::CodecEnd;
use std::alloc::Global;
use topo_base::{Grid, Kind, Line, Name, Pair, PairList};

/// The most vertices of a line, and the most elements.
const MOST: u32 = 4096;

/// A number of 32 bits, high byte first.
#[tactic(auto, unfolding(crate::specs::Reading::number_at, crate::specs::Reading::wide_at))]
pub fn number_of(bytes: &[u8]) -> Result<(u32, &[u8]), CodecEnd>
    ensures { Gives (λ x. (x.0, x.1.now)) result (number_at bytes.now) }
{
    if bytes.len() < 4 {
        return Err(CodecEnd::NoEntry);
    }
    let (front, rest) = bytes.split_at(4);
    let number = u32::from_be_bytes([front[0], front[1], front[2], front[3]]);
    Ok((number, rest))
}

/// A number of 64 bits, high byte first.
#[tactic(auto, unfolding(crate::specs::Reading::wide_at))]
fn wide_of(bytes: &[u8]) -> Result<(u64, &[u8]), CodecEnd>
    ensures { Gives (λ x. (x.0, x.1.now)) result (wide_at w64 bytes.now) }
{
    if bytes.len() < 8 {
        return Err(CodecEnd::NoEntry);
    }
    let (front, rest) = bytes.split_at(8);
    let number = u64::from_be_bytes([
        front[0], front[1], front[2], front[3], front[4], front[5], front[6], front[7],
    ]);
    Ok((number, rest))
}

/// A number behind a byte 1, or none behind a byte 0.
#[tactic(auto, unfolding(crate::specs::Reading::option_at))]
pub fn option_of(bytes: &[u8]) -> Result<(Option<u32>, &[u8]), CodecEnd>
    ensures { Gives (λ x. (x.0, x.1.now)) result (option_at bytes.now) }
{
    match bytes {
        [0, rest @ ..] => Ok((None, rest)),
        [1, rest @ ..] => {
            let (number, rest) = number_of(rest)?;
            Ok((Some(number), rest))
        }
        _ => Err(CodecEnd::NoEntry),
    }
}

/// A point: its coordinates in two's complement.
#[tactic(auto, unfolding(crate::specs::Reading::point_at))]
pub fn point_of(bytes: &[u8]) -> Result<(Grid, &[u8]), CodecEnd>
    ensures { Gives (λ x. (x.0, x.1.now)) result (point_at bytes.now) }
{
    let (x, rest) = wide_of(bytes)?;
    let (y, rest) = wide_of(rest)?;
    match Grid::of(x.cast_signed(), y.cast_signed()) {
        Some(point) => Ok((point, rest)),
        None => Err(CodecEnd::NoEntry),
    }
}

/// So many points.
fn points_of(alloc: Global, count: u32, bytes: &[u8]) -> Result<(Vec<Grid>, &[u8]), CodecEnd>
    ensures { Gives (λ x. (x.0.items, x.1.now)) result (many point_at count bytes.now) }
{
    let mut points = Vec::new(alloc);
    let mut rest = bytes;
    for _ in 0..count {
        let (point, after) = match point_of(rest) {
            Ok(read) => read,
            Err(end) => return Err(end),
        };
        points.push(point)?;
        rest = after;
    }
    Ok((points, rest))
}

/// A line: the number of its vertices, 2 to 4096, and the vertices.
#[tactic(auto, unfolding(crate::specs::Reading::line_at))]
pub fn line_of(alloc: Global, bytes: &[u8]) -> Result<(Line, &[u8]), CodecEnd>
    ensures { Gives (λ x. (x.0, x.1.now)) result (line_at bytes.now) }
{
    let (count, rest) = number_of(bytes)?;
    if count < 2 || count > MOST {
        return Err(CodecEnd::NoEntry);
    }
    let (vertices, rest) = points_of(alloc, count, rest)?;
    match Line::of(vertices) {
        Ok(line) => Ok((line, rest)),
        Err(_) => unreachable!(),
    }
}

/// An element: its id and its type.
#[tactic(auto, unfolding(crate::specs::Reading::pair_at))]
fn pair_of(bytes: &[u8]) -> Result<(Pair, &[u8]), CodecEnd>
    ensures { Gives (λ x. (x.0, x.1.now)) result (pair_at bytes.now) }
{
    let (id, rest) = number_of(bytes)?;
    let (element_type, rest) = number_of(rest)?;
    Ok((Pair { id, element_type }, rest))
}

/// So many elements.
fn each_of(alloc: Global, count: u32, bytes: &[u8]) -> Result<(Vec<Pair>, &[u8]), CodecEnd>
    ensures { Gives (λ x. (x.0.items, x.1.now)) result (many pair_at count bytes.now) }
{
    let mut pairs = Vec::new(alloc);
    let mut rest = bytes;
    for _ in 0..count {
        let (pair, after) = pair_of(rest)?;
        pairs.push(pair)?;
        rest = after;
    }
    Ok((pairs, rest))
}

/// Elements: how many there are, at most 4096, and each of them.
#[tactic(auto, unfolding(crate::specs::Reading::pairs_at))]
pub fn pairs_of(alloc: Global, bytes: &[u8]) -> Result<(PairList, &[u8]), CodecEnd>
    ensures { Gives (λ x. (x.0, x.1.now)) result (pairs_at bytes.now) }
{
    let (count, rest) = number_of(bytes)?;
    if count > MOST {
        return Err(CodecEnd::NoEntry);
    }
    let (pairs, rest) = each_of(alloc, count, rest)?;
    match PairList::of(pairs) {
        Ok(elements) => Ok((elements, rest)),
        Err(_) => unreachable!(),
    }
}

/// A name behind its length in one byte.
#[tactic(auto, unfolding(crate::specs::Reading::name_at))]
pub fn name_of(alloc: Global, bytes: &[u8]) -> Result<(Name, &[u8]), CodecEnd>
    ensures { Gives (λ x. (x.0, x.1.now)) result (name_at bytes.now) }
{
    let [size, rest @ ..] = bytes else {
        return Err(CodecEnd::NoEntry);
    };
    let size = *size as usize;
    if rest.len() < size {
        return Err(CodecEnd::NoEntry);
    }
    let (name, rest) = rest.split_at(size);
    match Name::of(Vec::from_slice(alloc, name)?) {
        Ok(name) => Ok((name, rest)),
        Err(_) => Err(CodecEnd::NoEntry),
    }
}

/// The type of a layer's features in one byte.
#[tactic(auto, unfolding(crate::specs::Reading::kind_at))]
pub fn kind_of(bytes: &[u8]) -> Result<(Kind, &[u8]), CodecEnd>
    ensures { Gives (λ x. (x.0, x.1.now)) result (kind_at bytes.now) }
{
    match bytes {
        [1, rest @ ..] => Ok((Kind::Puntal, rest)),
        [2, rest @ ..] => Ok((Kind::Lineal, rest)),
        [3, rest @ ..] => Ok((Kind::Areal, rest)),
        _ => Err(CodecEnd::NoEntry),
    }
}
