// The fields of a row, each read from the words in front.
ghost use Rattle.std.specs.Prelude.{◌≡◌, ◌<◌, ◌^◌, nat_le};
ghost use Rattle.topo_base.specs.Names.{is_name};
ghost use Rattle.table_dump.specs.Lines.{words_behind};
ghost use Rattle.table_dump.specs.Words.{Gives, many, tested, up_to, between, named_at, own_at, next_at, count_at, option_in, option_at, dart_in, dart_at, integer_in, integer_at, point_at, line_at, box_at, kind_in, kind_at, name_at};

use crate::ends::LineEnd;
use crate::pieces::word;
use std::alloc::Global;
use topo_base::{Box4, Grid, Kind, Line, Name};
use topo_io::number;

/// The greatest id.
const MAX_ID: u32 = 16777215;

/// The number up to a bound whose strict decimal the word is.
#[tactic(auto, unfolding(crate::specs::Words::up_to))]
fn up_to(word: &[u8], high: u32) -> Result<u32, LineEnd>
    ensures { Gives (λ n. n) result (up_to high word.now) }
{
    let Some(n) = number(word) else {
        return Err(LineEnd::Bad);
    };
    match u32::try_from(n) {
        Err(_) => Err(LineEnd::Bad),
        Ok(id) => {
            if id <= high {
                Ok(id)
            } else {
                Err(LineEnd::Bad)
            }
        }
    }
}

/// The number in a range whose strict decimal the word is.
#[tactic(auto, unfolding(crate::specs::Words::between))]
fn between(word: &[u8], low: u32, high: u32) -> Result<u32, LineEnd>
    ensures { Gives (λ n. n) result (between low high word.now) }
{
    let n = up_to(word, high)?;
    if low <= n { Ok(n) } else { Err(LineEnd::Bad) }
}

/// An id that a row names, or a level, or an element.
#[tactic(auto, unfolding(crate::specs::Words::named_at))]
pub fn named_id(words: &[u8]) -> Result<(u32, &[u8]), LineEnd>
    ensures { Gives (λ x. (x.0, words_behind x.1.now)) result (named_at (words_behind words.now)) }
{
    let (word, rest) = word(words)?;
    let id = up_to(word, MAX_ID)?;
    Ok((id, rest))
}

/// A row's own id.
#[tactic(auto, unfolding(crate::specs::Words::own_at))]
pub fn own_id(words: &[u8]) -> Result<(u32, &[u8]), LineEnd>
    ensures { Gives (λ x. (x.0, words_behind x.1.now)) result (own_at (words_behind words.now)) }
{
    let (word, rest) = word(words)?;
    let id = between(word, 1, MAX_ID)?;
    Ok((id, rest))
}

/// The next id of a table.
#[tactic(auto, unfolding(crate::specs::Words::next_at))]
pub fn next_id(words: &[u8]) -> Result<(u32, &[u8]), LineEnd>
    ensures { Gives (λ x. (x.0, words_behind x.1.now)) result (next_at (words_behind words.now)) }
{
    let (word, rest) = word(words)?;
    let id = between(word, 1, MAX_ID + 1)?;
    Ok((id, rest))
}

/// How many vertices a line has.
#[tactic(auto, unfolding(crate::specs::Words::count_at))]
fn count_of(words: &[u8]) -> Result<(u32, &[u8]), LineEnd>
    ensures { Gives (λ x. (x.0, words_behind x.1.now)) result (count_at (words_behind words.now)) }
{
    let (word, rest) = word(words)?;
    let count = between(word, 2, MAX_ID)?;
    Ok((count, rest))
}

/// The id that a word is, or none for `-`.
#[tactic(auto, unfolding(crate::specs::Words::option_in))]
fn option_of(word: &[u8]) -> Result<Option<u32>, LineEnd>
    ensures { Gives (λ n. n) result (option_in word.now) }
{
    if word == b"-".as_slice() {
        return Ok(None);
    }
    let id = up_to(word, MAX_ID)?;
    Ok(Some(id))
}

/// An id that a row may name, or `-`.
#[tactic(auto, unfolding(crate::specs::Words::option_at))]
pub fn option_id(words: &[u8]) -> Result<(Option<u32>, &[u8]), LineEnd>
    ensures { Gives (λ x. (x.0, words_behind x.1.now)) result (option_at (words_behind words.now)) }
{
    let (word, rest) = word(words)?;
    let id = option_of(word)?;
    Ok((id, rest))
}

/// The edge that a word is, and whether it has no minus.
#[tactic(auto, unfolding(crate::specs::Words::dart_in))]
fn dart_of(word: &[u8]) -> Result<(u32, bool), LineEnd>
    ensures { Gives (λ d. record { edge = d.0; forward = d.1 }) result (dart_in word.now) }
{
    match word {
        [b'-', rest @ ..] => {
            let edge = between(rest, 1, MAX_ID)?;
            Ok((edge, false))
        }
        _ => {
            let edge = between(word, 1, MAX_ID)?;
            Ok((edge, true))
        }
    }
}

/// An edge, and whether it is walked from its start to its end.
#[tactic(auto, unfolding(crate::specs::Words::dart_at))]
pub fn dart(words: &[u8]) -> Result<(u32, bool, &[u8]), LineEnd>
    ensures { Gives (λ x. (record { edge = x.0; forward = x.1 }, words_behind x.2.now)) result (dart_at (words_behind words.now)) }
{
    let (word, rest) = word(words)?;
    let (edge, forward) = dart_of(word)?;
    Ok((edge, forward, rest))
}

/// The whole number whose strict decimal the word is.
#[tactic(auto, unfolding(crate::specs::Words::integer_in))]
fn integer_of(word: &[u8]) -> Result<i64, LineEnd>
    ensures { Gives (λ n. n) result (integer_in word.now) }
{
    match number(word) {
        Some(n) => Ok(n),
        None => Err(LineEnd::Bad),
    }
}

/// A whole number.
#[tactic(auto, unfolding(crate::specs::Words::integer_at))]
fn integer(words: &[u8]) -> Result<(i64, &[u8]), LineEnd>
    ensures { Gives (λ x. (x.0, words_behind x.1.now)) result (integer_at (words_behind words.now)) }
{
    let (word, rest) = word(words)?;
    let n = integer_of(word)?;
    Ok((n, rest))
}

/// A point: its coordinates.
#[tactic(auto, unfolding(crate::specs::Words::point_at))]
pub fn point(words: &[u8]) -> Result<(Grid, &[u8]), LineEnd>
    ensures { Gives (λ x. (x.0, words_behind x.1.now)) result (point_at (words_behind words.now)) }
{
    let (x, rest) = integer(words)?;
    let (y, rest) = integer(rest)?;
    match Grid::of(x, y) {
        Some(point) => Ok((point, rest)),
        None => Err(LineEnd::Bad),
    }
}

/// So many points.
fn points(alloc: Global, count: u32, words: &[u8]) -> Result<(Vec<Grid>, &[u8]), LineEnd>
    ensures { Gives (λ x. (x.0.items, words_behind x.1.now)) result (many point_at count (words_behind words.now)) }
{
    let mut points = Vec::new(alloc);
    let mut rest = words;
    for _ in 0..count {
        let (point, after) = match point(rest) {
            Ok(read) => read,
            Err(end) => return Err(end),
        };
        points.push(point)?;
        rest = after;
    }
    Ok((points, rest))
}

/// How many vertices there are, and these.
#[tactic(auto, unfolding(crate::specs::Words::line_at))]
pub fn line(alloc: Global, words: &[u8]) -> Result<(Line, &[u8]), LineEnd>
    ensures { Gives (λ x. (x.0, words_behind x.1.now)) result (line_at (words_behind words.now)) }
{
    let (count, rest) = count_of(words)?;
    let (vertices, rest) = points(alloc, count, rest)?;
    match Line::of(vertices) {
        Ok(line) => Ok((line, rest)),
        Err(_) => unreachable!(),
    }
}

/// The corners of a box.
#[tactic(auto, unfolding(crate::specs::Words::box_at))]
pub fn mbr(words: &[u8]) -> Result<(Box4, &[u8]), LineEnd>
    ensures { Gives (λ x. (x.0, words_behind x.1.now)) result (box_at (words_behind words.now)) }
{
    let (low, rest) = match point(words) {
        Ok(read) => read,
        Err(end) => return Err(end),
    };
    let (high, rest) = match point(rest) {
        Ok(read) => read,
        Err(end) => return Err(end),
    };
    if low.x() <= high.x() && low.y() <= high.y() {
        let mbr = Box4 {
            min_x: low.x(),
            min_y: low.y(),
            max_x: high.x(),
            max_y: high.y(),
        };
        Ok((mbr, rest))
    } else {
        Err(LineEnd::Bad)
    }
}

/// The type of features whose number the word is.
#[tactic(auto, unfolding(crate::specs::Words::kind_in))]
fn kind_of(word: &[u8]) -> Result<Kind, LineEnd>
    ensures { Gives (λ k. k) result (kind_in word.now) }
{
    if word == b"1".as_slice() {
        Ok(Kind::Puntal)
    } else if word == b"2".as_slice() {
        Ok(Kind::Lineal)
    } else if word == b"3".as_slice() {
        Ok(Kind::Areal)
    } else {
        Err(LineEnd::Bad)
    }
}

/// The number of a type of features.
#[tactic(auto, unfolding(crate::specs::Words::kind_at))]
pub fn kind(words: &[u8]) -> Result<(Kind, &[u8]), LineEnd>
    ensures { Gives (λ x. (x.0, words_behind x.1.now)) result (kind_at (words_behind words.now)) }
{
    let (word, rest) = word(words)?;
    let kind = kind_of(word)?;
    Ok((kind, rest))
}

/// The name that a word is.
fn name_of(alloc: Global, word: &[u8]) -> Result<Name, LineEnd>
    ensures { Gives (λ n. n) result (tested is_name word.now) }
{
    if 63 < word.len() {
        return Err(LineEnd::Bad);
    }
    match Name::of(Vec::from_slice(alloc, word)?) {
        Ok(name) => Ok(name),
        Err(_) => Err(LineEnd::Bad),
    }
}

/// A name.
#[tactic(auto, unfolding(crate::specs::Words::name_at))]
pub fn name(alloc: Global, words: &[u8]) -> Result<(Name, &[u8]), LineEnd>
    ensures { Gives (λ x. (x.0, words_behind x.1.now)) result (name_at (words_behind words.now)) }
{
    let (word, rest) = word(words)?;
    match name_of(alloc, word) {
        Ok(name) => Ok((name, rest)),
        Err(end) => Err(end),
    }
}
