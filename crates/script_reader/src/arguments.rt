ghost use Rattle.std.specs.Prelude.{List, IfOk, MatchOption};
ghost use Rattle.topo_base.specs.Point.{Point};
ghost use Rattle.script_model.specs.Script.{words_of};
ghost use Rattle.script_reader.specs.Reading.{AreEndsAndLine, AreIdAndPoint, AreThreeIds, AreTwoIds};

use crate::ids::id_word;
use crate::points::point_of;
use crate::vertices::line_of;
use crate::words::{first_two_words, three_words, two_words};
use std::alloc::Global;
use topo_base::{Grid, IdWord, Line, Memory};

/// An id and a point, where the arguments are such.
pub fn id_and_point(alloc: Global, arguments: &[u8]) -> Result<Option<(IdWord, Grid)>, Memory>
    ensures { IfOk result (λ o. MatchOption o
        ((a : IdWord) (p : Point) → AreIdAndPoint (words_of arguments.now) a p → ⊥)
        (λ x. AreIdAndPoint (words_of arguments.now) x.0 x.1)) }
{
    let Some((id, x, y)) = three_words(arguments) else {
        return Ok(None);
    };
    let Some(geom) = point_of(x, y) else {
        return Ok(None);
    };
    let Some(id) = id_word(alloc, id)? else {
        return Ok(None);
    };
    Ok(Some((id, geom)))
}

/// The ends and the line of an edit that adds an edge, where the arguments are such.
pub fn ends_and_line(
    alloc: Global,
    arguments: &[u8],
) -> Result<Option<(IdWord, IdWord, Line)>, Memory>
    ensures { IfOk result (λ o. MatchOption o
        ((a b : IdWord) (line : List Point) → AreEndsAndLine (words_of arguments.now) a b line → ⊥)
        (λ p. AreEndsAndLine (words_of arguments.now) p.0 p.1 p.2)) }
{
    let Some((start, end, vertices)) = first_two_words(arguments) else {
        return Ok(None);
    };
    let Some(start) = id_word(alloc, start)? else {
        return Ok(None);
    };
    let Some(end) = id_word(alloc, end)? else {
        return Ok(None);
    };
    let Some(line) = line_of(alloc, vertices)? else {
        return Ok(None);
    };
    Ok(Some((start, end, line)))
}

/// Two ids, where the arguments are such.
pub fn two_ids(alloc: Global, arguments: &[u8]) -> Result<Option<(IdWord, IdWord)>, Memory>
    ensures { IfOk result (λ o. MatchOption o
        ((a b : IdWord) → AreTwoIds (words_of arguments.now) a b → ⊥)
        (λ p. AreTwoIds (words_of arguments.now) p.0 p.1)) }
{
    let Some((first, second)) = two_words(arguments) else {
        return Ok(None);
    };
    let Some(first) = id_word(alloc, first)? else {
        return Ok(None);
    };
    let Some(second) = id_word(alloc, second)? else {
        return Ok(None);
    };
    Ok(Some((first, second)))
}

/// Three ids, where the arguments are such.
pub fn three_ids(
    alloc: Global,
    arguments: &[u8],
) -> Result<Option<(IdWord, IdWord, IdWord)>, Memory>
    ensures { IfOk result (λ o. MatchOption o
        ((a b c : IdWord) → AreThreeIds (words_of arguments.now) a b c → ⊥)
        (λ p. AreThreeIds (words_of arguments.now) p.0 p.1 p.2)) }
{
    let Some((first, second, third)) = three_words(arguments) else {
        return Ok(None);
    };
    let Some(first) = id_word(alloc, first)? else {
        return Ok(None);
    };
    let Some(second) = id_word(alloc, second)? else {
        return Ok(None);
    };
    let Some(third) = id_word(alloc, third)? else {
        return Ok(None);
    };
    Ok(Some((first, second, third)))
}
