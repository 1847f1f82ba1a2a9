ghost use Rattle.std.specs.Prelude.{List, IfOk, MatchOption};
ghost use Rattle.topo_base.specs.Point.{Point};
ghost use Rattle.script_model.specs.Script.{words_of};
ghost use Rattle.script_reader.specs.Reading.{Finds, AreVertices, IsNewLine};

use crate::points::point_of;
use crate::words::{first_two_words, first_word};
use std::alloc::Global;
use topo_base::{Grid, Line, Memory};

/// The most vertices that a line of an edit has.
const MAX_VERTICES: usize = 4096;

/// The vertices whose coordinates the words are, two words a vertex. Not more than 4096 vertices are
/// kept, however many words there are.
fn vertices_of(alloc: Global, words: &[u8]) -> Result<Option<Vec<Grid>>, Memory>
    ensures { IfOk result (λ o. MatchOption o ((ps : List Point) → AreVertices (words_of words.now) ps → ⊥) (λ v. AreVertices (words_of words.now) v.items)) }
{
    let mut vertices = Vec::new(alloc);
    let mut rest = words;
    while let Some((x, y, after)) = first_two_words(rest) {
        if vertices.len() == MAX_VERTICES {
            return Ok(None);
        }
        let Some(vertex) = point_of(x, y) else {
            return Ok(None);
        };
        vertices.push(vertex)?;
        rest = after;
    }
    match first_word(rest) {
        Some(_) => Ok(None),
        None => Ok(Some(vertices)),
    }
}

/// The line of an edit whose vertices the words are: 2 to 4096 vertices, two words a vertex.
pub fn line_of(alloc: Global, words: &[u8]) -> Result<Option<Line>, Memory>
    ensures { IfOk result (Finds (IsNewLine (words_of words.now))) }
{
    let Some(vertices) = vertices_of(alloc, words)? else {
        return Ok(None);
    };
    match Line::of(vertices) {
        Ok(line) => Ok(Some(line)),
        Err(_) => Ok(None),
    }
}
