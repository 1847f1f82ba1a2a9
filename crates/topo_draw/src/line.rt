// The words of one line.
use crate::flaw::Flaw;
use std::alloc::Global;
use topo_base::{Box4, Dart, EdgeId, Grid, Kind, Line, Name};
use topo_io::number;

/// The greatest id.
const MAX_ID: u32 = 16_777_215;

/// What stands before the first such byte, and behind it.
fn split(text: &[u8], byte: u8) -> Option<(&[u8], &[u8])> {
    for (at, one) in text.iter().enumerate() {
        if *one == byte {
            let (front, rest) = text.split_at(at);
            let (_, after) = rest.split_at(1);
            return Some((front, after));
        }
    }
    None
}

/// The id, the level or the count that a word is.
fn count_of(word: &[u8]) -> Result<u32, Flaw> {
    let Some(n) = number(word) else {
        return Err(Flaw::Number);
    };
    match u32::try_from(n) {
        Ok(n) if n <= MAX_ID => Ok(n),
        _ => Err(Flaw::Number),
    }
}

/// The edge that a word names.
fn edge_of(word: &[u8]) -> Result<EdgeId, Flaw> {
    let edge = count_of(word)?;
    if edge == 0 {
        return Err(Flaw::Number);
    }
    Ok(EdgeId(edge))
}

/// The words of a line from one of them on: `None` behind the last.
#[derive(Drop)]
pub struct Words<'a> {
    rest: Option<&'a [u8]>,
}

impl<'a> Words<'a> {
    pub fn of(line: &'a [u8]) -> Words<'a> {
        Words { rest: Some(line) }
    }

    pub fn word(&mut self) -> Result<&'a [u8], Flaw> {
        let Some(rest) = self.rest else {
            return Err(Flaw::Short);
        };
        match split(rest, b' ') {
            None => {
                self.rest = None;
                Ok(rest)
            }
            Some((word, after)) => {
                self.rest = Some(after);
                Ok(word)
            }
        }
    }

    /// A coordinate.
    fn number(&mut self) -> Result<i64, Flaw> {
        number(self.word()?).ok_or(Flaw::Number)
    }

    /// An id that is named, a level or a count: from 0 to the greatest id.
    pub fn count(&mut self) -> Result<u32, Flaw> {
        count_of(self.word()?)
    }

    /// The next id of a table, which may be one more than the greatest id.
    pub fn next_id(&mut self) -> Result<u32, Flaw> {
        let n = number(self.word()?).ok_or(Flaw::Number)?;
        match u32::try_from(n) {
            Ok(n) if 1 <= n && n - 1 <= MAX_ID => Ok(n),
            _ => Err(Flaw::Number),
        }
    }

    /// An id of a row: from 1 to the greatest id.
    pub fn own_id(&mut self) -> Result<u32, Flaw> {
        let id = self.count()?;
        if id == 0 {
            return Err(Flaw::Number);
        }
        Ok(id)
    }

    /// An id, or `-` where there is none.
    pub fn option(&mut self) -> Result<Option<u32>, Flaw> {
        let word = self.word()?;
        if word == b"-".as_slice() {
            return Ok(None);
        }
        Ok(Some(count_of(word)?))
    }

    /// An edge, with a minus where it is walked from its end to its start.
    pub fn dart(&mut self) -> Result<Dart, Flaw> {
        let word = self.word()?;
        match word.strip_prefix(b"-".as_slice()) {
            None => Ok(Dart {
                edge: edge_of(word)?,
                forward: true,
            }),
            Some(edge) => Ok(Dart {
                edge: edge_of(edge)?,
                forward: false,
            }),
        }
    }

    pub fn point(&mut self) -> Result<Grid, Flaw> {
        let x = self.number()?;
        let y = self.number()?;
        Grid::of(x, y).ok_or(Flaw::Number)
    }

    /// The number of the vertices, and these.
    pub fn line(&mut self, alloc: Global) -> Result<Line, Flaw> {
        let mut vertices = Vec::new(alloc);
        for _ in 0..self.count()? {
            vertices.push(self.point()?)?;
        }
        Line::of(vertices).map_err(|_| Flaw::Number)
    }

    /// The corners of a box, or `-` where there is none.
    pub fn corners(&mut self) -> Result<Option<Box4>, Flaw> {
        if self.rest == Some(b"-".as_slice()) {
            self.rest = None;
            return Ok(None);
        }
        let least = self.point()?;
        let greatest = self.point()?;
        if greatest.x() < least.x() || greatest.y() < least.y() {
            return Err(Flaw::Corners);
        }
        Ok(Some(Box4 {
            min_x: least.x(),
            min_y: least.y(),
            max_x: greatest.x(),
            max_y: greatest.y(),
        }))
    }

    pub fn kind(&mut self) -> Result<Kind, Flaw> {
        match self.count()? {
            1 => Ok(Kind::Puntal),
            2 => Ok(Kind::Lineal),
            3 => Ok(Kind::Areal),
            _ => Err(Flaw::Number),
        }
    }

    pub fn name(&mut self, alloc: Global) -> Result<Name, Flaw> {
        let bytes = Vec::from_slice(alloc, self.word()?)?;
        Name::of(bytes).map_err(|_| Flaw::Name)
    }

    pub fn end(&self) -> Result<(), Flaw> {
        match self.rest {
            None => Ok(()),
            Some(_) => Err(Flaw::Long),
        }
    }
}
