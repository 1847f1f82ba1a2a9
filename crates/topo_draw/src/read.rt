// The tables from their text.
use crate::end::TableEnd;
use crate::flaw::Flaw;
use crate::line::Words;
use crate::rows::{edge_row, face_row, feature_row, layer_row, next_ids, node_row, relation_row};
use crate::tables::Tables;
use std::alloc::Global;

/// What a line is of, in the order in which the lines stand.
#[derive(Clone, Copy, PartialEq, Eq)]
enum Part {
    Next,
    Nodes,
    Edges,
    Faces,
    Layers,
    Features,
    Relations,
}

impl Part {
    /// The part whose lines begin with this word.
    fn of(word: &[u8]) -> Option<Part> {
        match word {
            b"next" => Some(Part::Next),
            b"node" => Some(Part::Nodes),
            b"edge" => Some(Part::Edges),
            b"face" => Some(Part::Faces),
            b"layer" => Some(Part::Layers),
            b"feature" => Some(Part::Features),
            b"relation" => Some(Part::Relations),
            _ => None,
        }
    }
}

/// What a row is sorted by within its part.
#[derive(Clone, Copy, PartialEq, Eq)]
struct Key(u32, u32, u32);

impl Key {
    fn is_above(&self, other: &Key) -> bool {
        if self.0 != other.0 {
            return self.0 > other.0;
        }
        if self.1 != other.1 {
            return self.1 > other.1;
        }
        self.2 > other.2
    }
}

/// Tables that grow line by line.
#[derive(Drop)]
struct Reader {
    alloc: Global,
    tables: Tables,
    part: Option<Part>,
    key: Option<Key>,
}

impl Reader {
    /// Goes on to the part of the next line.
    fn enter(&mut self, part: Part) -> Result<(), Flaw> {
        let Some(old) = self.part else {
            self.part = Some(part);
            return if part == Part::Next {
                Ok(())
            } else {
                Err(Flaw::NoNext)
            };
        };
        if part == Part::Next || (part as u8) < (old as u8) {
            return Err(Flaw::Order);
        }
        if part as u8 > Part::Faces as u8 && self.tables.faces.is_empty() {
            return Err(Flaw::NoFaceZero);
        }
        if part != old {
            self.part = Some(part);
            self.key = None;
        }
        Ok(())
    }

    /// Takes note of a row's key, which is to be above that of the row before it.
    fn ascend(&mut self, key: Key) -> Result<(), Flaw> {
        if let Some(old) = self.key
            && !key.is_above(&old)
        {
            return Err(Flaw::Ascending);
        }
        self.key = Some(key);
        Ok(())
    }

    fn node(&mut self, words: &mut Words<'_>) -> Result<(), Flaw> {
        let row = node_row(words)?;
        self.ascend(Key(row.node_id.0, 0, 0))?;
        self.tables.nodes.push(row)?;
        Ok(())
    }

    fn edge(&mut self, words: &mut Words<'_>) -> Result<(), Flaw> {
        let row = edge_row(self.alloc, words)?;
        self.ascend(Key(row.edge_id.0, 0, 0))?;
        self.tables.edges.push(row)?;
        Ok(())
    }

    fn face(&mut self, words: &mut Words<'_>) -> Result<(), Flaw> {
        let row = face_row(words, self.tables.faces.is_empty())?;
        self.ascend(Key(row.face_id.0, 0, 0))?;
        self.tables.faces.push(row)?;
        Ok(())
    }

    fn layer(&mut self, words: &mut Words<'_>) -> Result<(), Flaw> {
        let row = layer_row(self.alloc, words)?;
        self.ascend(Key(row.layer_id.0, 0, 0))?;
        self.tables.layers.push(row)?;
        Ok(())
    }

    fn feature(&mut self, words: &mut Words<'_>) -> Result<(), Flaw> {
        let row = feature_row(words)?;
        self.ascend(Key(row.feature_id.0, 0, 0))?;
        self.tables.features.push(row)?;
        Ok(())
    }

    fn relation(&mut self, words: &mut Words<'_>) -> Result<(), Flaw> {
        let row = relation_row(words)?;
        self.ascend(Key(row.topogeo_id.0, row.element_type, row.element_id))?;
        self.tables.relations.push(row)?;
        Ok(())
    }

    fn row(&mut self, part: Part, words: &mut Words<'_>) -> Result<(), Flaw> {
        match part {
            Part::Next => next_ids(words),
            Part::Nodes => self.node(words),
            Part::Edges => self.edge(words),
            Part::Faces => self.face(words),
            Part::Layers => self.layer(words),
            Part::Features => self.feature(words),
            Part::Relations => self.relation(words),
        }
    }

    /// Takes a line.
    fn line(&mut self, line: &[u8]) -> Result<(), Flaw> {
        let mut words = Words::of(line);
        let Some(part) = Part::of(words.word()?) else {
            return Err(Flaw::Word);
        };
        self.enter(part)?;
        self.row(part, &mut words)?;
        words.end()
    }

    /// What is missing behind the last line.
    fn lack(&self) -> Option<Flaw> {
        if self.part.is_none() {
            return Some(Flaw::NoNext);
        }
        if self.tables.faces.is_empty() {
            return Some(Flaw::NoFaceZero);
        }
        None
    }
}

/// A flaw of a line.
fn end_at(line: u64, flaw: Flaw) -> TableEnd {
    match flaw {
        Flaw::Memory => TableEnd::Memory,
        _ => TableEnd::BadLine { line, flaw },
    }
}

/// Takes each line, and gives their number.
fn read_lines(reader: &mut Reader, text: &[u8]) -> Result<u64, TableEnd> {
    let mut lines = 0u64;
    for line in text.split(|byte| *byte == b'\n') {
        lines = lines.saturating_add(1);
        if let Err(flaw) = reader.line(line) {
            return Err(end_at(lines, flaw));
        }
    }
    Ok(lines)
}

/// The tables that a text is. The first line that is none of theirs is named, counted from 1.
pub fn read_tables(alloc: Global, text: &[u8]) -> Result<Tables, TableEnd> {
    let mut reader = Reader {
        alloc,
        tables: Tables::new(alloc),
        part: None,
        key: None,
    };
    let lines = if text.is_empty() {
        0
    } else {
        read_lines(
            &mut reader,
            text.strip_suffix(b"\n".as_slice()).unwrap_or(text),
        )?
    };
    match reader.lack() {
        Some(flaw) => Err(end_at(lines.saturating_add(1), flaw)),
        None => Ok(reader.tables),
    }
}
