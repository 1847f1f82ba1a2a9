// The rings of edges, by their links.
use crate::end::TableEnd;
use crate::flaw::Flaw;
use crate::tables::Tables;
use std::alloc::{AllocError, Global};

/// An edge, by its place in the table, with a direction: forward is from its start to its end.
#[derive(Clone, Copy, PartialEq, Eq)]
pub struct Step {
    pub place: usize,
    pub forward: bool,
}

/// Edges that follow one another until the first comes again, with one face on their left.
#[derive(Drop)]
pub struct Ring {
    pub face: u32,
    pub steps: Vec<Step>,
}

/// The steps that stand in a ring already.
#[derive(Drop)]
struct Seen {
    forward: Vec<bool>,
    backward: Vec<bool>,
}

/// Takes note of a place. Whether it is new.
fn note(places: &mut Vec<bool>, place: usize) -> bool {
    match places.get_mut(place) {
        Some(seen) => {
            let is_new = !*seen;
            *seen = true;
            is_new
        }
        None => false,
    }
}

impl Seen {
    fn none(alloc: Global, edges: usize) -> Result<Seen, AllocError> {
        Ok(Seen {
            forward: vec![in alloc; false; edges]?,
            backward: vec![in alloc; false; edges]?,
        })
    }

    /// Takes note of a step. Whether it is new.
    fn add(&mut self, step: Step) -> bool {
        if step.forward {
            note(&mut self.forward, step.place)
        } else {
            note(&mut self.backward, step.place)
        }
    }
}

/// The face on the left of a step.
fn face_of(tables: &Tables, step: Step) -> u32 {
    match tables.edges.get(step.place) {
        Some(row) if step.forward => row.left_face.0,
        Some(row) => row.right_face.0,
        None => 0,
    }
}

/// The step that follows, by the link of the edge.
fn next_of(tables: &Tables, step: Step) -> Result<Step, Flaw> {
    let Some(row) = tables.edges.get(step.place) else {
        return Err(Flaw::Ring);
    };
    let dart = if step.forward {
        row.next_left_edge
    } else {
        row.next_right_edge
    };
    match tables.edge_place(dart.edge.0) {
        Some(place) => Ok(Step {
            place,
            forward: dart.forward,
        }),
        None => Err(Flaw::Link { edge: dart.edge.0 }),
    }
}

/// The steps from one on, until it comes again.
fn walk(alloc: Global, tables: &Tables, seen: &mut Seen, first: Step) -> Result<Vec<Step>, Flaw> {
    let mut steps = Vec::new(alloc);
    let mut step = first;
    for _ in 0..u64::MAX {
        steps.push(step)?;
        step = next_of(tables, step)?;
        if step == first {
            return Ok(steps);
        }
        if !seen.add(step) {
            return Err(Flaw::Ring);
        }
    }
    Err(Flaw::Ring)
}

/// Adds the ring of a step, where it is in none yet.
fn add_ring(
    alloc: Global,
    tables: &Tables,
    seen: &mut Seen,
    rings: &mut Vec<Ring>,
    step: Step,
) -> Result<(), Flaw> {
    if seen.add(step) {
        let steps = walk(alloc, tables, seen, step)?;
        rings.push(Ring {
            face: face_of(tables, step),
            steps,
        })?;
    }
    Ok(())
}

/// Both links of an edge name edges that are there.
fn check_links(tables: &Tables, place: usize) -> Result<(), Flaw> {
    for forward in [true, false] {
        next_of(tables, Step { place, forward })?;
    }
    Ok(())
}

/// The flaw of an edge, at its line.
fn end_at(tables: &Tables, place: usize, flaw: Flaw) -> TableEnd {
    match flaw {
        Flaw::Memory => TableEnd::Memory,
        _ => TableEnd::BadLine {
            line: tables.line_of_edge(place),
            flaw,
        },
    }
}

fn check_all_links(tables: &Tables) -> Result<(), TableEnd> {
    for place in 0..tables.edges.len() {
        if let Err(flaw) = check_links(tables, place) {
            return Err(end_at(tables, place, flaw));
        }
    }
    Ok(())
}

/// Adds the rings on both sides of an edge.
fn add_rings(
    alloc: Global,
    tables: &Tables,
    seen: &mut Seen,
    rings: &mut Vec<Ring>,
    place: usize,
) -> Result<(), TableEnd> {
    for forward in [true, false] {
        if let Err(flaw) = add_ring(alloc, tables, seen, rings, Step { place, forward }) {
            return Err(end_at(tables, place, flaw));
        }
    }
    Ok(())
}

/// All rings, ascending by their faces.
pub fn rings_of(alloc: Global, tables: &Tables) -> Result<Vec<Ring>, TableEnd> {
    check_all_links(tables)?;
    let mut seen = Seen::none(alloc, tables.edges.len())?;
    let mut rings = Vec::new(alloc);
    for place in 0..tables.edges.len() {
        add_rings(alloc, tables, &mut seen, &mut rings, place)?;
    }
    rings.sort_by_key(|ring| ring.face)?;
    Ok(rings)
}

/// The rings of a face, among rings that ascend by their faces.
pub fn rings_of_face(rings: &[Ring], face: u32) -> &[Ring] {
    let first = rings.partition_point(|ring| ring.face < face);
    let end = rings.partition_point(|ring| ring.face <= face);
    rings.get(first..end).unwrap_or(&[])
}
