ghost use Rattle.std.specs.Prelude.{◌≡◌, ◌+◌, ◌<◌, ◌≤◌, ℕ, length, map, IfOk, OnOk, OnErr};
ghost use Rattle.indexmap.specs.IndexMap.{spare};
ghost use Rattle.script_model.specs.Bindings.{no_names, with_name, bound, element_id, id_of};
ghost use Rattle.script_reader.specs.Bindings.{names_of, with_bytes};

use indexmap::IndexMap;
use std::alloc::Global;
use std::marker::Model;
use topo_base::{Element, IdWord, Ids, Memory, Name};

/// The ids to which the names of a script are bound. Contracts see the names that are bound, each with
/// its id.
#[derive(Drop)]
pub struct Bindings {
    ids: IndexMap<Vec<u8>, u32>,
}

impl Model for Bindings {
    ghost use Rattle.std.specs.Prelude.{ℕ, List};
    ghost use Rattle.script_reader.specs.Bindings.{with_bytes};

    ghost Value = { List (List ℕ × ℕ) };

    ghost view = { λ b. with_bytes b.ids.entries };
}

/// The number of an element.
fn element_id(element: &Element) -> u32
    ensures { result ≡ element_id element.now }
{
    match element {
        Element::Drawing => 0,
        Element::Node(node) => node.0,
        Element::Edge(edge) => edge.0,
        Element::Face(face) => face.0,
        Element::Layer(layer) => layer.0,
        Element::Feature(feature) => feature.0,
    }
}

/// The bytes of each name.
fn copies(alloc: Global, names: &[Name]) -> Result<Vec<Vec<u8>>, Memory>
    ensures { IfOk result (λ v. map (λ bytes. bytes.items) v.items ≡ names.now) }
{
    let mut copies = Vec::with_capacity(alloc, names.len())?;
    for name in names {
        copies.push(Vec::from_slice(alloc, name.as_bytes())?)?;
    }
    Ok(copies)
}

/// Binds a name to an id, or with no id unbinds it.
fn put(ids: &mut IndexMap<Vec<u8>, u32>, name: Vec<u8>, id: Option<u32>)
    requires { 0 < spare ids.old }
    ensures names { names_of (with_bytes ids.new.entries) ≡ with_name (names_of (with_bytes ids.old.entries)) name.items id }
    ensures room { spare ids.old ≤ spare ids.new + 1 }
{
    match id {
        Some(id) => {
            ids.insert(name, id).unwrap();
        }
        None => {
            ids.swap_remove(name.as_slice());
        }
    }
}

/// Binds each name to the id of the element at its place.
fn put_all(ids: &mut IndexMap<Vec<u8>, u32>, names: Vec<Vec<u8>>, elements: &[Element])
    requires { length names.items ≤ spare ids.old }
    ensures { names_of (with_bytes ids.new.entries) ≡ bound (names_of (with_bytes ids.old.entries)) (map (λ bytes. bytes.items) names.items) elements.now }
{
    let mut rest = elements;
    for name in names {
        let id = match rest {
            [] => None,
            [first, others @ ..] => {
                rest = others;
                Some(element_id(first))
            }
        };
        put(ids, name, id);
    }
}

impl Bindings {
    /// No name is bound. Takes no memory.
    pub fn new(alloc: Global) -> Bindings
        ensures { names_of result ≡ no_names }
    {
        Bindings {
            ids: IndexMap::new(alloc),
        }
    }

    /// Binds each name to the id of the element at its place, from left to right. A name past the
    /// elements is unbound.
    pub fn bind(&mut self, names: &[Name], ids: &Ids) -> Result<(), Memory>
        ensures ok { OnOk result (names_of self.new ≡ bound (names_of self.old) names.now ids.now) }
        ensures err { OnErr result (self.new ≡ self.old) }
    {
        let names = copies(*self.ids.allocator(), names)?;
        self.ids.reserve(names.len())?;
        put_all(&mut self.ids, names, ids.as_slice());
        Ok(())
    }

    /// The id that a word stands for, or None where it is a name that isn't bound.
    pub(crate) fn id_of(&self, word: &IdWord) -> Option<u32>
        ensures { result ≡ id_of (names_of self.now) word.now }
    {
        match word {
            IdWord::Number(number) => Some(*number),
            IdWord::Bound(name) => self.ids.get(name.as_bytes()).copied(),
        }
    }
}

#[cfg(test)]
mod tests;
