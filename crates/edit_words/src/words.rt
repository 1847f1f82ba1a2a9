// Words of a line, each after a space.
ghost use Rattle.std.specs.Prelude.{◌≡◌, ◌++◌, ◌∷◌, [], OnOk, flat_map};
ghost use Rattle.std.specs.Fmt.{decimal, signed_decimal};
ghost use Rattle.script_model.specs.Words.{spaced, option_word, point_words, line_words, dart_word, element_words};

use topo_base::{Dart, Element, Grid, Line, Memory, Text};
use topo_io::{push_count, push_number};

/// A word as it is.
pub fn push_word(text: &mut Text, word: &[u8]) -> Result<(), Memory>
    ensures { OnOk result (text.new ≡ text.old ++ 32 ∷ word.now) }
{
    text.push(b' ')?;
    text.push_bytes(word)
}

/// A count or an id.
pub fn push_count_word(text: &mut Text, n: u64) -> Result<(), Memory>
    ensures { OnOk result (text.new ≡ text.old ++ 32 ∷ decimal n) }
{
    text.push(b' ')?;
    push_count(text, n)
}

/// A coordinate.
pub fn push_number_word(text: &mut Text, n: i64) -> Result<(), Memory>
    ensures { OnOk result (text.new ≡ text.old ++ 32 ∷ signed_decimal n) }
{
    text.push(b' ')?;
    push_number(text, n)
}

/// An id, or `-` where there is none.
pub fn push_option_word(text: &mut Text, id: Option<u32>) -> Result<(), Memory>
    ensures { OnOk result (text.new ≡ text.old ++ 32 ∷ option_word id) }
{
    match id {
        None => push_word(text, b"-"),
        Some(id) => push_count_word(text, u64::from(id)),
    }
}

/// An edge, with a minus where it is walked from its end to its start.
pub fn push_dart_word(text: &mut Text, dart: Dart) -> Result<(), Memory>
    ensures { OnOk result (text.new ≡ text.old ++ 32 ∷ dart_word dart) }
{
    if dart.forward {
        push_count_word(text, u64::from(dart.edge.0))
    } else {
        push_word(text, b"-")?;
        push_count(text, u64::from(dart.edge.0))
    }
}

/// The coordinates of a point.
pub fn push_point(text: &mut Text, point: Grid) -> Result<(), Memory>
    ensures { OnOk result (text.new ≡ text.old ++ spaced (point_words point)) }
{
    push_number_word(text, point.x())?;
    push_number_word(text, point.y())
}

/// The coordinates of all vertices.
pub fn push_line(text: &mut Text, line: &Line) -> Result<(), Memory>
    ensures { OnOk result (text.new ≡ text.old ++ spaced (line_words line.now)) }
{
    for vertex in line.vertices() {
        push_point(text, *vertex)?;
    }
    Ok(())
}

/// An element with its kind.
pub fn push_element(text: &mut Text, element: Element) -> Result<(), Memory>
    ensures { OnOk result (text.new ≡ text.old ++ spaced (element_words element)) }
{
    match element {
        Element::Drawing => push_word(text, b"drawing"),
        Element::Node(id) => {
            push_word(text, b"node")?;
            push_count_word(text, u64::from(id.0))
        }
        Element::Edge(id) => {
            push_word(text, b"edge")?;
            push_count_word(text, u64::from(id.0))
        }
        Element::Face(id) => {
            push_word(text, b"face")?;
            push_count_word(text, u64::from(id.0))
        }
        Element::Layer(id) => {
            push_word(text, b"layer")?;
            push_count_word(text, u64::from(id.0))
        }
        Element::Feature(id) => {
            push_word(text, b"feature")?;
            push_count_word(text, u64::from(id.0))
        }
    }
}
