// Elements that relation rows name by their type and their number.
ghost use Rattle.std.specs.Prelude.{◌≡◌, IsTrue};
ghost use Rattle.relation_rows.specs.Elements.{is_primitive, number_of, type_of};

use topo_base::Element;

/// The type of a node, an edge or a face in relation rows: 1, 2 or 3.
pub fn type_of(element: &Element) -> u32
    requires { IsTrue (is_primitive element.now) }
    ensures { result ≡ type_of element.now }
{
    match element {
        Element::Node(_) => 1,
        Element::Edge(_) => 2,
        Element::Face(_) => 3,
        _ => unreachable!(),
    }
}

/// The number of a node, an edge or a face.
pub fn number_of(element: &Element) -> u32
    requires { IsTrue (is_primitive element.now) }
    ensures { result ≡ number_of element.now }
{
    match element {
        Element::Node(node) => node.0,
        Element::Edge(edge) => edge.0,
        Element::Face(face) => face.0,
        _ => unreachable!(),
    }
}
