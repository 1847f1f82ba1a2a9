//! Names that are bound, bound again and unbound, and edits and lines with them.

use super::Bindings;
use crate::{LineEdit, ResolveEnd, ScriptLine};
use std::alloc::Global;
use std::process::Abort;
use std::test::Fail;
use topo_base::{Edit, Element, IdWord, Ids, Name, NamedEdit, NodeId};

fn name(alloc: Global, text: &str) -> Result<Name, Fail> {
    Ok(Name::of(text.as_bytes().to_vec(alloc)?)?)
}

fn word(alloc: Global, text: &str) -> Result<IdWord, Fail> {
    Ok(IdWord::Bound(name(alloc, text)?))
}

fn one_node(node: u32) -> Ids {
    let mut ids = Ids::new();
    ids.push(Element::Node(NodeId(node)));
    ids
}

fn two_nodes(first: u32, second: u32) -> Ids {
    let mut ids = Ids::new();
    ids.push(Element::Node(NodeId(first)));
    ids.push(Element::Node(NodeId(second)));
    ids
}

/// The node that `removeisonode` with this word removes.
fn removed(
    rt: &impl Abort,
    alloc: Global,
    bindings: &Bindings,
    node: IdWord,
) -> Result<u32, ResolveEnd> {
    match bindings.resolve(alloc, &NamedEdit::RemoveIsoNode { node })? {
        Edit::RemoveIsoNode { node } => Ok(node.0),
        _ => panic!(rt; "another edit"),
    }
}

#[test]
fn name_twice_in_a_line_has_the_last_id(rt: HostRuntime) -> Result<(), Fail> {
    let alloc = rt.alloc();
    let mut bindings = Bindings::new(alloc);
    bindings.bind(&[name(alloc, "a")?, name(alloc, "a")?], &two_nodes(3, 4))?;
    assert_eq!(rt; removed(&rt, alloc, &bindings, word(alloc, "a")?), Ok(4));
    Ok(())
}

#[test]
fn name_is_bound_again(rt: HostRuntime) -> Result<(), Fail> {
    let alloc = rt.alloc();
    let mut bindings = Bindings::new(alloc);
    bindings.bind(&[name(alloc, "a")?], &one_node(3))?;
    bindings.bind(&[name(alloc, "b")?], &one_node(5))?;
    bindings.bind(&[name(alloc, "a")?], &one_node(9))?;
    assert_eq!(rt; removed(&rt, alloc, &bindings, word(alloc, "a")?), Ok(9));
    assert_eq!(rt; removed(&rt, alloc, &bindings, word(alloc, "b")?), Ok(5));
    Ok(())
}

#[test]
fn name_past_the_ids_is_unbound(rt: HostRuntime) -> Result<(), Fail> {
    let alloc = rt.alloc();
    let mut bindings = Bindings::new(alloc);
    bindings.bind(&[name(alloc, "a")?, name(alloc, "b")?], &two_nodes(3, 4))?;
    bindings.bind(&[name(alloc, "b")?, name(alloc, "a")?], &one_node(7))?;
    assert_eq!(rt; removed(&rt, alloc, &bindings, word(alloc, "b")?), Ok(7));
    assert_eq!(rt;
        removed(&rt, alloc, &bindings, word(alloc, "a")?),
        Err(ResolveEnd::Unbound)
    );
    Ok(())
}

#[test]
fn edit_with_two_names(rt: HostRuntime) -> Result<(), Fail> {
    let alloc = rt.alloc();
    let mut bindings = Bindings::new(alloc);
    bindings.bind(
        &[name(alloc, "north")?, name(alloc, "south")?],
        &two_nodes(12, 31),
    )?;
    let edit = NamedEdit::ModEdgeHeal {
        edge: word(alloc, "south")?,
        other: word(alloc, "north")?,
    };
    match bindings.resolve(alloc, &edit)? {
        Edit::ModEdgeHeal { edge, other } => {
            assert_eq!(rt; edge.0, 31);
            assert_eq!(rt; other.0, 12);
        }
        _ => panic!(rt; "another edit"),
    }
    Ok(())
}

#[test]
fn line_without_names_is_ready(rt: HostRuntime) -> Result<(), Fail> {
    let alloc = rt.alloc();
    let edit = NamedEdit::RemoveIsoNode {
        node: IdWord::Number(8),
    };
    let line = ScriptLine::of(alloc, Vec::new(alloc), edit)?;
    assert_eq!(rt; line.names().len(), 0);
    match line.edit() {
        LineEdit::Plain(Edit::RemoveIsoNode { node }) => assert_eq!(rt; node.0, 8),
        _ => panic!(rt; "another edit"),
    }
    Ok(())
}

#[test]
fn line_with_names_keeps_them(rt: HostRuntime) -> Result<(), Fail> {
    let alloc = rt.alloc();
    let edit = NamedEdit::RemoveIsoNode {
        node: word(alloc, "a")?,
    };
    let line = ScriptLine::of(alloc, vec![in alloc; name(alloc, "b")?]?, edit)?;
    assert_eq!(rt; line.names().len(), 1);
    match line.edit() {
        LineEdit::Named(
            NamedEdit::RemoveIsoNode {
                node: IdWord::Bound(bound),
            },
        ) => assert_eq!(rt; bound.as_bytes(), b"a".as_slice()),
        _ => panic!(rt; "another edit"),
    }
    Ok(())
}
