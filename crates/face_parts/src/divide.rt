// The row writes by which sides and containing faces follow the division of a face.
ghost use Rattle.std.specs.Prelude.{◌≡◌, ◌≤◌, ◌+◌, length, IfOk, IsTrue};
ghost use Rattle.topo_base.specs.declared.rows.Counters.{Counters};
ghost use Rattle.drawing.specs.AddEdge.{Division};
ghost use Rattle.drawing.specs.Drawing.{Drawing, Edge};
ghost use Rattle.drawing.specs.Tables.{Tables as TablesValue};
ghost use Rattle.drawing.specs.Writable.{CanWriteAll, has_face_row};
ghost use Rattle.drawing.specs.Writes.{all_written};
ghost use Rattle.face_rings.specs.Border.{are_linked};
ghost use Rattle.face_rings.specs.Rings.{rings};
ghost use Rattle.face_parts.specs.Divided.{division_writes};
ghost use Rattle.face_parts.specs.DividedFace.{HasRows, IsDividedFace, with_division};

use crate::cut::Cut;
use crate::parts::FaceParts;
use crate::sides::{push_nodes, push_rings};
use face_rings::{FaceContent, face_rings};
use std::alloc::Global;
use std::sync::ledger::Ledger;
use topo_base::{Memory, Steps};
use topo_tables::{Tables, Writes};

/// The writes of the rings of a border and of the nodes in its face. Takes at most one step a ring.
fn writes_of<L: Ledger>(
    alloc: Global,
    tables: &Tables,
    content: &FaceContent,
    parts: &FaceParts,
    cut: &Cut,
    steps: &mut Steps<L>,
) -> Result<Writes, Memory>
    requires { IsTrue (are_linked content.now) }
    ensures writes { IfOk result (λ ws. ws ≡ division_writes parts.now cut.now tables.now.rows content.now) }
    ensures counted { steps.new ≤ steps.old + length (rings content.now) }
{
    let rings = face_rings(alloc, content)?;
    let mut writes = Writes::new(alloc);
    push_rings(&mut writes, tables, parts, cut, &rings, steps)?;
    push_nodes(&mut writes, parts, cut, tables.nodes())?;
    Ok(writes)
}

/// The row writes by which the sides and the containing faces follow the division of a face by an edge
/// that was added: each side and each containing face that was the face becomes one of the parts. The ring
/// of the edge comes into the part on the left, that of the edge walked back into the part on the right, and
/// each other ring of the border into the part that has the vertex from which its least dart leaves; an
/// isolated node comes into the part that has its point. What has its part already is not written. The
/// content is the border of the face with the edge in it. Takes at most one step a ring.
pub fn divided_writes<L: Ledger>(
    alloc: Global,
    tables: &Tables,
    content: &FaceContent,
    parts: &FaceParts,
    cut: &Cut,
    steps: &mut Steps<L>,
) -> Result<Writes, Memory>
    requires { IsTrue (are_linked content.now) }
    ensures writes { IfOk result (λ ws. ws ≡ division_writes parts.now cut.now tables.now.rows content.now) }
    ensures divided { IfOk result (λ ws. (T : Drawing) (e : Edge) (d : Division) (n : Counters) (t : TablesValue) → IsDividedFace T e d parts.now cut.now tables.now.rows content.now → HasRows T t → all_written n t ws ≡ with_division t T d) }
    ensures can { IfOk result (λ ws. (T : Drawing) (e : Edge) (d : Division) (n : Counters) (t : TablesValue) → IsDividedFace T e d parts.now cut.now tables.now.rows content.now → HasRows T t
        → IsTrue (has_face_row t parts.now.left_part) → IsTrue (has_face_row t parts.now.right_part) → CanWriteAll n t ws) }
    ensures counted { steps.new ≤ steps.old + length (rings content.now) }
{
    writes_of(alloc, tables, content, parts, cut, steps)
}
