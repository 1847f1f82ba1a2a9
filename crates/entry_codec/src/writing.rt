ghost use Rattle.std.specs.Prelude.{◌≡◌, ◌++◌, ◌∷◌, [], OnOk, IfOk, IsTrue};
ghost use Rattle.drawing.specs.Accepted.{is_entry};
ghost use Rattle.drawing.specs.InRange.{is_spelled};
ghost use Rattle.history_model.specs.Spelling.{entry_bytes, frame_bytes};
ghost use Rattle.entry_codec.specs.Spelled.{IsShort};

use crate::edits::put_edit;
use crate::fields::put_number;
use std::alloc::Global;
use topo_base::{Entry, Memory};

/// The spelling of an entry of an editor from 1 to 64, whose line has at most 4096 vertices: its editor
/// in 32 bits, the tag of its edit and the fields. It has at most 65,553 bytes.
pub fn encode(alloc: Global, entry: &Entry) -> Result<Vec<u8>, Memory>
    requires { IsTrue (is_entry entry.now) }
    ensures bytes { IfOk result (λ v. v.items ≡ entry_bytes entry.now) }
    ensures spelled { OnOk result (IsTrue (is_spelled entry.now)) }
    ensures short { OnOk result (IsShort entry.now) }
{
    let mut bytes = Vec::new(alloc);
    put_number(&mut bytes, entry.editor)?;
    put_edit(&mut bytes, &entry.edit)?;
    Ok(bytes)
}

/// The frame of such an entry: the length of its spelling in 32 bits, the spelling and a byte 0, which
/// is the next gate, closed.
pub fn framed(alloc: Global, entry: &Entry) -> Result<Vec<u8>, Memory>
    requires { IsTrue (is_entry entry.now) }
    ensures bytes { IfOk result (λ v. v.items ≡ frame_bytes entry.now) }
    ensures spelled { OnOk result (IsTrue (is_spelled entry.now)) }
    ensures short { OnOk result (IsShort entry.now) }
{
    let spelling = encode(alloc, entry)?;
    let mut bytes = Vec::new(alloc);
    put_number(&mut bytes, spelling.len() as u32)?;
    bytes.extend_from_slice(&spelling)?;
    bytes.push(0)?;
    Ok(bytes)
}
