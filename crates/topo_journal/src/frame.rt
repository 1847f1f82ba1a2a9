ghost use Rattle.std.specs.Prelude.{◌≡◌, ◌<◌, ◌^◌, ◌++◌, [], ◌∷◌, length, IfOk};
ghost use Rattle.topo_journal.specs.Bytes.{frame};
ghost use Rattle.topo_journal.specs.Kept.{IsFrame, body_in};

use std::alloc::Global;
use topo_base::Memory;

/// A body behind its length in four bytes, highest first, and before a closed gate, as `append` takes it.
pub fn frame_of(alloc: Global, body: &[u8]) -> Result<Vec<u8>, Memory>
    requires { length body.now < 2 ^ 32 }
    ensures bytes { IfOk result (λ framed. framed.items ≡ frame body.now ++ 0 ∷ []) }
    ensures frame { IfOk result (λ framed. IsFrame framed.items × (body_in framed.items ≡ body.now)) }
{
    let size = body.len();
    let mut framed = Vec::new(alloc);
    framed.push((size / 256 / 256 / 256) as u8)?;
    framed.push((size / 256 / 256 % 256) as u8)?;
    framed.push((size / 256 % 256) as u8)?;
    framed.push((size % 256) as u8)?;
    framed.extend_from_slice(body)?;
    framed.push(0)?;
    Ok(framed)
}
