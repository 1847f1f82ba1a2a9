// An edit that may be entered: what there is to write and to answer.
ghost use Rattle.std.specs.Prelude.{◌≡◌, length, IfOk, OnOk, IsTrue};
ghost use Rattle.read_set.specs.Planned.{IsEditor};
ghost use Rattle.drawing.specs.InRange.{is_spelled};
ghost use Rattle.drawing.specs.Accepted.{keeps_limits};
ghost use Rattle.history_model.specs.Spelling.{frame_bytes};

use entry_codec::framed;
use read_set::Edited;
use std::alloc::Global;
use topo_base::{Edit, Entry, Ids, Memory};
use topo_tables::Writes;

/// An entry, the row writes of its edit and the ids of its reply, and its frame in a journal.
#[derive(Drop)]
pub(crate) struct Prepared {
    pub(crate) entry: Entry,
    pub(crate) writes: Writes,
    pub(crate) ids: Ids,
    pub(crate) frame: Vec<u8>,
}

impl Prepared {
    /// What an editor's edit writes, with the frame of its entry.
    pub(crate) fn of(
        alloc: Global,
        editor: u32,
        edit: Edit,
        edited: Edited,
    ) -> Result<Prepared, Memory>
        requires editor { IsEditor editor }
        requires limits { IsTrue (keeps_limits edit) }
        ensures entry { IfOk result (λ p. p.entry ≡ record { editor = editor; edit = edit }) }
        ensures spelled { OnOk result (IsTrue (is_spelled (record { editor = editor; edit = edit }))) }
        ensures writes { IfOk result (λ p. p.writes ≡ edited.writes) }
        ensures ids { IfOk result (λ p. p.ids ≡ edited.ids) }
        ensures frame { IfOk result (λ p. p.frame.items ≡ frame_bytes (record { editor = editor; edit = edit })) }
    {
        let entry = Entry { editor, edit };
        let frame = framed(alloc, &entry)?;
        Ok(Prepared {
            entry,
            writes: edited.writes,
            ids: edited.ids,
            frame,
        })
    }

    /// The frame: the length of the entry's spelling, the spelling, and a closed gate.
    pub(crate) fn frame(&self) -> &[u8]
        ensures { result.now ≡ self.now.frame.items }
    {
        &self.frame
    }

    /// How many bytes the journal grows by.
    pub(crate) fn frame_len(&self) -> u64
        ensures { result ≡ length self.now.frame.items }
    {
        self.frame().len() as u64
    }
}
