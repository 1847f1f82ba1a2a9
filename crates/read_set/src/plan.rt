ghost use Rattle.std.specs.Prelude.{◌≡◌, length};
ghost use Rattle.read_set.specs.Planned.{IsEditor, IsPromised};
ghost use Rattle.read_set.specs.Plans.{IsPlanFor};
ghost use Rattle.drawing.specs.Tables.{drawn};

use std::marker::Model;
use topo_base::{Edit, Ids};
use topo_tables::{Excerpt, Writes};

/// An edit, whose it is, the excerpt on which it was planned, the row writes that make the tables
/// follow it, in order, and the elements that its reply names. On the drawing of the excerpt the edit
/// is accepted with these ids, and the writes leave the tables of the drawing after it. Each id in a
/// write is old: a new row has its table's next id.
#[derive(Drop)]
pub struct Plan {
    editor: u32,
    edit: Edit,
    excerpt: Excerpt,
    writes: Writes,
    ids: Ids,
}

impl Model for Plan {
    ghost use Rattle.read_set.specs.Planned.{Planned, IsPlan};

    ghost Value = { Planned };

    ghost view = { λ p. record { editor = p.editor; edit = p.edit; excerpt = p.excerpt; writes = p.writes; ids = p.ids } };

    ghost invariant = { λ p. IsPlan (record { editor = p.editor; edit = p.edit; excerpt = p.excerpt; writes = p.writes; ids = p.ids }) };
}

impl Plan {
    /// The plan with these parts, which keep its promise.
    pub fn of(editor: u32, edit: Edit, excerpt: Excerpt, writes: Writes, ids: Ids) -> Plan
        requires editor { IsEditor editor }
        requires promised { IsPlanFor (drawn excerpt.rows) edit writes ids }
        ensures { result ≡ record { editor = editor; edit = edit; excerpt = excerpt; writes = writes; ids = ids } }
    {
        Plan {
            editor,
            edit,
            excerpt,
            writes,
            ids,
        }
    }

    /// Whose edit it is: 1 to 64.
    pub fn editor(&self) -> u32
        ensures editor { result ≡ self.now.editor }
        ensures range { IsEditor result }
    {
        self.editor
    }

    /// The edit.
    pub fn edit(&self) -> &Edit
        ensures { result.now ≡ self.now.edit }
    {
        &self.edit
    }

    /// The excerpt on which it was planned.
    pub fn excerpt(&self) -> &Excerpt
        ensures { result.now ≡ self.now.excerpt }
    {
        &self.excerpt
    }

    /// The length of the history at which the excerpt was taken.
    pub fn front(&self) -> u64
        ensures { result ≡ self.now.excerpt.front }
    {
        self.excerpt.front()
    }

    /// The row writes in order, which keep the plan's promise.
    pub fn writes(&self) -> &Writes
        ensures writes { result.now ≡ self.now.writes }
        ensures promised { IsPromised self.now }
    {
        &self.writes
    }

    /// How many row writes there are.
    pub fn writes_len(&self) -> usize
        ensures { result ≡ length self.now.writes }
    {
        self.writes.as_slice().len()
    }

    /// What the reply names.
    pub fn ids(&self) -> &Ids
        ensures { result.now ≡ self.now.ids }
    {
        &self.ids
    }

    /// The edit, its row writes and what its reply names, to be made and answered.
    pub fn into_parts(self) -> (Edit, Writes, Ids)
        ensures edit { result.0 ≡ self.edit }
        ensures writes { result.1 ≡ self.writes }
        ensures ids { result.2 ≡ self.ids }
        ensures promised { IsPromised self }
    {
        (self.edit, self.writes, self.ids)
    }
}
