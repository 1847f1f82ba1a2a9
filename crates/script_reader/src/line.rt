ghost use Rattle.std.specs.Prelude.{◌≡◌, None, IfOk, IfSome, IfNone};
ghost use Rattle.topo_base.specs.ScriptLines.{in_numbers};
ghost use Rattle.script_model.specs.Bindings.{no_names, resolve};
ghost use Rattle.script_reader.specs.Lines.{IsEditOf};

use crate::{Bindings, ResolveEnd};
use std::alloc::Global;
use std::marker::Model;
use topo_base::{Edit, Memory, Name, NamedEdit};

/// The names that a line binds, and its edit.
#[derive(Debug, Drop)]
struct NamedLine {
    names: Vec<Name>,
    edit: NamedEdit,
}

/// A line that binds no names and uses none is kept as its edit alone: most lines are such, and an edit
/// in numbers is less than half as large.
#[derive(Debug, Drop)]
enum Kept {
    Plain(Edit),
    Named(Box<NamedLine>),
}

/// A line of a script: the names that it binds, and its edit.
#[derive(Debug, Drop)]
pub struct ScriptLine {
    kept: Kept,
}

// A script of 20,000 lines is to take little more than a megabyte.
const _: () = prove!(size_of::<ScriptLine>() <= 56);

impl Model for ScriptLine {
    ghost use Rattle.topo_base.specs.ScriptLines.{ScriptLine};

    ghost Value = { ScriptLine };

    ghost use Rattle.script_reader.specs.Lines.{line_of};

    ghost view = { λ l. line_of l.kept };
}

/// The edit of a line: ready where the line binds no names and uses none, and else to be resolved.
pub enum LineEdit<'a> {
    Plain(&'a Edit),
    Named(&'a NamedEdit),
}

/// The edit of a line, where it uses no names.
fn in_numbers(alloc: Global, named: &NamedEdit) -> Result<Option<Edit>, Memory>
    ensures edit { IfOk result (λ o. IfSome o (λ e. named.now ≡ in_numbers e)) }
    ensures names { IfOk result (λ o. IfNone o (resolve no_names named.now ≡ None)) }
{
    match Bindings::new(alloc).resolve(alloc, named) {
        Ok(edit) => Ok(Some(edit)),
        Err(ResolveEnd::Unbound) => Ok(None),
        Err(ResolveEnd::Memory) => Err(Memory),
    }
}

impl ScriptLine {
    /// The line that binds these names and has this edit.
    pub fn of(alloc: Global, names: Vec<Name>, edit: NamedEdit) -> Result<ScriptLine, Memory>
        ensures line { IfOk result (λ l. l ≡ record { names = names.items; edit = edit }) }
    {
        if names.is_empty() {
            if let Some(edit) = in_numbers(alloc, &edit)? {
                return Ok(ScriptLine {
                    kept: Kept::Plain(edit),
                });
            }
        }
        let line = Box::new(alloc, NamedLine { names, edit })?;
        Ok(ScriptLine {
            kept: Kept::Named(line),
        })
    }

    /// The names that are bound to the ids of the answer, from left to right.
    pub fn names(&self) -> &[Name]
        ensures names { result.now ≡ self.now.names }
    {
        match &self.kept {
            Kept::Plain(_) => &[],
            Kept::Named(line) => &line.names,
        }
    }

    /// The edit: ready where the line binds no names and uses none.
    pub fn edit(&self) -> LineEdit
        ensures edit { IsEditOf result self.now.edit }
    {
        match &self.kept {
            Kept::Plain(edit) => LineEdit::Plain(edit),
            Kept::Named(line) => LineEdit::Named(&line.edit),
        }
    }
}
