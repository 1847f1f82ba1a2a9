// An edit is planned on the tables themselves, which stay as they are.
ghost use Rattle.std.specs.Prelude.{◌≡◌, IfOk, IfErr};
ghost use Rattle.read_set.specs.Ready.{IsReady};
ghost use Rattle.read_set.specs.Plans.{IsPlanFor};
ghost use Rattle.drawing.specs.Replay.{answer_of};
ghost use Rattle.drawing.specs.Step.{step};
ghost use Rattle.drawing.specs.Tables.{tables_of, drawn};
ghost use Rattle.subdivision_laws.specs.Subdivided.{IsSubdivided};
ghost use Rattle.topo_desk.specs.Prepared.{IsUnready};

use read_set::{EditEnd, Edited, PlanEnd};
use std::alloc::Global;
use std::sync::ledger::Ledger;
use topo_base::{Edit, Steps};
use topo_tables::Tables;

/// The row writes of an edit on these tables and what its reply names, where no rule of its function refuses it.
pub(crate) fn plan_on<L: Ledger>(
    alloc: Global,
    tables: &Tables,
    front: u64,
    edit: &Edit,
    steps: &mut Steps<L>,
) -> Result<Edited, PlanEnd>
    requires ready { IsReady (drawn tables.now.rows) }
    requires subdivided { IsSubdivided (drawn tables.now.rows) }
    requires stands { tables.now.rows ≡ tables_of (drawn tables.now.rows) }
    ensures planned { IfOk result (λ d. IsPlanFor (drawn tables.now.rows) edit.now d.writes d.ids) }
    ensures refused { IfErr result (IsUnready (answer_of front (step (drawn tables.now.rows) edit.now))) }
{
    match edit_plan::edited(alloc, tables, edit, steps) {
        Ok(edited) => Ok(edited),
        Err(EditEnd::Refused(rule)) => Err(PlanEnd::Refused { rule, front }),
        Err(EditEnd::Memory) => Err(PlanEnd::Memory),
    }
}
