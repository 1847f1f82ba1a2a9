ghost use Rattle.std.specs.Prelude.{◌≡◌, ◌<◌, ◌≤◌, ◌++◌, [], ◌∷◌, List, ℕ, true, length, OnOk, ◌⊎◌};
ghost use Rattle.topo_io.specs.Causes.{HasCause};
ghost use Rattle.topo_disk.specs.Disk.{LeavesOnly};
ghost use Rattle.topo_journal.specs.Bytes.{is_not_yet, IsShut, IsNamed, opening};
ghost use Rattle.topo_journal.specs.Kept.{Each};

use topo_disk::{Disk, Failed};

// TOPOJ, the format and a closed gate
const NAME: [u8; 7] = [84, 79, 80, 79, 74, 1, 0];

// Makes a closed header gate, where there is none.
pub(crate) fn close_header<D: Disk>(disk: &mut D) -> Result<(), Failed>
    ensures shut { D.tells → Each (λ c. c ≡ D.seen disk.old) (D.seen disk.old) (D.may_leave disk.old) → is_not_yet (D.seen disk.old) ≡ true
        → OnOk result (Each IsShut (D.seen disk.new) (D.may_leave disk.new)) }
    ensures any_moment { D.tells → Each (λ c. c ≡ D.seen disk.old) (D.seen disk.old) (D.may_leave disk.old) → is_not_yet (D.seen disk.old) ≡ true
        → LeavesOnly D.moment D.left_since disk.old disk.new (λ c. is_not_yet c ≡ true) }
    ensures cause { HasCause (D.faults disk.old) (D.faults disk.new) result }
{
    let size = disk.size()?;
    if size > 1 {
        return Ok(());
    }
    disk.write_at(0, &[0])?;
    disk.sync()
}

// Writes the name behind the closed header gate.
pub(crate) fn write_name<D: Disk>(disk: &mut D) -> Result<(), Failed>
    requires { D.tells → 1 ≤ length (D.seen disk.old) }
    ensures named { D.tells → Each IsShut (D.seen disk.old) (D.may_leave disk.old) → OnOk result (Each IsNamed (D.seen disk.new) (D.may_leave disk.new)) }
    ensures any_moment { D.tells → Each IsShut (D.seen disk.old) (D.may_leave disk.old) → LeavesOnly D.moment D.left_since disk.old disk.new IsShut }
    ensures cause { HasCause (D.faults disk.old) (D.faults disk.new) result }
{
    disk.write_at(1, &NAME)?;
    disk.sync()
}

// Opens the header gate.
pub(crate) fn open_header<D: Disk>(disk: &mut D) -> Result<(), Failed>
    ensures opened { D.tells → Each IsNamed (D.seen disk.old) (D.may_leave disk.old)
        → OnOk result (Each (λ c. c ≡ opening 1 ++ 0 ∷ []) (D.seen disk.new) (D.may_leave disk.new)) }
    ensures any_moment { D.tells → Each IsNamed (D.seen disk.old) (D.may_leave disk.old) → LeavesOnly D.moment D.left_since disk.old disk.new IsNamed }
    ensures cause { HasCause (D.faults disk.old) (D.faults disk.new) result }
{
    disk.write_at(0, &[1])?;
    disk.sync()
}

// Makes a journal with no entry of a disk that is not yet one.
pub(crate) fn write_header<D: Disk>(disk: &mut D) -> Result<(), Failed>
    requires kept { D.tells → Each (λ c. c ≡ D.seen disk.old) (D.seen disk.old) (D.may_leave disk.old) }
    requires not_yet { D.tells → is_not_yet (D.seen disk.old) ≡ true }
    ensures made { D.tells → OnOk result (Each (λ c. c ≡ opening 1 ++ 0 ∷ []) (D.seen disk.new) (D.may_leave disk.new)) }
    ensures any_moment { D.tells → LeavesOnly D.moment D.left_since disk.old disk.new (λ c. (is_not_yet c ≡ true) ⊎ IsNamed c) }
    ensures cause { HasCause (D.faults disk.old) (D.faults disk.new) result }
{
    close_header(disk)?;
    write_name(disk)?;
    open_header(disk)
}
