ghost use Rattle.std.specs.Prelude.{◌≡◌};

use crate::status::Status;
use topo_disk::Disk;

/// How a call ended, and the disk, which it gives back in any case.
#[derive(Drop)]
pub struct Served<D: Disk> {
    pub status: Status,
    pub disk: D,
}

impl<D: Disk> Served<D> {
    pub fn of(status: Status, disk: D) -> Served<D>
        ensures { (result.status ≡ status) × (result.disk ≡ disk) }
    {
        Served { status, disk }
    }
}
