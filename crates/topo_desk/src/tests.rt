//! Isolated nodes on boards with small limits, and on a desk whose disk fails once.

ghost use Rattle.std.specs.Prelude.{◌≡◌, ◌<◌, ◌+◌, ◌^◌, IsTrue};
ghost use Rattle.drawing.specs.Accepted.{keeps_limits};
ghost use Rattle.topo_desk.specs.Boarded.{bounds_of};

use crate::{Board, Desk};
use std::alloc::Global;
use std::marker::Brand;
use std::process::Abort;
use std::sync::ledger::{Blank, Ledger};
use std::test::Fail;
use topo_base::{Answer, Edit, Grid, Limits, NodeRow, Rule, Steps};
use topo_disk::MemDisk;
use topo_journal::{begin, create};

fn limits(max_id: u32, max_journal: u64) -> Limits
    requires ids { max_id + 3 < 2 ^ 32 }
    requires journal { 8 < max_journal }
    ensures { bounds_of result ≡ record { max_id = max_id; max_journal = max_journal } }
{
    Limits {
        max_id,
        max_journal,
        max_source: 1000,
    }
}

/// The edit that adds an isolated node on the diagonal.
fn node_at(rt: &impl Abort, place: i64) -> Edit
    ensures { IsTrue (keeps_limits result) }
{
    Edit::AddIsoNode {
        face: None,
        geom: Grid::of(place, place).expect(rt, "off the grid"),
    }
}

fn is_done(answer: &Answer, number: u64) -> bool {
    match answer {
        Answer::Done { front, .. } => *front == number,
        _ => false,
    }
}

fn is_refused(answer: &Answer, by: Rule, number: u64) -> bool {
    match answer {
        Answer::Refused { rule, front } => *rule == by && *front == number,
        _ => false,
    }
}

/// The first node is entered, and the second is refused by this rule.
fn second_is_refused<L: Ledger>(
    rt: &impl Abort,
    alloc: Global,
    limits: Limits,
    rule: Rule,
    blank: Blank,
) -> Result<(), Fail>
    requires name { blank.name ≡ L.name }
    requires parts { blank.parts ≡ L.parts }
    requires some { 0 < blank.parts }
{
    let mut steps = Steps::<L>::new(blank);
    let mut board = Board::empty(alloc, limits);
    let first = board.edit(alloc, 1, node_at(rt, 0), &mut steps)?;
    let second = board.edit(alloc, 1, node_at(rt, 1), &mut steps)?;
    assert!(rt; is_done(&first, 1) && is_refused(&second, rule, 1));
    Ok(())
}

#[test]
fn the_second_id_is_beyond_the_limit(rt: HostRuntime) -> Result<(), Fail> {
    second_is_refused::<Brand>(
        &rt,
        rt.alloc(),
        limits(1, 1000),
        Rule::IdsSpent,
        Blank::new(1),
    )
}

#[test]
fn the_second_entry_is_beyond_the_limit(rt: HostRuntime) -> Result<(), Fail> {
    second_is_refused::<Brand>(
        &rt,
        rt.alloc(),
        limits(9, 35),
        Rule::HistoryFull,
        Blank::new(1),
    )
}

fn first_is_refused<L: Ledger>(rt: &impl Abort, alloc: Global, blank: Blank) -> Result<(), Fail>
    requires name { blank.name ≡ L.name }
    requires parts { blank.parts ≡ L.parts }
    requires some { 0 < blank.parts }
{
    let mut steps = Steps::<L>::new(blank);
    let mut board = Board::empty(alloc, limits(9, 34));
    let first = board.edit(alloc, 1, node_at(rt, 0), &mut steps)?;
    assert!(rt; is_refused(&first, Rule::HistoryFull, 0));
    Ok(())
}

#[test]
fn the_first_entry_is_beyond_the_limit(rt: HostRuntime) -> Result<(), Fail> {
    first_is_refused::<Brand>(&rt, rt.alloc(), Blank::new(1))
}

/// The tries of three nodes, and the points of those that are there then.
#[derive(Drop)]
struct Tried {
    first: Answer,
    second: Answer,
    third: Answer,
}

fn try_three<L: Ledger>(
    rt: &impl Abort,
    alloc: Global,
    desk: &mut Desk<MemDisk>,
    blank: Blank,
) -> Result<Tried, Fail>
    requires name { blank.name ≡ L.name }
    requires parts { blank.parts ≡ L.parts }
    requires some { 0 < blank.parts }
{
    let mut steps = Steps::<L>::new(blank);
    Ok(Tried {
        first: desk.edit(alloc, 1, node_at(rt, 0), &mut steps)?,
        second: desk.edit(alloc, 1, node_at(rt, 1), &mut steps)?,
        third: desk.edit(alloc, 1, node_at(rt, 2), &mut steps)?,
    })
}

fn is_disk_fault(answer: &Answer) -> bool {
    match answer {
        Answer::DiskFault => true,
        _ => false,
    }
}

/// Whether a disk fault came between two entries.
fn is_between(tried: &Tried) -> bool {
    is_done(&tried.first, 1) && is_disk_fault(&tried.second) && is_done(&tried.third, 2)
}

/// Whether there are two nodes, the second at this place of the diagonal.
fn has_second(nodes: &[Option<NodeRow>], place: i64) -> bool {
    match nodes {
        [Some(_), Some(second)] => second.geom.x() == place && second.geom.y() == place,
        _ => false,
    }
}

/// A desk on an empty disk whose calls of these numbers fail.
fn new_desk(rt: &impl Abort, alloc: Global, fails: &[u64]) -> Result<Desk<MemDisk>, Fail> {
    let disk = MemDisk::of(alloc, Vec::new(alloc), fails.to_vec(alloc)?);
    match begin(disk) {
        Ok(begun) => match create(begun) {
            Ok(journal) => Ok(Desk::of(Board::empty(alloc, limits(9, 1000)), journal)),
            Err(_) => panic!(rt; "the journal isn't made"),
        },
        Err(_) => panic!(rt; "the disk isn't synced"),
    }
}

/// The last of four calls of the second append fails: begin makes one call, create four, and each append four.
#[test]
fn a_disk_fault_comes_between_two_entries(rt: HostRuntime) -> Result<(), Fail> {
    let mut desk = new_desk(&rt, rt.alloc(), &[13])?;
    let tried = try_three::<Brand>(&rt, rt.alloc(), &mut desk, Blank::new(1))?;
    assert!(&rt; is_between(&tried) && has_second(desk.tables().nodes(), 2));
    Ok(())
}
