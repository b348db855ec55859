// Lets each drive of a group die in each of its accesses in turn, by every method, while the group is filled, written,
// read and rebuilt, and holds every block afterwards against what was accepted.
#![tactic(auto)]

mod tally;
mod trial;

use crate::tally::Tally;
use crate::trial::{Trial, UNTOUCHED};
use bus::BLOCK;
use buses::{BreakingBus, Drives, MemoryBus};
use group::record::Group;
use layout::extent::ExtentRow;
use layout::geometry::{Geometry, MOST_MEMBERS};
use layout::method::Method;
use layout::mirror::Mirror;
use layout::parity::Parity;
use layout::unprotected::Unprotected;
use std::alloc::{AllocError, Global};
use std::array::from_fn;
use std::marker::PhantomData;

// In which accesses a drive dies: 0 is before the first.
const ACCESSES: usize = 48;

// How many members a group has, how deep its strips are, and how many rows it has.
#[derive(Clone, Copy, PartialEq, Eq, Debug)]
struct Shape {
    members: usize,
    depth: usize,
    rows: usize,
}

impl Shape {
    fn of(members: usize, depth: usize, rows: usize) -> Shape {
        Shape {
            members,
            depth,
            rows,
        }
    }

    // The drives of the members and a spare one, all of them full.
    fn drives(self) -> Drives {
        Drives {
            number: self.members.saturating_add(1),
            capacity: self.rows,
        }
    }

    // The first rows of the drives.
    fn extents(self) -> [ExtentRow; MOST_MEMBERS] {
        from_fn(|drive| ExtentRow {
            drive,
            start: 0,
            count: self.rows,
        })
    }

    fn group<M: Method>(self, extents: &[ExtentRow]) -> Option<Group> {
        let geometry = Geometry::new::<M>(self.members, self.depth, self.rows).ok()?;
        Group::new(0, geometry, extents)
    }
}

// The console has this product too; as a method of `Drives` it would have to promise what it is where it is too large.
fn bytes_of(drives: Drives) -> usize {
    drives
        .number
        .saturating_mul(drives.capacity)
        .saturating_mul(BLOCK)
}

// The work of a trial, for every drive, a spare one among them, and every access.
fn drill<M: Method, F: Fn(&mut Trial<M>)>(
    heap: Global,
    shape: Shape,
    work: F,
) -> Result<Tally, AllocError>
    requires { F.IsAlwaysCallable work }
{
    let mut tally = Tally::default();
    let all = shape.extents();
    let extents = &all[..shape.members.min(MOST_MEMBERS)];
    let Some(group) = shape.group::<M>(extents) else {
        tally.compare(false);
        return Ok(tally);
    };
    let drives = shape.drives();
    let blocks = group.geometry().protected_blocks::<M>();
    // Drives and accesses are tried by their numbers; nothing is indexed.
    for dead in 0..drives.number {
        for access in 0..ACCESSES {
            let mut memory = vec![in heap; UNTOUCHED; bytes_of(drives)]?;
            let mut trial = Trial {
                group,
                extents,
                bus: BreakingBus::new(MemoryBus::new(memory.as_mut_slice(), drives)),
                dead,
                access,
                expected: vec![in heap; 0u8; blocks]?,
                tally,
                method: PhantomData,
            };
            trial.tally.begin();
            work(&mut trial);
            tally = trial.tally;
        }
    }
    Ok(tally)
}

fn report<M: Method, F: Fn(&mut Trial<M>)>(
    rt: &HostRuntime,
    name: &str,
    shape: Shape,
    work: F,
) -> anyhow::Result<()>
    requires { F.IsAlwaysCallable work }
{
    let members = shape.members;
    let tally = drill::<M, F>(rt.alloc(), shape, work)?;
    println!(rt; "{name} of {members}: {tally}")?;
    Ok(())
}

fn main(rt: HostRuntime) -> anyhow::Result<()> {
    report::<Unprotected, _>(&rt, "fill none", Shape::of(3, 2, 4), |t| t.fill())?;
    report::<Parity, _>(&rt, "fill xor", Shape::of(4, 1, 8), |t| t.fill())?;
    report::<Unprotected, _>(&rt, "blocks none", Shape::of(3, 2, 4), |t| t.blocks())?;
    report::<Mirror, _>(&rt, "blocks copy", Shape::of(2, 2, 4), |t| t.blocks())?;
    report::<Mirror, _>(&rt, "blocks copy", Shape::of(3, 2, 4), |t| t.blocks())?;
    report::<Parity, _>(&rt, "blocks xor", Shape::of(3, 2, 6), |t| t.blocks())?;
    report::<Parity, _>(&rt, "blocks xor", Shape::of(7, 1, 7), |t| t.blocks())?;
    report::<Unprotected, _>(&rt, "rebuild none", Shape::of(3, 2, 4), |t| t.rebuild())?;
    report::<Mirror, _>(&rt, "rebuild copy", Shape::of(3, 2, 4), |t| t.rebuild())?;
    report::<Parity, _>(&rt, "rebuild xor", Shape::of(3, 2, 6), |t| t.rebuild())?;
    report::<Parity, _>(&rt, "rebuild xor", Shape::of(7, 1, 7), |t| t.rebuild())?;
    Ok(())
}
