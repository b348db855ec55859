//! The zero fill of a new group.
ghost use Rattle.std.specs.Prelude.{ℕ, ◌<◌, length, MatchBool};
ghost use Rattle.layout.specs.Extents.{Sound};
ghost use Rattle.group.specs.Filling.{extent, FillsOne, Fills};

use crate::fault::GroupFault;
use bus::{BLOCK, BlockAddress, Bus, BusFault};
use layout::extent::{Extent, ExtentRow};

// Whether every row is that of an extent.
fn sound_rows(extents: &[ExtentRow]) -> bool
    ensures { MatchBool result ((i : ℕ) → i < length extents.now → Sound (extent extents.now i)) (((i : ℕ) → i < length extents.now → Sound (extent extents.now i)) → ⊥) }
{
    extents.iter().all(|row| Extent::new(*row).is_some())
}

// The row of an extent that its drive refused.
#[derive(Clone, Copy, PartialEq, Eq, Debug)]
struct Stop {
    row: usize,
    fault: BusFault,
}

// Sets every block of `e` to zeros; stops at the first that its drive refuses.
fn fill_extent<B: Bus>(bus: &mut B, e: ExtentRow) -> Result<(), Stop>
    requires { Sound e }
    ensures { FillsOne (B.Bus.drives bus.old) (B.Bus.drives bus.new) e result }
{
    let zeros = [0u8; BLOCK];
    // Rows are numbers of drive blocks: no slice holds them.
    for row in 0..e.count {
        let at = BlockAddress {
            drive: e.drive,
            block: e.start + row,
        };
        bus.write(at, &zeros).map_err(|fault| Stop { row, fault })?;
    }
    Ok(())
}

/// Sets every block of the extents, which become the members of the group `number`, to zeros.
pub fn fill<B: Bus>(bus: &mut B, number: usize, extents: &[ExtentRow]) -> Result<(), GroupFault>
    ensures { Fills (B.Bus.drives bus.old) (B.Bus.drives bus.new) extents.now number result }
{
    if !sound_rows(extents) {
        return Err(GroupFault::Outside);
    }
    for (member, e) in extents.iter().enumerate() {
        fill_extent(bus, *e).map_err(|stop| GroupFault::Failed {
            group: number,
            row: stop.row,
            member,
            fault: stop.fault,
        })?;
    }
    Ok(())
}
