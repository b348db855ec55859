//! The checks of the extents of a new group.
ghost use Rattle.std.specs.Prelude.{◌≡◌, ◌+◌, ◌<◌, ◌≤◌, length, IsTrue, ◌↔◌};
ghost use Rattle.bus.specs.Drives.{size};
ghost use Rattle.array.specs.Configuration.{rows_in};
ghost use Rattle.array.specs.Checks.{EachExtent, GroupFields};

use crate::kind::MethodKind;
use crate::scan::ends_by;
use bus::Bus;
use layout::extent::ExtentRow;
use layout::refusal::Refusal;

// The blocks of the first extent; 0 where there is none.
pub(crate) fn rows_in(extents: &[ExtentRow]) -> usize
    ensures { result ≡ rows_in extents.now }
{
    extents.first().map_or(0, |e| e.count)
}

// Whether members, depth and rows are right for the method, and all extents are of one length. That an extent would be
// too long is not for here.
pub(crate) fn fields_fit(kind: MethodKind, depth: usize, extents: &[ExtentRow]) -> bool
    ensures { IsTrue result ↔ GroupFields kind depth extents.now }
{
    let rows = rows_in(extents);
    let geometry = kind.geometry(extents.len(), depth, rows);
    !matches!(geometry, Err(Refusal::OutOfRule)) && extents.iter().all(|e| e.count == rows)
}

// Whether every drive is on the bus.
pub(crate) fn all_on_bus<B: Bus>(bus: &B, extents: &[ExtentRow]) -> bool
    ensures { IsTrue result ↔ EachExtent extents.now (λ e. e.drive < length (B.Bus.drives bus.now)) }
{
    let count = bus.count();
    extents.iter().all(|e| e.drive < count)
}

// Whether every extent lies on its drive.
pub(crate) fn all_inside<B: Bus>(bus: &B, extents: &[ExtentRow]) -> bool
    ensures { IsTrue result ↔ EachExtent extents.now (λ e. e.start + e.count ≤ size (B.Bus.drives bus.now) e.drive) }
{
    extents
        .iter()
        .all(|e| ends_by(e.start, e.count, bus.capacity(e.drive)))
}
