ghost use Rattle.std.specs.Prelude.{◌≡◌, ◌+◌, ◌^◌, ◌<◌, ◌≤◌, MatchBool};
ghost use Rattle.bus.specs.Drives.{size};
ghost use Rattle.bus.specs.Numbers.{address};
ghost use Rattle.group.specs.Group.{missing};

use bus::{BlockAddress, Bus};

// Where a member's extent lies, and up to which row it is whole.
#[derive(Clone, Copy, PartialEq, Eq, Debug)]
pub struct Member {
    pub drive: usize,
    pub start: usize,
    pub mark: usize,
}

impl Member {
    // The member's block of a row.
    pub(crate) fn at(self, row: usize) -> BlockAddress
        requires { self.start + row < 2 ^ 64 }
        ensures { result ≡ address self.drive (self.start + row) }
    {
        BlockAddress {
            drive: self.drive,
            block: self.start + row,
        }
    }

    /// Whether the member is missing in a row.
    pub fn missing_in<B: Bus>(self, bus: &B, row: usize) -> bool
        ensures { result ≡ missing (B.Bus.drives bus.now) row self }
    {
        bus.broken(self.drive) || self.mark <= row
    }

    // Whether the row lies on the member's drive.
    pub(crate) fn reaches<B: Bus>(self, bus: &B, row: usize) -> bool
        ensures { MatchBool result (self.start + row < size (B.Bus.drives bus.now) self.drive) (size (B.Bus.drives bus.now) self.drive ≤ self.start + row) }
    {
        row < bus.capacity(self.drive).saturating_sub(self.start)
    }
}
