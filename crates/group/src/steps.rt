// One request at a member.
ghost use Rattle.std.specs.Prelude.{◌+◌, ◌<◌};
ghost use Rattle.bus.specs.Drives.{size};
ghost use Rattle.group.specs.Steps.{Fetched, Sent, Stores};

use crate::fault::{AtRow, RowFault};
use crate::member::Member;
use bus::Bus;
use layout::block::Block;

// That the row lies on the member's drive stays a clause: it speaks of the bus too.

impl Member {
    // The member's block of a row, if it is not missing and its drive gives it.
    pub(crate) fn fetch<B: Bus>(self, bus: &mut B, row: usize) -> Option<Block>
        requires { self.start + row < size (B.Bus.drives bus.old) self.drive }
        ensures { Fetched (B.Bus.drives bus.old) (B.Bus.drives bus.new) row self result }
    {
        if self.missing_in(bus, row) {
            return None;
        }
        let mut block = [0; 512];
        bus.read(self.at(row), &mut block).ok()?;
        Some(block)
    }

    // Writes the member's block of a row, unless the member is missing.
    pub(crate) fn send<B: Bus>(self, bus: &mut B, row: usize, bytes: &Block)
        requires { self.start + row < size (B.Bus.drives bus.old) self.drive }
        ensures { Sent (B.Bus.drives bus.old) (B.Bus.drives bus.new) row self bytes.now }
    {
        if !self.missing_in(bus, row) {
            let _ = bus.write(self.at(row), bytes);
        }
    }

    // Writes the block of a row of this member, which is the member `i`, even if it is missing.
    pub(crate) fn store<B: Bus>(
        self,
        bus: &mut B,
        i: usize,
        row: usize,
        bytes: &Block,
    ) -> Result<(), RowFault>
        requires { self.start + row < size (B.Bus.drives bus.old) self.drive }
        ensures { Stores (B.Bus.drives bus.old) (B.Bus.drives bus.new) row self i bytes.now result }
    {
        bus.write(self.at(row), bytes).at_row(i, row)
    }
}
