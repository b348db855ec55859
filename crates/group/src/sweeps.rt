// Going over the members of a row.
ghost use Rattle.std.specs.Prelude.{◌≡◌, ◌<◌, true, length, MatchOption};
ghost use Rattle.layout.specs.Blocks.{missing_count};
ghost use Rattle.group.specs.Group.{member as memberOf, missing, missings, RowLost, Shape, Frame, Ours, NoBlock};
ghost use Rattle.group.specs.Sweeps.{Gathered, Spread, concerned};

use crate::parts::{Known, Parts};
use crate::rows::Row;
use bus::Bus;
use layout::block::Block;
use layout::geometry::MOST_MEMBERS;
use layout::method::Method;

impl<'a, M: Method> Row<'a, M> {
    // How many members are missing.
    pub(crate) fn count_missing<B: Bus>(&self, bus: &B) -> usize
        ensures { result ≡ missing_count (missings (B.Bus.drives bus.now) self.now.row self.now.members.now) }
    {
        let row = self.row;
        self.members
            .iter()
            .filter(|g| g.missing_in(bus, row))
            .count()
    }

    // The first member that is missing.
    pub(crate) fn first_missing<B: Bus>(&self, bus: &B) -> Option<usize>
        ensures { MatchOption result (missing_count (missings (B.Bus.drives bus.now) self.now.row self.now.members.now) ≡ 0) (λ i. (i < length self.now.members.now) × (missing (B.Bus.drives bus.now) self.now.row (memberOf self.now.members.now i) ≡ true)) }
    {
        let row = self.row;
        self.members.iter().position(|g| g.missing_in(bus, row))
    }

    // Reads members that are not missing into the room that is lent, until enough are there; none where the row is lost.
    pub(crate) fn gather<'p, B: Bus>(
        &self,
        bus: &mut B,
        blocks: &'p mut [Block; MOST_MEMBERS],
        unread: &'p mut [bool; MOST_MEMBERS],
    ) -> Option<Known<'p, M>>
        requires { Shape (B.Bus.drives bus.old) self.now.row self.now.members.now }
        ensures frame { Frame (B.Bus.drives bus.old) (B.Bus.drives bus.new) (Ours self.now.members.now) NoBlock }
        ensures answer { MatchOption result (RowLost (M.Method.tolerance (length self.now.members.now)) (B.Bus.drives bus.new) self.now.row self.now.members.now) (λ k. (length k.parts.blocks.now ≡ length self.now.members.now) × (k.parts.strip ≡ self.now.strip) × Gathered (M.Method.tolerance (length self.now.members.now)) (B.Bus.drives bus.old) (B.Bus.drives bus.new) self.now.row self.now.members.now k.parts.unread.now k.parts.blocks.now) }
    {
        let tolerance = self.tolerance();
        let mut parts = Parts::new(self.members.len(), self.strip, blocks, unread);
        for (i, member) in self.members.iter().enumerate() {
            if parts.unread() <= tolerance {
                break;
            }
            if let Some(block) = member.fetch(bus, self.row) {
                parts.put(i, block);
            }
        }
        parts.known()
    }

    // Whether a write of the user block at `home` concerns the member `i`.
    fn concerns(&self, home: usize, i: usize) -> bool
        ensures { result ≡ concerned (M.Method.check (length self.now.members.now) self.now.strip) home i }
    {
        i == home || M::is_check(self.members.len(), self.strip, i)
    }

    // Writes the blocks of the home and of the check members that are not missing.
    pub(crate) fn spread<B: Bus>(&self, bus: &mut B, home: usize, blocks: &[Block])
        requires shape { Shape (B.Bus.drives bus.old) self.now.row self.now.members.now }
        requires count { length blocks.now ≡ length self.now.members.now }
        ensures { Spread (concerned (M.Method.check (length self.now.members.now) self.now.strip) home) (B.Bus.drives bus.old) (B.Bus.drives bus.new) self.now.row self.now.members.now blocks.now }
    {
        for (i, member) in self.members.iter().enumerate() {
            if self.concerns(home, i) {
                member.send(bus, self.row, &blocks[i]);
            }
        }
    }
}
