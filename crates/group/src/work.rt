//! The calls on a group.
ghost use Rattle.std.specs.Prelude.{◌≡◌, ◌+◌, ◌<◌, ◌≤◌, ◌++◌, length, take, drop, MatchBool};
ghost use Rattle.group.specs.Elsewhere.{OthersHold};
ghost use Rattle.group.specs.Record.{width_of, members_of, Lies, Admits, Blamable, raised, Reads, Writes, Prepares, Rebuilds};

use crate::fault::{GroupFault, RowFault};
use crate::member::Member;
use crate::record::Group;
use crate::rows::Row;
use bus::{BLOCK, Bus};
use layout::block::Block;
use layout::geometry::Place;
use layout::method::Method;

impl Group {
    /// The members there are.
    pub fn active(&self) -> &[Member]
        ensures value { result.now ≡ members_of self.now }
        ensures eight { length self.now.members ≡ 8 }
    {
        &self.members[0..self.geometry.members()]
    }

    // Whether a row lies on every member's drive.
    fn lies<B: Bus>(&self, bus: &B, row: usize) -> bool
        ensures { MatchBool result (Lies (B.Bus.drives bus.now) self.now row) (Lies (B.Bus.drives bus.now) self.now row → ⊥) }
    {
        self.active().iter().all(|g| g.reaches(bus, row))
    }

    // The place of protected block `q`, where a buffer of `len` bytes may be moved from or to it.
    fn admit<B: Bus, M: Method>(&self, bus: &B, q: usize, len: usize) -> Result<Place, GroupFault>
        ensures { Admits M.Method (B.Bus.drives bus.now) self.now q len result }
    {
        if self.geometry.members() < M::LEAST {
            return Err(GroupFault::OutOfRule);
        }
        if len < BLOCK {
            return Err(GroupFault::Short);
        }
        // A place is refused only where the block lies outside.
        let place = self
            .geometry
            .locate::<M>(q)
            .map_err(|_| GroupFault::Outside)?;
        if !self.lies(bus, place.row) {
            return Err(GroupFault::Outside);
        }
        Ok(place)
    }

    // A row of the group, and the strip that it is of.
    fn row<M: Method>(&self, strip: usize, row: usize) -> Row<'_, M>
        requires { M.Method.LEAST ≤ width_of self.now }
        ensures members { result.members.now ≡ members_of self.now }
        ensures strip { result.strip ≡ strip }
        ensures row { result.row ≡ row }
    {
        Row::new(self.active(), strip, row)
    }

    // What a fault at a row of this group says above it.
    fn blame(&self, fault: RowFault) -> GroupFault
        requires { Blamable self.now fault }
        ensures { result ≡ raised self.now fault }
    {
        match fault {
            RowFault::Lost { member, row } => GroupFault::Lost {
                group: self.number,
                row,
                member,
                at: self.members[member].at(row),
            },
            RowFault::Failed { fault, member, row } => GroupFault::Failed {
                group: self.number,
                row,
                member,
                fault,
            },
        }
    }

    /// Reads protected block `q` into the first 512 bytes of `buf`.
    pub fn read<B: Bus, M: Method>(
        &self,
        bus: &mut B,
        q: usize,
        buf: &mut [u8],
    ) -> Result<(), GroupFault>
        ensures { Reads M.Method (B.Bus.drives bus.old) (B.Bus.drives bus.new) self.now q buf.old buf.new result }
    {
        let place = self.admit::<B, M>(bus, q, buf.len())?;
        let row = self.row::<M>(place.strip, place.row);
        let block = row
            .read(bus, place.slot)
            .map_err(|fault| self.blame(fault))?;
        put_front(buf, &block);
        Ok(())
    }

    /// Writes the first 512 of `bytes` to protected block `q`.
    pub fn write<B: Bus, M: Method>(
        &self,
        bus: &mut B,
        q: usize,
        bytes: &[u8],
    ) -> Result<(), GroupFault>
        ensures { Writes M.Method (B.Bus.drives bus.old) (B.Bus.drives bus.new) self.now q bytes.now result }
    {
        let place = self.admit::<B, M>(bus, q, bytes.len())?;
        let new = front(bytes);
        let row = self.row::<M>(place.strip, place.row);
        row.write(bus, place.slot, &new)
            .map_err(|fault| self.blame(fault))
    }

    // The next row of member `i` that is to be rebuilt.
    fn prepare<B: Bus, M: Method>(&self, bus: &B, i: usize) -> Result<usize, GroupFault>
        ensures { Prepares M.Method (B.Bus.drives bus.now) self.now i result }
    {
        if self.geometry.members() < M::LEAST {
            return Err(GroupFault::OutOfRule);
        }
        if i >= self.geometry.members() {
            return Err(GroupFault::Outside);
        }
        let r = self.members[i].mark;
        if r >= self.geometry.rows() {
            return Err(GroupFault::Whole);
        }
        if !self.lies(bus, r) {
            return Err(GroupFault::Outside);
        }
        Ok(r)
    }

    /// Rebuilds the next row of member `i`, the one at its mark.
    pub fn rebuild<B: Bus, M: Method>(&self, bus: &mut B, i: usize) -> Result<(), GroupFault>
        ensures { Rebuilds M.Method (B.Bus.drives bus.old) (B.Bus.drives bus.new) self.now i result }
    {
        let r = self.prepare::<B, M>(bus, i)?;
        let row = self.row::<M>(self.geometry.strip_of(r), r);
        row.rebuild(bus, i).map_err(|fault| self.blame(fault))
    }
}

fn front(bytes: &[u8]) -> Block
    requires { 512 ≤ length bytes.now }
    ensures { result ≡ take 512 bytes.now }
{
    let mut block = [0; 512];
    block.copy_from_slice(&bytes[0..512]);
    block
}

fn put_front(buf: &mut [u8], block: &Block)
    requires { 512 ≤ length buf.old }
    ensures { buf.new ≡ block.now ++ drop 512 buf.old }
{
    buf[0..512].copy_from_slice(block);
}

/// Of every method: a call at one row leaves what every other row holds, of its group and of any other, where the two
/// share no block.
pub fn other_rows_hold<M: Method>()
    ensures { OthersHold M.Method }
{}
