// Reading, writing and rebuilding one block of a row.
ghost use Rattle.std.specs.Prelude.{◌≡◌, ℕ, ◌<◌, ◌≤◌, List, length, slice_set};
ghost use Rattle.layout.specs.Blocks.{Blocks};
ghost use Rattle.group.specs.declared.fault.RowFault.TheVariants.{Lost};
ghost use Rattle.group.specs.Group.{member as memberOf, Shape, RowHolds, Frame, Ours, InRow, NoBlock, ItsBlock};
ghost use Rattle.group.specs.Requests.{Keeps, Intact, Settled, HomeFirst, Gives, Decided, Changes, Rebuilds};

use crate::fault::RowFault;
use crate::member::Member;
use crate::parts::place;
use bus::Bus;
use layout::block::Block;
use layout::geometry::MOST_MEMBERS;
use layout::method::Method;
use std::marker::PhantomData;

// `Shape` speaks of the bus too, and stays a clause: with the bus in the row, each call would have to say instead that the
// row is the same after it. A user block `p` is no struct with its row either: rebuilding has none.

// A row of a group: its number, the strip that it is of, and the members, as many as a group by the method has.
#[derive(Drop)]
pub(crate) struct Row<'a, M: Method> {
    pub(crate) members: &'a [Member],
    pub(crate) strip: usize,
    pub(crate) row: usize,
    method: PhantomData<M>,
    ghost enough: { M.Method.LEAST ≤ length members.now },
    ghost few: { length members.now ≤ 8 },
}

impl<'a, M: Method> Row<'a, M> {
    pub(crate) fn new(members: &'a [Member], strip: usize, row: usize) -> Row<'a, M>
        requires enough { M.Method.LEAST ≤ length members.now }
        requires few { length members.now ≤ 8 }
        ensures members { result.members.now ≡ members.now }
        ensures strip { result.strip ≡ strip }
        ensures row { result.row ≡ row }
    {
        Row {
            members,
            strip,
            row,
            method: PhantomData,
        }
    }

    // How many members may be missing.
    pub(crate) fn tolerance(&self) -> usize
        ensures { result ≡ M.Method.tolerance (length self.now.members.now) }
    {
        M::tolerance_of(self.members.len())
    }

    // The member that holds the user block `p`.
    fn home(&self, p: usize) -> usize
        requires { p < M.Method.width (length self.now.members.now) }
        ensures { result ≡ M.Method.home (length self.now.members.now) self.now.strip p }
    {
        place::<M>(self.members.len(), self.strip, p)
    }

    // That the row is lost, and the member `i` is missing in it.
    fn lost(&self, i: usize) -> RowFault
        ensures { result ≡ Lost i self.now.row }
    {
        RowFault::Lost {
            member: i,
            row: self.row,
        }
    }

    // Refuses where the row is lost.
    fn intact<B: Bus>(&self, bus: &B) -> Result<(), RowFault>
        ensures { Intact (M.Method.tolerance (length self.now.members.now)) (B.Bus.drives bus.now) self.now.row self.now.members.now result }
    {
        let gone = self.count_missing(bus);
        if gone <= self.tolerance() {
            return Ok(());
        }
        // There is one: more are missing than may be.
        Err(self.lost(self.first_missing(bus).unwrap()))
    }

    // Refuses where the row is lost and the member `i` is missing.
    fn settle<B: Bus>(&self, bus: &B, i: usize) -> Result<(), RowFault>
        requires { i < length self.now.members.now }
        ensures { Settled (M.Method.tolerance (length self.now.members.now)) (B.Bus.drives bus.now) self.now.row self.now.members.now i result }
    {
        if !self.members[i].missing_in(bus, self.row) {
            return Ok(());
        }
        if self.count_missing(bus) > self.tolerance() {
            return Err(self.lost(i));
        }
        Ok(())
    }

    // Reads the user block `p`.
    pub(crate) fn read<B: Bus>(&self, bus: &mut B, p: usize) -> Result<Block, RowFault>
        requires shape { Shape (B.Bus.drives bus.old) self.now.row self.now.members.now }
        requires user { p < M.Method.width (length self.now.members.now) }
        ensures frame { Frame (B.Bus.drives bus.old) (B.Bus.drives bus.new) (Ours self.now.members.now) NoBlock }
        ensures settled { Settled (M.Method.tolerance (length self.now.members.now)) (B.Bus.drives bus.new) self.now.row self.now.members.now (M.Method.home (length self.now.members.now) self.now.strip p) result }
        ensures first { HomeFirst (B.Bus.drives bus.old) (B.Bus.drives bus.new) self.now.row self.now.members.now (M.Method.home (length self.now.members.now) self.now.strip p) }
        ensures keeps { Keeps M.Method self.now.strip (B.Bus.drives bus.old) (B.Bus.drives bus.new) self.now.row self.now.members.now }
        ensures gives { Gives M.Method self.now.strip (B.Bus.drives bus.old) self.now.row self.now.members.now p result }
    {
        let home = self.home(p);
        if let Some(block) = self.members[home].fetch(bus, self.row) {
            return Ok(block);
        }
        // Only now: a read that its home answers needs no room for a row.
        let mut blocks = [[0; 512]; MOST_MEMBERS];
        let mut unread = [true; MOST_MEMBERS];
        let Some(known) = self.gather(bus, &mut blocks, &mut unread) else {
            return Err(self.lost(home));
        };
        Ok(*known.user(p))
    }

    // Brings the home of the user block `p`, and the check blocks, to `new`, as far as members are not missing.
    fn rewrite<B: Bus>(&self, bus: &mut B, p: usize, new: &Block)
        requires shape { Shape (B.Bus.drives bus.old) self.now.row self.now.members.now }
        requires user { p < M.Method.width (length self.now.members.now) }
        ensures frame { Frame (B.Bus.drives bus.old) (B.Bus.drives bus.new) (Ours self.now.members.now) (InRow self.now.row self.now.members.now) }
        ensures holds { (us : List (List ℕ)) → Blocks (M.Method.width (length self.now.members.now)) us → RowHolds M.Method self.now.strip (B.Bus.drives bus.old) self.now.row self.now.members.now us → RowHolds M.Method self.now.strip (B.Bus.drives bus.new) self.now.row self.now.members.now (slice_set us p new.now) }
    {
        let home = self.home(p);
        let mut blocks = [[0; 512]; MOST_MEMBERS];
        let mut unread = [true; MOST_MEMBERS];
        match self.gather(bus, &mut blocks, &mut unread) {
            Some(known) => self.spread(bus, home, known.replaced(p, new)),
            None => self.members[home].send(bus, self.row, new),
        }
    }

    // Writes the user block `p`.
    pub(crate) fn write<B: Bus>(&self, bus: &mut B, p: usize, new: &Block) -> Result<(), RowFault>
        requires shape { Shape (B.Bus.drives bus.old) self.now.row self.now.members.now }
        requires user { p < M.Method.width (length self.now.members.now) }
        ensures frame { Frame (B.Bus.drives bus.old) (B.Bus.drives bus.new) (Ours self.now.members.now) (InRow self.now.row self.now.members.now) }
        ensures decided { Decided (M.Method.tolerance (length self.now.members.now)) (B.Bus.drives bus.old) (B.Bus.drives bus.new) self.now.row self.now.members.now (M.Method.home (length self.now.members.now) self.now.strip p) result }
        ensures changes { Changes M.Method self.now.strip (B.Bus.drives bus.old) (B.Bus.drives bus.new) self.now.row self.now.members.now p new.now result }
    {
        self.intact(bus)?;
        self.rewrite(bus, p, new);
        self.settle(bus, self.home(p))
    }

    // Makes the block of the member `i` again, whose mark has not reached the row.
    pub(crate) fn rebuild<B: Bus>(&self, bus: &mut B, i: usize) -> Result<(), RowFault>
        requires shape { Shape (B.Bus.drives bus.old) self.now.row self.now.members.now }
        requires inside { i < length self.now.members.now }
        requires behind { (memberOf self.now.members.now i).mark ≤ self.now.row }
        ensures frame { Frame (B.Bus.drives bus.old) (B.Bus.drives bus.new) (Ours self.now.members.now) (ItsBlock self.now.row (memberOf self.now.members.now i)) }
        ensures keeps { Keeps M.Method self.now.strip (B.Bus.drives bus.old) (B.Bus.drives bus.new) self.now.row self.now.members.now }
        ensures rebuilds { Rebuilds M.Method self.now.strip (B.Bus.drives bus.old) (B.Bus.drives bus.new) self.now.row self.now.members.now i result }
    {
        let mut blocks = [[0; 512]; MOST_MEMBERS];
        let mut unread = [true; MOST_MEMBERS];
        let Some(known) = self.gather(bus, &mut blocks, &mut unread) else {
            return Err(self.lost(i));
        };
        let block = known.block(i);
        self.members[i].store(bus, i, self.row, block)
    }
}
